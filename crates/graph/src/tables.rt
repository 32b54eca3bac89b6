// The tables of an object graph, each as long as it is filled.
ghost use Rattle.std.specs.Prelude.{◌≡◌, vec_len, vec_capacity};
ghost use Rattle.graph.specs.Sound.{Holds, Below, Apart, Placed, Ordered, Inside, Blank, link_total};

use crate::vertex::{Capacity, Vertex};
use serialize::link::Link;

mod access;
mod incoming;
mod load;
mod make;

// Vertices name one another by their numbers, and the tables are the caller's: nothing is allocated after they are made.
#[derive(Drop)]
pub struct Graph {
    vertices: Vec<Vertex>,
    links: Vec<Link>,
    bytes: Vec<u8>,
    capacity: Capacity,
    // Nothing that a call adds up to a capacity has to be allocated.
    ghost vertices_hold: { Holds 20000 capacity.vertices (vec_len vertices) (vec_capacity vertices) },
    ghost links_hold: { Holds 100000 capacity.links (vec_len links) (vec_capacity links) },
    ghost bytes_hold: { Holds 4000000 capacity.bytes (vec_len bytes) (vec_capacity bytes) },
    // Each vertex's bytes lie in the area, and no byte belongs to two.
    ghost below: { Below vertices.items (vec_len bytes) },
    ghost apart: { Apart vertices.items },
    // The segments of links lie end to end and cover the table.
    ghost placed: { Placed vertices.items },
    ghost covered: { link_total vertices.items ≡ vec_len links },
    // In a segment fields ascend and do not overlap; each lies in its vertex and is zero, and its child is a vertex.
    ghost ordered: { Ordered vertices.items links.items },
    ghost inside: { Inside vertices.items links.items },
    ghost blank: { Blank vertices.items links.items bytes.items },
}
