// Making a graph of the caller's tables.
ghost use Rattle.std.specs.Prelude.{◌≡◌, vec_len};
ghost use Rattle.graph.specs.Model.{view, no_objects, capacity_of};

use super::Graph;
use crate::vertex::{Capacity, Vertex};
use serialize::link::Link;

// The most vertices, links and bytes that any graph holds.
pub const MOST_VERTICES: usize = 20_000;

pub const MOST_LINKS: usize = 100_000;

pub const MOST_BYTES: usize = 4_000_000;

impl Graph {
    // A graph without objects, which holds as much as the tables that it is given are long, up to the limits; what they held is gone.
    #[tactic(auto, unfolding(crate::specs::Model::view))]
    pub fn new(mut vertices: Vec<Vertex>, mut links: Vec<Link>, mut bytes: Vec<u8>) -> Graph
        ensures { view result ≡ no_objects (capacity_of (vec_len vertices) (vec_len links) (vec_len bytes)) }
    {
        let capacity = Capacity {
            vertices: vertices.len().min(MOST_VERTICES),
            links: links.len().min(MOST_LINKS),
            bytes: bytes.len().min(MOST_BYTES),
        };
        vertices.clear();
        links.clear();
        bytes.clear();
        Graph {
            vertices,
            links,
            bytes,
            capacity,
        }
    }
}
