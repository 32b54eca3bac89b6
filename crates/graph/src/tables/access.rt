// Reading vertices.
ghost use Rattle.std.specs.Prelude.{◌≡◌, ℕ, ◌+◌, ◌<◌, ◌≤◌, length, vec_len};
ghost use Rattle.serialize.specs.Objects.{bytes_at, links_at, all_links, word_at, link_in, Ascends};
ghost use Rattle.graph.specs.Sound.{vertex_at};
ghost use Rattle.graph.specs.Model.{view};

use super::Graph;
use crate::vertex::{Capacity, Vertex};
use serialize::link::Link;

// The link at `position`, in links whose fields ascend.
fn find(links: &[Link], position: u32) -> Option<Link>
    requires { Ascends links.now }
    ensures { result ≡ link_in links.now position }
{
    let i = links.partition_point(|link| link.position < position);
    links
        .get(i)
        .copied()
        .filter(|link| link.position == position)
}

// A vertex is named by its number, and each call asks that it is in range, as an index of a slice is: a type for that would have to hold the graph.
#[tactic(auto, using(crate::proofs::Views::count_is, crate::proofs::Views::all_joined, crate::proofs::Views::links_long, crate::proofs::Views::links_end), unfolding(crate::specs::Model::view))]
impl Graph {
    pub fn vertex_count(&self) -> usize
        ensures value { result ≡ length (view self.now).nodes }
        ensures bound { result ≤ 20000 }
    {
        self.vertices.len()
    }

    // Up to where bytes have been dealt out.
    pub fn mark(&self) -> usize
        ensures value { result ≡ (view self.now).mark }
        ensures bound { result ≤ 4000000 }
    {
        self.bytes.len()
    }

    pub fn capacity(&self) -> Capacity
        ensures value { result ≡ (view self.now).capacity }
        ensures limits { (result.vertices ≤ 20000) × (result.links ≤ 100000) × (result.bytes ≤ 4000000) }
    {
        self.capacity
    }

    // The record of a vertex, and where its bytes and links stand.
    pub(crate) fn vertex(&self, v: usize) -> Vertex
        requires { v < length (view self.now).nodes }
        ensures value { result ≡ vertex_at self.now.vertices.items v }
        ensures count { v < vec_len self.now.vertices }
        ensures len { length (bytes_at (view self.now).nodes v) ≡ result.len }
        ensures within { result.head + result.len ≤ vec_len self.now.bytes }
        ensures link_count { length (links_at (view self.now).nodes v) ≡ result.link_count }
        ensures links_within { result.first_link + result.link_count ≤ vec_len self.now.links }
    {
        self.vertices[v]
    }

    // The bytes of a vertex.
    pub fn vertex_data(&self, v: usize) -> &[u8]
        requires { v < length (view self.now).nodes }
        ensures { result.now ≡ bytes_at (view self.now).nodes v }
    {
        let r = self.vertex(v);
        let from = r.head;
        let to = from + r.len;
        &self.bytes.as_slice()[from..to]
    }

    // The word at a position of a vertex.
    pub fn word(&self, v: usize, position: usize) -> u16
        requires vertex { v < length (view self.now).nodes }
        requires within { position + 1 < length (bytes_at (view self.now).nodes v) }
        ensures { result ≡ word_at (bytes_at (view self.now).nodes v) position }
    {
        let data = self.vertex_data(v);
        u16::from_be_bytes([data[position], data[position + 1]])
    }

    // The links of a vertex.
    // Not one function with `vertex_data`: they are of two tables, each by its own two fields of the record.
    pub fn links(&self, v: usize) -> &[Link]
        requires { v < length (view self.now).nodes }
        ensures value { result.now ≡ links_at (view self.now).nodes v }
        ensures ascending { Ascends result.now }
    {
        let r = self.vertex(v);
        let from = r.first_link;
        let to = from + r.link_count;
        &self.links.as_slice()[from..to]
    }

    // The links of all vertices, in the order of the vertices.
    pub fn all_links(&self) -> &[Link]
        ensures value { result.now ≡ all_links (view self.now).nodes }
        ensures bound { length result.now ≤ 100000 }
    {
        self.links.as_slice()
    }

    // The link whose field begins at a position of a vertex.
    pub fn link_at(&self, v: usize, position: u32) -> Option<Link>
        requires { v < length (view self.now).nodes }
        ensures { result ≡ link_in (links_at (view self.now).nodes v) position }
    {
        find(self.links(v), position)
    }
}
