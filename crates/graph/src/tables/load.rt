// The tables filled from an object file.
ghost use Rattle.std.specs.Prelude.{◌≡◌, ℕ, ◌+◌, ◌<◌, ◌≤◌, length, vec_len, vec_capacity};
ghost use Rattle.graph.specs.Filling.{Room, first_of, rows_of, links_of};
ghost use Rattle.graph.specs.Model.{view, with_file};

use super::Graph;
use crate::vertex::Vertex;
use serialize::link::Link;
use serialize::object_file::{ObjectFile, SoundFile};

// Where the records of `v` end, which begin at `first`.
fn records_end(sound: SoundFile<'_>, first: u32, v: u32) -> u32
    requires { first ≡ first_of sound.file.bytes.now sound.file.trailer v }
    ensures { result ≡ first_of sound.entry.file.bytes.now sound.entry.file.trailer (v + 1) }
{
    let file = sound.file;
    (first..file.trailer.links)
        .find(|i| file.record(*i).parent != v)
        .unwrap_or(file.trailer.links)
}

// The vertex table of a file, in place of what the table held.
fn fill_vertices(vertices: &mut Vec<Vertex>, sound: SoundFile<'_>)
    requires { sound.file.trailer.vertices ≤ vec_capacity vertices.old }
    ensures items { vertices.new.items ≡ rows_of sound.entry.file.bytes.now sound.entry.file.trailer }
    ensures len { vec_len vertices.new ≡ sound.entry.file.trailer.vertices }
    ensures capacity { vec_capacity vertices.new ≡ vec_capacity vertices.old }
{
    vertices.clear();
    let mut head = 0;
    let mut first = 0;
    // By number: the lengths are bytes of the file, and no slice holds them.
    for v in 0..sound.file.trailer.vertices {
        let len = sound.file.length(v) as usize;
        let end = records_end(sound, first, v);
        vertices.push_reserved(Vertex {
            head,
            len,
            first_link: first as usize,
            link_count: (end - first) as usize,
        });
        head += len;
        first = end;
    }
}

// The link table of a file, in place of what the table held.
fn fill_links(links: &mut Vec<Link>, file: ObjectFile<'_>)
    requires { file.trailer.links ≤ vec_capacity links.old }
    ensures items { links.new.items ≡ links_of file.entry.bytes.now file.entry.trailer }
    ensures len { vec_len links.new ≡ file.entry.trailer.links }
    ensures capacity { vec_capacity links.new ≡ vec_capacity links.old }
{
    links.clear();
    // By number: the records are bytes of the file, and no slice holds them.
    for i in 0..file.trailer.links {
        links.push_reserved(file.record(i).link());
    }
}

// The vertices' bytes, in place of what the area held.
fn fill_bytes(bytes: &mut Vec<u8>, area: &[u8])
    requires { length area.now ≤ vec_capacity bytes.old }
    ensures items { bytes.new.items ≡ area.now }
    ensures len { vec_len bytes.new ≡ length area.now }
    ensures capacity { vec_capacity bytes.old ≤ vec_capacity bytes.new }
{
    bytes.clear();
    let _ = bytes.extend_from_slice(area);
}

impl Graph {
    // Puts the objects of a file in the place of those that the graph held.
    pub fn fill(&mut self, sound: SoundFile<'_>)
        requires { Room (view self.old).capacity sound.file.trailer }
        ensures { view self.new ≡ with_file (view self.old) sound.entry.file.bytes.now sound.entry.file.trailer }
    {
        let file = sound.file;
        fill_vertices(&mut self.vertices, sound);
        fill_links(&mut self.links, file);
        fill_bytes(
            &mut self.bytes,
            &file.bytes[..file.trailer.lengths as usize],
        );
    }
}
