// A vertex, borrowed.
ghost use Rattle.std.specs.Prelude.{◌≡◌, nat_eq};
ghost use Rattle.serialize.specs.Objects.{node_at, Ascends};
ghost use Rattle.graph.specs.Model.{view};
ghost use Rattle.fields.specs.Fields.{allowed, start};
ghost use Rattle.markbase.specs.Nodes.{node_of};

use fields::{Cursor, Fault};
use graph::tables::Graph;
use serialize::link::Link;

// No ghost field says that the links ascend: subtables and extensions are read of any links, and only the readers that seek require it.
/// The bytes and the links of a vertex.
#[derive(Clone, Copy)]
pub struct DataBytes<'a> {
    pub bytes: &'a [u8],
    pub links: &'a [Link],
}

impl<'a> DataBytes<'a> {
    ghost use Rattle.markbase.specs.Views.{Passes};

    /// Those of the vertex `v`; none where there is no such vertex.
    pub fn from_graph(graph: &'a Graph, v: u32) -> DataBytes<'a>
        ensures node { node_of result ≡ node_at (view graph.now).nodes v }
        ensures ascending { Ascends (node_of result).links }
    {
        let v = v as usize;
        if v >= graph.vertex_count() {
            return DataBytes {
                bytes: &[],
                links: &[],
            };
        }
        DataBytes {
            bytes: graph.vertex_data(v),
            links: graph.links(v),
        }
    }

    /// Behind the first word of an array, which has to be the `count` of its records.
    pub(crate) fn after_count(self, count: usize) -> Result<Cursor<'a>, Fault>
        ensures { Passes count (allowed (nat_eq count) (start self.entry.bytes.now self.entry.links.now)) result }
    {
        let mut cursor = Cursor::new(self.bytes, self.links);
        let found = cursor.word()?;
        if found.value as usize != count {
            return Err(Fault { place: found.place });
        }
        Ok(cursor)
    }
}
