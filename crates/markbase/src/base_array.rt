// Part 5, the base array.
ghost use Rattle.std.specs.Prelude.{◌≡◌, ◌<◌, [], true, length, is_ok, None, slice_index_or};
ghost use Rattle.serialize.specs.Objects.{Ascends};
ghost use Rattle.fields.specs.Arrays.{base_array_reader};
ghost use Rattle.markbase.specs.Nodes.{node_of, read};

use crate::data::DataBytes;
use fields::{Cursor, Fault};

// Not one generic array with `MarkArray`: a trait of records needs a marker type and an impl for each and a `Clone` by hand, and a closure for a record clauses about its calls.
/// A base array of `count` bases, each with an anchor or a null for each of `class_count` classes.
#[derive(Clone, Copy)]
pub struct BaseArray<'a> {
    pub(crate) vertex: DataBytes<'a>,
    pub(crate) count: usize,
    pub(crate) class_count: u16,
    // No field is broken.
    pub ghost ascending: { Ascends (node_of vertex).links },
    pub ghost stands: { is_ok (read (base_array_reader count class_count) (node_of vertex)) ≡ true },
}

impl<'a> BaseArray<'a> {
    ghost use Rattle.markbase.specs.Views.{rows_of, ReadsBases};

    /// Takes a vertex for a base array, or says where it is broken.
    pub fn read(
        vertex: DataBytes<'a>,
        count: usize,
        class_count: u16,
    ) -> Result<BaseArray<'a>, Fault>
        requires { Ascends (node_of vertex).links }
        ensures { ReadsBases (read (base_array_reader count class_count) (node_of vertex.entry)) result }
    {
        let mut cursor = vertex.after_count(count)?;
        for _ in 0..count {
            for _ in 0..class_count {
                let _ = cursor.nullable()?;
            }
        }
        cursor.end()?;
        Ok(BaseArray {
            vertex,
            count,
            class_count,
        })
    }

    /// A base's anchor for a class.
    pub fn anchor(&self, base: u16, class: u16) -> Option<u32>
        requires base { base < length (rows_of self.now) }
        requires class { class < self.now.class_count }
        ensures { result ≡ slice_index_or (slice_index_or (rows_of self.now) base []) class None }
    {
        let row = 2 + 2 * (self.class_count as usize) * (base as usize);
        let place = row + 2 * (class as usize);
        let mut cursor = Cursor::seek(self.vertex.bytes, self.vertex.links, place);
        cursor.nullable().unwrap().value
    }
}
