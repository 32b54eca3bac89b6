// Part 4, the mark array.
ghost use Rattle.std.specs.Prelude.{◌≡◌, ◌<◌, true, length, is_ok, None, slice_index_or};
ghost use Rattle.serialize.specs.Objects.{Ascends};
ghost use Rattle.fields.specs.Arrays.{mark_array_reader};
ghost use Rattle.markbase.specs.Nodes.{node_of, read};

use crate::data::DataBytes;
use fields::{Cursor, Fault};

// Not one generic array with `BaseArray`, whose line says why.
/// A mark array of `count` marks of `class_count` classes.
#[derive(Clone, Copy)]
pub struct MarkArray<'a> {
    pub(crate) vertex: DataBytes<'a>,
    pub(crate) count: usize,
    pub(crate) class_count: u16,
    // No field is broken.
    pub ghost ascending: { Ascends (node_of vertex).links },
    pub ghost stands: { is_ok (read (mark_array_reader count class_count) (node_of vertex)) ≡ true },
}

impl<'a> MarkArray<'a> {
    ghost use Rattle.markbase.specs.Views.{marks_of, ReadsMarks};

    /// Takes a vertex for a mark array, or says where it is broken.
    pub fn read(
        vertex: DataBytes<'a>,
        count: usize,
        class_count: u16,
    ) -> Result<MarkArray<'a>, Fault>
        requires { Ascends (node_of vertex).links }
        ensures { ReadsMarks (read (mark_array_reader count class_count) (node_of vertex.entry)) result }
    {
        let mut cursor = vertex.after_count(count)?;
        for _ in 0..count {
            let _ = cursor.mark(class_count)?;
        }
        cursor.end()?;
        Ok(MarkArray {
            vertex,
            count,
            class_count,
        })
    }

    /// A mark's class and its anchor.
    pub fn mark(&self, i: u16) -> (u16, Option<u32>)
        requires { i < length (marks_of self.now) }
        ensures { result ≡ slice_index_or (marks_of self.now) i (0, None) }
    {
        let mut cursor = Cursor::seek(self.vertex.bytes, self.vertex.links, 2 + 4 * i as usize);
        cursor.mark(self.class_count).unwrap().value
    }
}
