// Part 1, the subtable itself.
ghost use Rattle.fields.specs.Cursors.{Reads};
ghost use Rattle.markbase.specs.Nodes.{node_of, read};
ghost use Rattle.markbase.specs.Tables.{subtable};

use crate::data::DataBytes;
use fields::{Cursor, Fault};
use serialize::link::LinkWidth;

/// A subtable's class count, and the vertices that its offsets lead to.
#[derive(Clone, Copy, Debug, PartialEq, Eq)]
pub struct MarkBasePosFormat1 {
    pub mark_coverage: u32,
    pub base_coverage: u32,
    pub class_count: u16,
    pub mark_array: u32,
    pub base_array: u32,
}

impl MarkBasePosFormat1 {
    /// Format 1, the offsets of the coverages, the class count, the offsets of the arrays; 12 bytes.
    pub fn read(vertex: DataBytes) -> Result<MarkBasePosFormat1, Fault>
        ensures { Reads (read subtable (node_of vertex.entry)) result }
    {
        // `let .. else` on each link of a part: the first that is absent gives the fault.
        let mut cursor = Cursor::new(vertex.bytes, vertex.links);
        let format = cursor.word()?;
        if format.value != 1 {
            return Err(Fault {
                place: format.place,
            });
        }
        let Some(mark_coverage) = cursor.role(LinkWidth::Two) else {
            return Err(cursor.fault());
        };
        let Some(base_coverage) = cursor.role(LinkWidth::Two) else {
            return Err(cursor.fault());
        };
        let classes = cursor.word()?;
        if classes.value < 1 {
            return Err(Fault {
                place: classes.place,
            });
        }
        let Some(mark_array) = cursor.role(LinkWidth::Two) else {
            return Err(cursor.fault());
        };
        let Some(base_array) = cursor.role(LinkWidth::Two) else {
            return Err(cursor.fault());
        };
        cursor.end()?;
        Ok(MarkBasePosFormat1 {
            mark_coverage,
            base_coverage,
            class_count: classes.value,
            mark_array,
            base_array,
        })
    }
}
