// Part 0, the extension.
ghost use Rattle.fields.specs.Cursors.{Reads};
ghost use Rattle.markbase.specs.Nodes.{node_of, read};
ghost use Rattle.markbase.specs.Tables.{extension};

use crate::data::DataBytes;
use crate::lookup_type::LookupType;
use fields::{Cursor, Fault};
use serialize::link::LinkWidth;

/// An extension: the vertex of the subtable that it stands for.
#[derive(Clone, Copy, Debug, PartialEq, Eq)]
pub struct ExtensionSubtable {
    pub subtable: u32,
}

impl ExtensionSubtable {
    /// Format 1, type 4, the offset of the subtable; 8 bytes.
    pub fn read(vertex: DataBytes) -> Result<ExtensionSubtable, Fault>
        ensures { Reads (read extension (node_of vertex.entry)) result }
    {
        let mut cursor = Cursor::new(vertex.bytes, vertex.links);
        let format = cursor.word()?;
        if format.value != 1 {
            return Err(Fault {
                place: format.place,
            });
        }
        let kind = cursor.word()?;
        if kind.value != LookupType::MarkToBase as u16 {
            return Err(Fault { place: kind.place });
        }
        // As in the subtable: an absent link gives the fault.
        let Some(subtable) = cursor.role(LinkWidth::Four) else {
            return Err(cursor.fault());
        };
        cursor.end()?;
        Ok(ExtensionSubtable { subtable })
    }
}
