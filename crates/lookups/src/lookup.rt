// A lookup's own fields.
ghost use Rattle.std.specs.Prelude.{◌≡◌, Ok, ◌<◌, slice_index};
ghost use Rattle.serialize.specs.Objects.{Ascends};
ghost use Rattle.fields.specs.Cursors.{Reads};
ghost use Rattle.markbase.specs.Nodes.{node_of, read};
ghost use Rattle.lookups.specs.Tables.{lookup, head_of};

use fields::{Cursor, Fault};
use markbase::{DataBytes, LookupType};
use serialize::link::LinkWidth;

/// The bit of the flag that says that a mark filtering set follows the offsets.
const USE_MARK_FILTERING_SET: u16 = 0x0010;

/// A lookup's type and flag, and the number of its subtables.
#[derive(Clone, Copy, Debug, PartialEq, Eq)]
pub struct LookupHead {
    pub kind: LookupType,
    pub flag: u16,
    pub count: u16,
}

/// A lookup without a broken field.
#[derive(Clone, Copy)]
pub struct Lookup<'a> {
    vertex: DataBytes<'a>,
    head: LookupHead,
    // No field is broken: the vertex reads as a lookup with this head.
    pub ghost ascending: { Ascends (node_of vertex).links },
    pub ghost stands: { head_of (read lookup (node_of vertex)) ≡ Ok head },
}

/// Goes through the fields: type 4 or 9, flag, count, as many offsets, and one word more if the flag says so.
fn check_fields(vertex: DataBytes) -> Result<LookupHead, Fault>
    ensures { Reads (head_of (read lookup (node_of vertex.entry))) result }
{
    let mut cursor = Cursor::new(vertex.bytes, vertex.links);
    let word = cursor.word()?;
    let kind = LookupType::try_from(word.value).map_err(|_| Fault { place: word.place })?;
    let flag = cursor.word()?;
    let count = cursor.word()?;
    for _ in 0..count.value {
        let _ = cursor.offset(LinkWidth::Two)?;
    }
    if flag.value & USE_MARK_FILTERING_SET != 0 {
        let _ = cursor.word()?;
    }
    cursor.end()?;
    Ok(LookupHead {
        kind,
        flag: flag.value,
        count: count.value,
    })
}

impl<'a> Lookup<'a> {
    ghost use Rattle.lookups.specs.Views.{offsets_of, ReadsLookup};

    /// Takes a vertex for a lookup, or says where it is broken.
    pub fn read(vertex: DataBytes<'a>) -> Result<Lookup<'a>, Fault>
        requires { Ascends (node_of vertex).links }
        ensures { ReadsLookup (node_of vertex.entry) result }
    {
        let head = check_fields(vertex)?;
        Ok(Lookup { vertex, head })
    }

    pub fn head(&self) -> LookupHead
        ensures { result ≡ self.now.head }
    {
        self.head
    }

    /// The vertex of a subtable or, in type 9, of its extension.
    pub fn subtable(&self, i: u16) -> u32
        requires { i < self.now.head.count }
        ensures { result ≡ slice_index (offsets_of self.now) i }
    {
        let mut cursor = Cursor::seek(self.vertex.bytes, self.vertex.links, 6 + 2 * i as usize);
        cursor.offset(LinkWidth::Two).unwrap().value
    }
}
