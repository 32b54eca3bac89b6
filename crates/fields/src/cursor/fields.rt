// The fields, one after the other.
ghost use Rattle.std.specs.Prelude.{◌≡◌, ◌≤◌, length};
ghost use Rattle.serialize.specs.Objects.{Ascends};
ghost use Rattle.fields.specs.Fields.{start, seek, word, offset, nullable, bare};
ghost use Rattle.fields.specs.Arrays.{mark};
ghost use Rattle.fields.specs.Cursors.{rest, Gives, GivesSome, Ends};

use super::Cursor;
use crate::fault::Fault;
use crate::search::links_before;
use layout::Located;
use serialize::link::{Link, LinkWidth};

impl<'a> Cursor<'a> {
    /// At the first field of a vertex.
    pub fn new(bytes: &'a [u8], links: &'a [Link]) -> Cursor<'a>
        ensures { rest result ≡ start bytes.now links.now }
    {
        Cursor {
            place: 0,
            bytes,
            links,
        }
    }

    /// At a place of a vertex.
    pub fn seek(bytes: &'a [u8], links: &'a [Link], place: usize) -> Cursor<'a>
        requires ascending { Ascends links.now }
        requires within { place ≤ length bytes.now }
        ensures { rest result ≡ seek place bytes.now links.now }
    {
        let before = links_before(links, place);
        Cursor {
            place,
            bytes: &bytes[place..],
            links: &links[before..],
        }
    }

    /// That the next field is broken.
    pub fn fault(&self) -> Fault
        ensures { result.place ≡ (rest self.now).place }
    {
        Fault { place: self.place }
    }

    /// Whether the vertex goes on for `width` bytes, and no link starts in them.
    fn is_bare(&self, width: usize) -> bool
        requires { width ≤ 4 }
        ensures { result ≡ bare width (rest self.now) }
    {
        if self.bytes.len() < width {
            return false;
        }
        match self.links {
            [] => true,
            [first, ..] => first.position as usize >= self.place + width,
        }
    }

    /// A word.
    pub fn word(&mut self) -> Result<Located<u16>, Fault>
        ensures { Gives (word (rest self.old)) self.old.place result (rest self.new) }
    {
        let place = self.place;
        if !self.is_bare(2) {
            return Err(Fault { place });
        }
        let value = u16::from_be_bytes([self.bytes[0], self.bytes[1]]);
        *self = Cursor {
            place: place + 2,
            bytes: &self.bytes[2..],
            links: self.links,
        };
        Ok(Located { value, place })
    }

    /// The vertex that an offset field of this width points at, if it is not broken.
    pub fn role(&mut self, width: LinkWidth) -> Option<u32>
        ensures { GivesSome (offset width (rest self.old)) result (rest self.new) }
    {
        let wide = width.len();
        let [link, links @ ..] = self.links else {
            return None;
        };
        if self.bytes.len() < wide {
            return None;
        }
        if link.position as usize != self.place {
            return None;
        }
        if link.width.len() != wide {
            return None;
        }
        *self = Cursor {
            place: self.place + wide,
            bytes: &self.bytes[wide..],
            links,
        };
        Some(link.child)
    }

    /// An offset.
    pub fn offset(&mut self, width: LinkWidth) -> Result<Located<u32>, Fault>
        ensures { Gives (offset width (rest self.old)) self.old.place result (rest self.new) }
    {
        let place = self.place;
        let value = self.role(width).ok_or(self.fault())?;
        Ok(Located { value, place })
    }

    /// An offset of two bytes, or a null.
    pub fn nullable(&mut self) -> Result<Located<Option<u32>>, Fault>
        ensures { Gives (nullable (rest self.old)) self.old.place result (rest self.new) }
    {
        let place = self.place;
        if self.is_bare(2) {
            let word = self.word()?;
            if word.value != 0 {
                return Err(Fault { place });
            }
            return Ok(Located { value: None, place });
        }
        let child = self.offset(LinkWidth::Two)?;
        Ok(Located {
            value: Some(child.value),
            place,
        })
    }

    /// A mark record: its class, below `class_count`, and its anchor.
    pub fn mark(&mut self, class_count: u16) -> Result<Located<(u16, Option<u32>)>, Fault>
        ensures { Gives (mark class_count (rest self.old)) self.old.place result (rest self.new) }
    {
        let class = self.word()?;
        if class.value >= class_count {
            return Err(Fault { place: class.place });
        }
        let anchor = self.nullable()?;
        Ok(Located {
            value: (class.value, anchor.value),
            place: class.place,
        })
    }

    /// No byte may follow.
    pub fn end(&self) -> Result<(), Fault>
        ensures { Ends (rest self.now) result }
    {
        if self.bytes.is_empty() {
            Ok(())
        } else {
            Err(Fault { place: self.place })
        }
    }
}
