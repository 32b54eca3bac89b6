// How far a vertex has been read.
ghost use Rattle.std.specs.Prelude.{◌+◌, ◌^◌, ◌<◌, length};

use serialize::link::Link;

mod fields;

/// The place of the next field, the bytes from there on, and the links that start from there on.
// Not built on the reader of coverages: that one reads words alone, and this one asks of each field for its link.
#[derive(Drop)]
pub struct Cursor<'a> {
    place: usize,
    bytes: &'a [u8],
    links: &'a [Link],
    ghost fits: { place + length bytes.now < 2 ^ 64 },
}
