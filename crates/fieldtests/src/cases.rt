// Vertices to read.
use fields::Fault;
use markbase::DataBytes;
use serialize::link::{Link, LinkWidth};

/// A vertex, and where it is broken.
#[derive(Clone, Copy)]
pub struct Case<'a> {
    pub bytes: &'a [u8],
    pub links: &'a [Link],
    pub place: Option<usize>,
}

pub fn link(position: u32, child: u32, width: LinkWidth) -> Link {
    Link {
        position,
        child,
        width,
    }
}

pub fn two(position: u32, child: u32) -> Link {
    link(position, child, LinkWidth::Two)
}

// Bytes and links are two literals in each row of the tests; a vertex around them would only add a name.
pub fn broken<'a>(bytes: &'a [u8], links: &'a [Link], place: usize) -> Case<'a> {
    Case {
        bytes,
        links,
        place: Some(place),
    }
}

pub fn sound<'a>(bytes: &'a [u8], links: &'a [Link]) -> Case<'a> {
    Case {
        bytes,
        links,
        place: None,
    }
}

impl<'a> Case<'a> {
    pub fn data(&self) -> DataBytes<'a> {
        DataBytes {
            bytes: self.bytes,
            links: self.links,
        }
    }
}

pub fn place_of<T: Drop>(read: Result<T, Fault>) -> Option<usize> {
    read.err().map(|fault| fault.place)
}
