// Links.
ghost use Rattle.std.specs.Prelude.{◌≡◌};
ghost use Rattle.serialize.specs.Width.{width_of, Names};

// How many bytes the field of a link has.
#[derive(Clone, Copy, PartialEq, Eq, Debug)]
pub enum LinkWidth {
    Two = 2,
    Three = 3,
    Four = 4,
}

// A number of bytes that no field has.
#[derive(Clone, Copy, PartialEq, Eq, Debug)]
pub struct UnknownWidth(pub usize);

impl TryFrom<usize> for LinkWidth {
    type Error = UnknownWidth;

    ghost try_from_gives = { Names };

    fn try_from(val: usize) -> Result<LinkWidth, UnknownWidth> {
        match val {
            2 => Ok(LinkWidth::Two),
            3 => Ok(LinkWidth::Three),
            4 => Ok(LinkWidth::Four),
            _ => Err(UnknownWidth(val)),
        }
    }
}

impl LinkWidth {
    // The number of bytes.
    pub fn len(self) -> usize
        ensures { result ≡ width_of self }
    {
        self as usize
    }
}

// The field of `width` bytes at `position` in a vertex, which points at the vertex `child`.
#[derive(Clone, Copy, PartialEq, Eq, Debug)]
pub struct Link {
    pub position: u32,
    pub child: u32,
    pub width: LinkWidth,
}
