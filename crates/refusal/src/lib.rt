// Why a call declines: one enum for all calls, and the numbers that each cause is reported by.
#![tactic(auto)]

ghost use Rattle.std.specs.Prelude.{◌≡◌, Some, decimal};
ghost use Rattle.refusal.specs.Numbers.{shortage_number, part_number, number_of, numbers_of, spaced};

use std::fmt;

// What is too small for a file or for a split.
#[derive(Clone, Copy, PartialEq, Eq, Debug)]
pub enum Shortage {
    Vertices = 0,
    Links = 1,
    Bytes = 2,
    Lists = 3,
}

// The parts of a subtable, in the order in which they are read.
#[derive(Clone, Copy, PartialEq, Eq, Debug)]
pub enum Part {
    Extension = 0,
    Subtable = 1,
    MarkCoverage = 2,
    BaseCoverage = 3,
    MarkArray = 4,
    BaseArray = 5,
}

// The causes, in the order of their numbers.
#[derive(Clone, Copy, PartialEq, Eq, Debug)]
pub enum Refusal {
    // `load`: the trailer, the parts or the file's length are wrong.
    BadFile,
    // `load`: the file passes a capacity, or a list or the visit marks are too short.
    FileTooLarge(Shortage),
    // `load`: the first link record that breaks a rule, alone or with those before it.
    BadLink {
        record: u32,
    },
    // `open`: a lookup is open.
    LookupOpen {
        lookup: u32,
    },
    // `open`: no such vertex, or it has incoming links.
    NoLookup,
    // `open`: the lookup is broken at this byte.
    BrokenLookup {
        place: usize,
    },
    // `open`: a part of a subtable is broken at this byte.
    BrokenPart {
        subtable: u32,
        part: Part,
        place: usize,
    },
    // `open`: the lowest part of a subtable, the base coverage aside, that has more than one incoming link.
    SharedPart {
        subtable: u32,
        part: Part,
    },
    // No lookup is open.
    NothingOpen,
    // No such subtable; there are this many.
    NoSubtable {
        count: u32,
    },
    // The reach is 0 or above 65,535.
    BadReach {
        reach: u32,
    },
    // The first subtable that has a class which alone exceeds the reach, and its lowest such class.
    ClassTooLarge {
        subtable: u32,
        class: u16,
    },
    // What the call needs passes a capacity.
    NoRoom(Shortage),
    // `extend`: the lookup has extensions.
    AlreadyExtended,
}

impl Shortage {
    pub fn number(self) -> u8
        ensures { result ≡ shortage_number self }
    {
        self as u8 // in the order in which they are tried
    }
}

impl Part {
    pub fn number(self) -> u8
        ensures { result ≡ part_number self }
    {
        self as u8 // in the order in which they are read
    }
}

impl Refusal {
    // The cause's number, without the values that come with it.
    // A match, since `as` gives no number to an enum whose variants hold values.
    pub fn number(self) -> u8
        ensures { result ≡ number_of self }
    {
        match self {
            Refusal::BadFile => 1,
            Refusal::FileTooLarge(_) => 2,
            Refusal::BadLink { .. } => 3,
            Refusal::LookupOpen { .. } => 4,
            Refusal::NoLookup => 5,
            Refusal::BrokenLookup { .. } => 6,
            Refusal::BrokenPart { .. } => 7,
            Refusal::SharedPart { .. } => 8,
            Refusal::NothingOpen => 9,
            Refusal::NoSubtable { .. } => 10,
            Refusal::BadReach { .. } => 11,
            Refusal::ClassTooLarge { .. } => 12,
            Refusal::NoRoom(_) => 13,
            Refusal::AlreadyExtended => 14,
        }
    }
}

// An impl for each of the two enums: one for both would be a trait with their numbers, which is longer.
impl fmt::Display for Shortage {
    ghost output = { λ s. Some (decimal (shortage_number s)) };

    fn fmt<W: fmt::Write>(&self, f: &mut fmt::Formatter<W>) -> fmt::Result {
        let shortage = self.number();
        write!(f, "{shortage}")
    }
}

impl fmt::Display for Part {
    ghost output = { λ p. Some (decimal (part_number p)) };

    fn fmt<W: fmt::Write>(&self, f: &mut fmt::Formatter<W>) -> fmt::Result {
        let part = self.number();
        write!(f, "{part}")
    }
}

// The cause's number and then its values, with single spaces between.
impl fmt::Display for Refusal {
    ghost output = { λ r. Some (spaced (numbers_of r)) };

    fn fmt<W: fmt::Write>(&self, f: &mut fmt::Formatter<W>) -> fmt::Result {
        let number = self.number();
        match *self {
            Refusal::BadFile
            | Refusal::NoLookup
            | Refusal::NothingOpen
            | Refusal::AlreadyExtended => write!(f, "{number}"),
            Refusal::FileTooLarge(shortage) | Refusal::NoRoom(shortage) => {
                write!(f, "{number} {shortage}")
            }
            Refusal::BadLink { record: value }
            | Refusal::LookupOpen { lookup: value }
            | Refusal::NoSubtable { count: value }
            | Refusal::BadReach { reach: value } => write!(f, "{number} {value}"),
            Refusal::BrokenLookup { place } => write!(f, "{number} {place}"),
            Refusal::BrokenPart {
                subtable,
                part,
                place,
            } => write!(f, "{number} {subtable} {part} {place}"),
            Refusal::SharedPart { subtable, part } => write!(f, "{number} {subtable} {part}"),
            Refusal::ClassTooLarge { subtable, class } => write!(f, "{number} {subtable} {class}"),
        }
    }
}
