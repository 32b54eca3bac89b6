// Object files: the vertices' bytes in number order, each vertex's length, the link records, and a trailer of 20 bytes.
ghost use Rattle.std.specs.Prelude.{◌≡◌, ℕ, ◌+◌, ◌-◌, ◌*◌, ◌<◌, ◌≤◌, length, Some, None, IfSome, MatchResult, option_map};
ghost use Rattle.serialize.specs.Objects.{zeros};
ghost use Rattle.serialize.specs.ObjectFile.{u32_at, numbers_of, trailer_of, gapless, length_at, start_at, record_at, sound_alone, follows, every, first_broken, link_from};
ghost use Rattle.serialize.specs.Scanning.{KeptBelow, StandsAt, ScannedTo, Checked};

use crate::link::{Link, LinkWidth};

// How long the trailer is.
pub const TRAILER_LEN: usize = 20;

// The trailer's first four bytes, `MKOB`.
pub const TAG: u32 = 0x4D4B4F42;

// The trailer's numbers: the places of the lengths and of the link records, and how many of each there are.
#[derive(Clone, Copy)]
pub struct Trailer {
    pub lengths: u32,
    pub records: u32,
    pub vertices: u32,
    pub links: u32,
}

// A link as the file has it: the field of `width` bytes at `position` in `parent`, which points at `child`.
// The width is a number here, since a file can hold any: `ObjectFile::check_links` tells whether a field can have so many bytes.
#[derive(Clone, Copy)]
pub struct LinkRecord {
    pub parent: u32,
    pub position: u32,
    pub child: u32,
    pub width: u32,
}

// An object file: its bytes, and the trailer that stands at their end.
#[derive(Clone, Copy)]
pub struct ObjectFile<'a> {
    pub bytes: &'a [u8],
    pub trailer: Trailer,
    pub ghost read: { trailer_of bytes.now ≡ Some trailer },
}

// An object file whose link records keep every rule.
#[derive(Clone, Copy)]
pub struct SoundFile<'a> {
    pub file: ObjectFile<'a>,
    pub ghost sound: { first_broken file.bytes.now file.trailer ≡ None },
}

// The first link record that breaks a rule, alone or with those before it.
#[derive(Clone, Copy, PartialEq, Eq, Debug)]
pub struct BrokenLink {
    pub record: u32,
}

// How far a scan of the records has come: to records of `vertex`, whose bytes begin at `start`.
#[derive(Clone, Copy)]
pub(crate) struct Scan {
    vertex: u32,
    start: usize,
}

// The number at a place.
fn u32_at(file: &[u8], at: usize) -> u32
    requires { at + 4 ≤ length file.now }
    ensures { result ≡ u32_at file.now at }
{
    u32::from_be_bytes([file[at], file[at + 1], file[at + 2], file[at + 3]])
}

// Whether all bytes are zero.
fn is_zero(bytes: &[u8]) -> bool
    ensures { result ≡ zeros bytes.now }
{
    bytes.iter().all(|b| *b == 0)
}

impl LinkRecord {
    // Whether this record may stand behind `earlier`: by parent, then by position, and their fields do not overlap.
    fn follows(self, earlier: LinkRecord) -> bool
        ensures { result ≡ follows earlier self }
    {
        if earlier.parent == self.parent {
            earlier.position as usize + earlier.width as usize <= self.position as usize
        } else {
            earlier.parent < self.parent
        }
    }

    // The link that the record stands for.
    // No `From`, which would say that every record has one: where no field has the width, two is taken.
    pub fn link(self) -> Link
        ensures { result ≡ link_from self }
    {
        Link {
            position: self.position,
            child: self.child,
            width: LinkWidth::try_from(self.width as usize).unwrap_or(LinkWidth::Two),
        }
    }
}

impl Scan {
    // Before the first vertex.
    const START: Scan = Scan {
        vertex: 0,
        start: 0,
    };
}

impl Trailer {
    fn numbers(file: &[u8], at: usize) -> Trailer
        requires { at + 20 ≡ length file.now }
        ensures { result ≡ numbers_of file.now }
    {
        Trailer {
            lengths: u32_at(file, at + 4),
            records: u32_at(file, at + 8),
            vertices: u32_at(file, at + 12),
            links: u32_at(file, at + 16),
        }
    }

    fn is_gapless(self, len: usize) -> bool
        ensures { result ≡ gapless len self }
    {
        self.lengths as usize + 4 * self.vertices as usize == self.records as usize
            && self.records as usize + 16 * self.links as usize + TRAILER_LEN == len
    }

    // These three take trailer and bytes apart: `ObjectFile::read` scans before there is an `ObjectFile`, and they ask less than its methods.
    // The length of a vertex.
    pub fn length(self, file: &[u8], v: u32) -> u32
        requires { self.lengths + 4 * v + 4 ≤ length file.now }
        ensures { result ≡ length_at file.now self v }
    {
        u32_at(file, self.lengths as usize + 4 * v as usize)
    }

    // A link record.
    pub fn record(self, file: &[u8], i: u32) -> LinkRecord
        requires { self.records + 16 * i + 16 ≤ length file.now }
        ensures { result ≡ record_at file.now self i }
    {
        let at = self.records as usize + 16 * i as usize;
        LinkRecord {
            parent: u32_at(file, at),
            position: u32_at(file, at + 4),
            child: u32_at(file, at + 8),
            width: u32_at(file, at + 12),
        }
    }

    // The scan moved on to `vertex`.
    fn advance(self, file: &[u8], scan: Scan, vertex: u32) -> Scan
        requires within { self.lengths + 4 * self.vertices ≤ length file.now }
        requires up { (scan.vertex ≤ vertex) × (vertex ≤ self.vertices) }
        requires stands { StandsAt file.now self scan }
        ensures vertex { result.vertex ≡ vertex }
        ensures stands { StandsAt file.now self result }
    {
        let mut start = scan.start;
        // A running sum: on the way it is each vertex's place, and this bounds each addition.
        for v in scan.vertex..vertex {
            start += self.length(file, v) as usize;
        }
        Scan { vertex, start }
    }
}

impl<'a> ObjectFile<'a> {
    // Bytes as an object file, whose parts have no gaps and whose lengths add up.
    #[tactic(auto, using(crate::proofs::Files::start_all), unfolding(crate::specs::ObjectFile::trailer_of))]
    pub fn read(bytes: &'a [u8]) -> Option<ObjectFile<'a>>
        ensures trailer { option_map (λ file. file.trailer) result ≡ trailer_of bytes.entry.now }
        ensures same { IfSome result (λ file. file.bytes ≡ bytes.entry) }
    {
        if bytes.len() < TRAILER_LEN {
            return None;
        }
        let at = bytes.len() - TRAILER_LEN;
        if u32_at(bytes, at) != TAG {
            return None;
        }
        let trailer = Trailer::numbers(bytes, at);
        if !trailer.is_gapless(bytes.len()) {
            return None;
        }
        let end = trailer.advance(bytes, Scan::START, trailer.vertices);
        if end.start != trailer.lengths as usize {
            return None;
        }
        Some(ObjectFile { bytes, trailer })
    }

    // The length of a vertex.
    pub fn length(self, v: u32) -> u32
        requires { v < self.trailer.vertices }
        ensures { result ≡ length_at self.entry.bytes.now self.entry.trailer v }
    {
        self.trailer.length(self.bytes, v)
    }

    // A link record, by its number: each call asks that it is in range, as an index of a slice is.
    pub fn record(self, i: u32) -> LinkRecord
        requires { i < self.trailer.links }
        ensures { result ≡ record_at self.entry.bytes.now self.entry.trailer i }
    {
        self.trailer.record(self.bytes, i)
    }

    // Whether record `i` follows all records before it, which keep every rule: it is enough to ask the last of them.
    fn is_in_order(self, i: u32, link: LinkRecord) -> bool
        requires within { i < self.trailer.links }
        requires link { link ≡ record_at self.bytes.now self.trailer i }
        requires before { KeptBelow self.bytes.now self.trailer i }
        ensures { result ≡ every i (λ j. follows (record_at self.entry.bytes.now self.entry.trailer j) link) }
    {
        i == 0 || link.follows(self.record(i - 1))
    }

    // Whether a record keeps the rules that it can break alone; the bytes of its parent begin at `start`.
    #[tactic(auto, using(crate::proofs::Files::lies_in))]
    fn is_sound(self, link: LinkRecord, start: usize) -> bool
        requires parent { link.parent < self.trailer.vertices }
        requires start { start ≡ start_at self.bytes.now self.trailer link.parent }
        ensures { result ≡ sound_alone self.entry.bytes.now self.entry.trailer link }
    {
        let width = link.width as usize;
        let position = link.position as usize;
        if link.child >= self.trailer.vertices || LinkWidth::try_from(width).is_err() {
            return false;
        }
        if position + width > self.length(link.parent) as usize {
            return false;
        }
        is_zero(&self.bytes[start + position..start + position + width])
    }

    // Whether record `i` keeps every rule; if so, where the scan then stands.
    fn check(self, i: u32, scan: Scan) -> Option<Scan>
        requires within { i < self.trailer.links }
        requires before { KeptBelow self.bytes.now self.trailer i }
        requires scan { ScannedTo self.bytes.now self.trailer i scan }
        ensures { Checked self.entry.bytes.now self.entry.trailer i result }
    {
        let link = self.record(i);
        if !self.is_in_order(i, link) || link.parent >= self.trailer.vertices {
            return None;
        }
        let next = self.trailer.advance(self.bytes, scan, link.parent);
        if !self.is_sound(link, next.start) {
            return None;
        }
        Some(next)
    }

    // The first record that breaks a rule, alone or with those before it.
    pub fn first_broken(self) -> Option<u32>
        ensures { result ≡ first_broken self.entry.bytes.now self.entry.trailer }
    {
        let mut scan = Scan::START;
        // By number: a record is read out of the file's bytes, and no slice holds the records.
        for i in 0..self.trailer.links {
            let Some(next) = self.check(i, scan) else {
                return Some(i);
            };
            scan = next;
        }
        None
    }

    // The file, as one whose records keep every rule.
    pub fn check_links(self) -> Result<SoundFile<'a>, BrokenLink>
        ensures { MatchResult result (λ sound. sound.file ≡ self.entry) (λ broken. first_broken self.entry.bytes.now self.entry.trailer ≡ Some broken.record) }
    {
        // A match, since the broken record is the error and none is the value.
        match self.first_broken() {
            Some(record) => Err(BrokenLink { record }),
            None => Ok(SoundFile { file: self }),
        }
    }
}
