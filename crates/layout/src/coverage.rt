// A Coverage table that was read, borrowed: its glyphs by index, and the index of a glyph.
ghost use Rattle.std.specs.Prelude.{◌≡◌, ℕ, ◌+◌, ◌-◌, ◌*◌, ◌<◌, ◌≤◌, List, length, Ok, Err, MatchOption, MatchResult};
ghost use Rattle.layout.specs.Format.{read_coverage};
ghost use Rattle.layout.specs.Lookup.{covered, Sound, index_in, glyph_at};
ghost use Rattle.layout.specs.Records.{range_count, last_index};
ghost use Rattle.layout.specs.Searches.{RangeIs, HoldsGlyph, HoldsIndex, Tabled};

use crate::coverage::glyphs::Glyphs;
use crate::located::CoverageFault;
use crate::reader::{RangeRecord, check};

pub mod glyphs;

/// The records of a table by its format, each as its bytes.
#[derive(Clone, Copy)]
enum Records<'a> {
    Glyphs(&'a [[u8; 2]]),
    Ranges(&'a [[u8; 6]]),
}

/// A whole Coverage table.
#[derive(Clone, Copy)]
pub struct Coverage<'a> {
    bytes: &'a [u8],
    pub ghost sound: { Sound bytes.now },
}

impl Records<'_> {
    /// How many there are.
    fn len(&self) -> usize
        ensures { (bs : List ℕ) → Tabled bs self.now → result ≡ range_count bs }
    {
        match self {
            Records::Glyphs(all) => all.len(),
            Records::Ranges(all) => all.len(),
        }
    }
}

impl<'a> Coverage<'a> {
    /// Takes the bytes for a table, or says where they are broken.
    pub fn read(bytes: &'a [u8]) -> Result<Coverage<'a>, CoverageFault>
        ensures { MatchResult result
            (λ v. (v.bytes.now ≡ bytes.now) × (read_coverage bytes.now ≡ Ok (covered bytes.now)))
            (λ f. read_coverage bytes.now ≡ Err f.place) }
    {
        check(bytes)?;
        Ok(Coverage { bytes })
    }

    /// Takes bytes that are known to be a table, without going through them.
    pub fn from_sound(bytes: &'a [u8]) -> Coverage<'a>
        requires { Sound bytes.now }
        ensures { result.bytes.now ≡ bytes.now }
    {
        Coverage { bytes }
    }

    /// The records, found without going through them.
    fn records(&self) -> Records<'a>
        ensures { Tabled self.now.bytes.now result }
    {
        let rest = &self.bytes[4..];
        // The format is a number here, as in the reader: `Records` is the enum that is made of it.
        if u16::from_be_bytes([self.bytes[0], self.bytes[1]]) == 1 {
            Records::Glyphs(rest.as_chunks::<2>().0)
        } else {
            Records::Ranges(rest.as_chunks::<6>().0)
        }
    }

    /// The range number `k` of the records; in format 1 each glyph is a range of its own.
    fn range_of(&self, records: Records<'a>, k: usize) -> Option<RangeRecord>
        requires { Tabled self.now.bytes.now records }
        ensures { MatchOption result
            (range_count self.now.bytes.now ≤ k)
            (λ r. (k < range_count self.now.bytes.now) × RangeIs self.now.bytes.now k r.start r.end r.index) }
    {
        match records {
            Records::Glyphs(glyphs) => {
                let start = u16::from_be_bytes(*glyphs.get(k)?);
                let (end, index) = (start, k as u16);
                Some(RangeRecord { start, end, index })
            }
            Records::Ranges(ranges) => Some(RangeRecord::from(*ranges.get(k)?)),
        }
    }

    /// The range number `k`.
    fn range(&self, k: usize) -> Option<RangeRecord>
        ensures { MatchOption result
            (range_count self.now.bytes.now ≤ k)
            (λ r. (k < range_count self.now.bytes.now) × RangeIs self.now.bytes.now k r.start r.end r.index) }
    {
        self.range_of(self.records(), k)
    }

    /// The range that holds a glyph, by halving. The search ends where it comes upon it, which `partition_point` would not.
    fn find_glyph(&self, glyph: u16) -> Option<RangeRecord>
        ensures { MatchOption result
            ((k : ℕ) → k < range_count self.now.bytes.now → HoldsGlyph self.now.bytes.now k glyph → ⊥)
            (λ r. ((k : ℕ) × (k < range_count self.now.bytes.now) × RangeIs self.now.bytes.now k r.start r.end r.index × HoldsGlyph self.now.bytes.now k glyph)) }
    {
        let records = self.records();
        let mut low = 0;
        let mut high = records.len();
        while low < high {
            let middle = low + (high - low) / 2;
            let range = self.range_of(records, middle)?;
            if range.end < glyph {
                low = middle + 1;
            } else if glyph < range.start {
                high = middle;
            } else {
                return Some(range);
            }
        }
        None
    }

    /// The range that holds an index, in the same way; in format 1 the index is the range's number.
    fn find_index(&self, index: usize) -> Option<RangeRecord>
        ensures { MatchOption result
            ((k : ℕ) → k < range_count self.now.bytes.now → HoldsIndex self.now.bytes.now k index → ⊥)
            (λ r. ((k : ℕ) × (k < range_count self.now.bytes.now) × RangeIs self.now.bytes.now k r.start r.end r.index × HoldsIndex self.now.bytes.now k index)) }
    {
        let records = self.records();
        if let Records::Glyphs(_) = records {
            return self.range_of(records, index);
        }
        let mut low = 0;
        let mut high = records.len();
        while low < high {
            let middle = low + (high - low) / 2;
            let range = self.range_of(records, middle)?;
            if range.last_index() < index {
                low = middle + 1;
            } else if index < usize::from(range.index) {
                high = middle;
            } else {
                return Some(range);
            }
        }
        None
    }

    /// How many glyphs the table covers: up to 65,536.
    #[tactic(auto, using(crate::proofs::Tables::count_listed))]
    pub fn count(&self) -> usize
        ensures { result ≡ length (covered self.now.bytes.now) }
    {
        match self.records() {
            Records::Glyphs(glyphs) => glyphs.len(),
            Records::Ranges([]) => 0,
            Records::Ranges([.., last]) => RangeRecord::from(*last).last_index() + 1,
        }
    }

    /// The glyph at an index.
    pub fn glyph(&self, index: usize) -> Option<u16>
        ensures { result ≡ glyph_at (covered self.now.bytes.now) index }
    {
        let range = self.find_index(index)?;
        Some(range.start + (index - usize::from(range.index)) as u16)
    }

    /// The index of a glyph.
    pub fn index_of(&self, glyph: u16) -> Option<u16>
        ensures { result ≡ index_in glyph 0 (covered self.now.bytes.now) }
    {
        let range = self.find_glyph(glyph)?;
        Some(range.index + (glyph - range.start))
    }

    /// The glyphs in order, each with its index.
    #[tactic(auto, using(crate::proofs::Tables::stands_first))]
    pub fn glyphs(&self) -> Glyphs<'a>
        ensures bytes { result.coverage.bytes.now ≡ self.now.bytes.now }
        ensures first { result.index ≡ 0 }
    {
        Glyphs {
            coverage: *self,
            range: 0,
            index: 0,
        }
    }
}
