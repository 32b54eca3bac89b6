// Whether bytes are a Coverage table, and if not, the place of the first broken field.
ghost use Rattle.std.specs.Prelude.{◌≡◌, ℕ, suc, ◌+◌, ◌-◌, ◌^◌, ◌<◌, ◌≤◌, length, drop, Some, None, IfOk, MatchResult};
ghost use Rattle.layout.specs.Format.{read_coverage, end, glyphs, ranges};
ghost use Rattle.layout.specs.Records.{fault_of, word_at, front, RangeAt};

use crate::located::{CoverageFault, Located};

/// A range of format 2.
#[derive(Clone, Copy)]
pub struct RangeRecord {
    pub start: u16,
    pub end: u16,
    pub index: u16,
}

impl From<[u8; 6]> for RangeRecord {
    ghost from_gives = { λ b r. (r.start ≡ word_at b 0) × (r.end ≡ word_at b 2) × (r.index ≡ word_at b 4) };

    fn from([s0, s1, e0, e1, i0, i1]: [u8; 6]) -> RangeRecord {
        let start = u16::from_be_bytes([s0, s1]);
        let end = u16::from_be_bytes([e0, e1]);
        let index = u16::from_be_bytes([i0, i1]);
        RangeRecord { start, end, index }
    }
}

impl RangeRecord {
    /// The index of the last glyph. Any bytes may be asked for it, so the difference saturates.
    pub(crate) fn last_index(&self) -> usize
        ensures { result ≡ self.now.index + (self.now.end - self.now.start) }
    {
        usize::from(self.index) + usize::from(self.end.saturating_sub(self.start))
    }
}

/// The bytes that are still to be read, and the place of the first of them.
#[derive(Drop)]
struct Reader<'a> {
    rest: &'a [u8],
    place: usize,
    ghost fits: { place + length rest.now < 2 ^ 64 },
}

impl<'a> Reader<'a> {
    /// The next word.
    fn word(&mut self) -> Result<Located<u16>, CoverageFault>
        ensures found { MatchResult result
            (λ w. (2 ≤ length self.old.rest.now) × (w.value ≡ front self.old.rest.now) × (w.place ≡ self.old.place))
            (λ f. (length self.old.rest.now < 2) × (f.place ≡ self.old.place)) }
        ensures behind { IfOk result (λ _. (self.new.rest.now ≡ drop 2 self.old.rest.now) × (self.new.place ≡ self.old.place + 2)) }
    {
        let place = self.place;
        let [hi, lo, rest @ ..] = self.rest else {
            return Err(CoverageFault { place });
        };
        let value = u16::from_be_bytes([*hi, *lo]);
        *self = Reader {
            rest,
            place: place + 2,
        };
        Ok(Located { value, place })
    }

    /// The next range, which starts at `low` at the earliest and has `seen` glyphs before it.
    fn range(&mut self, low: u32, seen: u32) -> Result<Located<RangeRecord>, CoverageFault>
        ensures found { MatchResult result
            (λ l. RangeAt self.old.rest.now low seen l.value.start l.value.end × (l.value.index ≡ seen) × (l.place ≡ self.old.place))
            (λ f. ((n : ℕ) → fault_of (ranges (suc n) low seen self.old.place self.old.rest.now) ≡ Some f.place)) }
        ensures behind { IfOk result (λ _. (self.new.rest.now ≡ drop 6 self.old.rest.now) × (self.new.place ≡ self.old.place + 6)) }
    {
        let start = self.word()?;
        if u32::from(start.value) < low {
            return Err(CoverageFault { place: start.place });
        }
        let end = self.word()?;
        if end.value < start.value {
            return Err(CoverageFault { place: end.place });
        }
        let index = self.word()?;
        if u32::from(index.value) != seen {
            return Err(CoverageFault { place: index.place });
        }
        Ok(Located {
            value: RangeRecord {
                start: start.value,
                end: end.value,
                index: index.value,
            },
            place: start.place,
        })
    }

    /// No byte may follow.
    fn end(&self) -> Result<(), CoverageFault>
        ensures { MatchResult result
            (λ _. fault_of (end self.now.place self.now.rest.now) ≡ None)
            (λ f. fault_of (end self.now.place self.now.rest.now) ≡ Some f.place) }
    {
        if self.rest.is_empty() {
            Ok(())
        } else {
            Err(CoverageFault { place: self.place })
        }
    }

    /// Format 1: `count` glyphs, and nothing else.
    fn glyphs(&mut self, count: u16) -> Result<(), CoverageFault>
        ensures { MatchResult result
            (λ _. fault_of (glyphs count 0 self.old.place self.old.rest.now) ≡ None)
            (λ f. fault_of (glyphs count 0 self.old.place self.old.rest.now) ≡ Some f.place) }
    {
        let mut low = 0;
        for _ in 0..count {
            let glyph = self.word()?;
            if u32::from(glyph.value) < low {
                return Err(CoverageFault { place: glyph.place });
            }
            low = u32::from(glyph.value) + 1;
        }
        self.end()
    }

    /// Format 2: `count` ranges, and nothing else.
    fn ranges(&mut self, count: u16) -> Result<(), CoverageFault>
        ensures { MatchResult result
            (λ _. fault_of (ranges count 0 0 self.old.place self.old.rest.now) ≡ None)
            (λ f. fault_of (ranges count 0 0 self.old.place self.old.rest.now) ≡ Some f.place) }
    {
        let mut low = 0;
        let mut seen = 0;
        for _ in 0..count {
            let range = self.range(low, seen)?;
            low = u32::from(range.value.end) + 1;
            seen += low - u32::from(range.value.start);
        }
        self.end()
    }
}

/// Checks a whole table.
pub fn check(bytes: &[u8]) -> Result<(), CoverageFault>
    ensures { MatchResult result
        (λ _. fault_of (read_coverage bytes.now) ≡ None)
        (λ f. fault_of (read_coverage bytes.now) ≡ Some f.place) }
{
    let [f0, f1, body @ ..] = bytes else {
        return Err(CoverageFault { place: 0 });
    };
    // The format stays a number here and in `Coverage::records`, which asks it once.
    let format = u16::from_be_bytes([*f0, *f1]);
    if format != 1 && format != 2 {
        return Err(CoverageFault { place: 0 });
    }
    let [c0, c1, rest @ ..] = body else {
        return Err(CoverageFault { place: 2 });
    };
    let count = u16::from_be_bytes([*c0, *c1]);
    let mut reader = Reader { rest, place: 4 };
    if format == 1 {
        reader.glyphs(count)
    } else {
        reader.ranges(count)
    }
}
