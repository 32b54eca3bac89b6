// Format 2: the maximal runs of neighbours.
ghost use Rattle.std.specs.Prelude.{◌≡◌, ◌+◌, ◌*◌, ◌≤◌, true, ◌==◌, [], ◌∷◌, ◌++◌, length, take, drop};
ghost use Rattle.coverage_writers.specs.Writing.{listed};
ghost use Rattle.coverage_writers.specs.Formats.{bytes_of, runs, format2};

use crate::writer::put_word;
use layout::RangeRecord;

/// Always format 2. It serves `CoverageTable`, and is no writer by itself: it can be longer than format 1.
#[derive(Clone, Copy)]
pub struct CoverageFormat2;

/// Whether glyph `b` comes right after glyph `a`.
fn follows(a: &u16, b: &u16) -> bool
    ensures { result ≡ (b.now == a.now + 1) }
{
    u32::from(*b) == u32::from(*a) + 1
}

/// Writes a range at a place.
fn put_range(out: &mut [u8], at: usize, range: RangeRecord)
    requires { at + 6 ≤ length out.old }
    ensures { out.new ≡ take at out.old ++ (bytes_of (range.start ∷ range.end ∷ range.index ∷ []) ++ drop (at + 6) out.old) }
{
    put_word(out, at, range.start);
    put_word(out, at + 2, range.end);
    put_word(out, at + 4, range.index);
}

impl CoverageFormat2 {
    /// How many ranges the glyphs have.
    pub fn count_ranges(glyphs: &[u16]) -> usize
        ensures value { result ≡ length (runs glyphs.now) }
        ensures bound { result ≤ length glyphs.now }
    {
        let [first, rest @ ..] = glyphs else {
            return 0;
        };
        let mut end = first;
        let mut count = 1;
        // Added without a branch: runs end irregularly, and `chunk_by` or a filter would branch at each end.
        for glyph in rest {
            count += usize::from(!follows(end, glyph));
            end = glyph;
        }
        count
    }

    /// Writes format 2, of which `count` is the number of ranges.
    pub fn put_ranges(glyphs: &[u16], count: u16, out: &mut [u8])
        requires listed { listed glyphs.now ≡ true }
        requires count { count ≡ length (runs glyphs.now) }
        requires room { 4 + 6 * count ≤ length out.old }
        ensures { out.new ≡ format2 glyphs.now ++ drop (4 + 6 * count) out.old }
    {
        put_word(out, 0, 2);
        put_word(out, 2, count);
        let mut index = 0;
        for (k, run) in glyphs.chunk_by(follows).enumerate() {
            let (start, end) = (run[0], run[run.len() - 1]);
            put_range(out, 4 + 6 * k, RangeRecord { start, end, index });
            index += end - start + 1;
        }
    }
}
