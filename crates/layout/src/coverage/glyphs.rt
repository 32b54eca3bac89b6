// The glyphs of a Coverage table one after the other.
ghost use Rattle.std.specs.Prelude.{◌≡◌, ◌+◌, ◌-◌, length, Some, None, MatchOption};
ghost use Rattle.layout.specs.Lookup.{covered, glyph_at};
ghost use Rattle.layout.specs.Walks.{Stands};
ghost use Rattle.std.specs.Iterator.{at_most};

use super::Coverage;

/// Where a walk through the glyphs stands: the range and the index of the next one.
#[derive(Clone, Copy)]
pub struct Glyphs<'a> {
    pub(super) coverage: Coverage<'a>,
    pub(super) range: usize,
    pub(super) index: usize,
    pub ghost stands: { Stands coverage.bytes.now range index },
}

impl<'a> Iterator for Glyphs<'a> {
    type Item = (usize, u16);

    // At the end nothing comes; before it the next glyph comes, with its index.
    ghost next_gives = { λ s r t. (t.coverage.bytes.now ≡ s.coverage.bytes.now) × MatchOption r
        ((s.index ≡ length (covered s.coverage.bytes.now)) × (t.index ≡ s.index))
        (λ x. (x.0 ≡ s.index) × (glyph_at (covered s.coverage.bytes.now) s.index ≡ Some x.1) × (t.index ≡ s.index + 1)) };

    ghost remaining = { λ s. at_most (length (covered s.coverage.bytes.now) - s.index) };

    fn next(&mut self) -> Option<(usize, u16)> {
        let range = self.coverage.range(self.range)?;
        let index = self.index;
        let glyph = range.start + (index - usize::from(range.index)) as u16;
        if glyph == range.end {
            self.range += 1;
        }
        self.index += 1;
        Some((index, glyph))
    }
}
