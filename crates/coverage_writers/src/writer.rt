// What a writer of Coverage tables is, and what both writers share.
ghost use Rattle.std.specs.Prelude.{◌≡◌, ℕ, ◌+◌, ◌≤◌, List, ◌++◌, length, take, drop, Option};
ghost use Rattle.coverage_writers.specs.Writing.{listed, Lawful, length_of, accepts, written};
ghost use Rattle.coverage_writers.specs.Formats.{word_bytes};

/// Writes lists of glyphs as Coverage tables.
pub trait CoverageWriter {
    // The bytes for a list of glyphs, or none.
    // The interface of writers is fixed: glyphs and buffer are two parameters, and a list without bytes is told by 0 and by `false`.
    ghost meaning: { Self → List ℕ → Option (List ℕ) };

    /// How many bytes `write` writes; 0 for a list that it declines.
    fn length(&self, glyphs: &[u16]) -> usize
        ensures { result ≡ length_of (meaning self.now glyphs.now) };

    /// Writes the table to the front of `out`, and leaves the rest of it.
    /// Declines a list that has no table, and a buffer that is too short, and then leaves all of `out`.
    fn write(&self, glyphs: &[u16], out: &mut [u8]) -> bool
        ensures accepted { result ≡ accepts (meaning self.now glyphs.now) out.old }
        ensures bytes { out.new ≡ written (meaning self.now glyphs.now) out.old };

    ghost lawful: { (w : Self) → Lawful (meaning w) };
}

/// Whether the glyphs ascend strictly, and are at most 65,535.
pub fn is_listed(glyphs: &[u16]) -> bool
    ensures { result ≡ listed glyphs.now }
{
    glyphs.is_sorted_by(|a, b| a < b) && glyphs.len() < 65536
}

/// Writes a word at a place.
pub fn put_word(out: &mut [u8], at: usize, word: u16)
    requires { at + 2 ≤ length out.old }
    ensures { out.new ≡ take at out.old ++ (word_bytes word ++ drop (at + 2) out.old) }
{
    out[at..at + 2].copy_from_slice(&word.to_be_bytes());
}
