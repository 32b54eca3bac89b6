// What both writers share: a table for each list that has one, and no other.
ghost use Rattle.std.specs.Prelude.{◌≡◌, ℕ, ◌≤◌, true, List, ◌++◌, length, drop};
ghost use Rattle.coverage_writers.specs.Writing.{listed, length_of, accepts, written};
ghost use Rattle.coverage_writers.specs.Formats.{meaning_by};

use crate::writer::is_listed;

/// The tables of the lists that have one. Each method asks that of its list: a type for such lists would be made at each call, and for that call alone.
// No impl of `CoverageWriter` for every format, since other crates write impls of their own; glyphs and buffer are two parameters, as there.
pub trait Format {
    // The bytes for a list.
    ghost bytes: { List ℕ → List ℕ };

    /// How many bytes there are.
    fn table_length(glyphs: &[u16]) -> usize
        requires { listed glyphs.now ≡ true }
        ensures { result ≡ length (bytes glyphs.now) };

    /// Writes them to the front of `out`, and leaves the rest of it.
    fn put_table(glyphs: &[u16], out: &mut [u8])
        requires listed { listed glyphs.now ≡ true }
        requires room { length (bytes glyphs.now) ≤ length out.old }
        ensures { out.new ≡ bytes glyphs.now ++ drop (length (bytes glyphs.now)) out.old };
}

/// The length of the table of a list, or 0 for a list that has none.
pub fn length_by<F: Format>(glyphs: &[u16]) -> usize
    ensures { result ≡ length_of (meaning_by F.bytes glyphs.now) }
{
    if is_listed(glyphs) {
        F::table_length(glyphs)
    } else {
        0
    }
}

/// Writes the table of a list that has one, if `out` is long enough.
pub fn write_by<F: Format>(glyphs: &[u16], out: &mut [u8]) -> bool
    ensures accepted { result ≡ accepts (meaning_by F.bytes glyphs.now) out.old }
    ensures bytes { out.new ≡ written (meaning_by F.bytes glyphs.now) out.old }
{
    if !is_listed(glyphs) {
        return false;
    }
    if out.len() < F::table_length(glyphs) {
        return false;
    }
    F::put_table(glyphs, out);
    true
}
