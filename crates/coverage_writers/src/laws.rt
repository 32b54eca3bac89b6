// What is written is read back.
ghost use Rattle.std.specs.Prelude.{◌≡◌, false, length, take, Ok, MatchResult};
ghost use Rattle.layout.specs.Format.{read_coverage};
ghost use Rattle.coverage_writers.specs.Writing.{length_of, accepts, written};
ghost use Rattle.coverage_writers.specs.Laws.{ReadsBack, ReadsAscending, MaximalRuns, WorkedRows};
ghost use Rattle.coverage_writers.specs.declared.laws.Unread.TheVariants.{Declined, Broken};

use crate::writer::CoverageWriter;
use layout::{Coverage, CoverageFault};

/// Why glyphs did not come back: the writer declined, or the table that it wrote is broken.
#[derive(Clone, Copy, Debug, PartialEq, Eq)]
pub enum Unread {
    Declined,
    Broken(CoverageFault),
}

impl From<CoverageFault> for Unread {
    ghost from_gives = { λ f u. u ≡ Broken f };

    fn from(fault: CoverageFault) -> Unread {
        Unread::Broken(fault)
    }
}

/// Writes the glyphs to the front of `out`, reads the table that stands there, and says how many glyphs it covers.
/// They are the same glyphs wherever the writer does not decline, and no table that it writes is broken.
pub fn write_then_read<W: CoverageWriter>(
    writer: &W,
    glyphs: &[u16],
    out: &mut [u8],
) -> Result<usize, Unread>
    ensures read { MatchResult result
        (λ n. (n ≡ length glyphs.now) × (read_coverage (take (length_of (W.CoverageWriter.meaning writer.now glyphs.now)) out.new) ≡ Ok glyphs.now))
        (λ u. elim u [ Declined ↦ accepts (W.CoverageWriter.meaning writer.now glyphs.now) out.old ≡ false | Broken f ↦ ⊥ ]) }
    ensures bytes { out.new ≡ written (W.CoverageWriter.meaning writer.now glyphs.now) out.old }
{
    let length = writer.length(glyphs);
    if !writer.write(glyphs, out) {
        return Err(Unread::Declined);
    }
    let table = Coverage::read(&out[0..length])?;
    Ok(table.count())
}

/// The laws of the writers.
pub fn coverage_laws()
    ensures back { ReadsBack }
    ensures ascending { ReadsAscending }
    ensures maximal { MaximalRuns }
    ensures rows { WorkedRows }
{}
