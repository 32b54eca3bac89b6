// Format 1 or 2, by the number of ranges.
ghost use Rattle.coverage_writers.specs.Formats.{table_of, table_meaning};
ghost use Rattle.coverage_writers.specs.WriterLaws.{table_means, lawful_by};

use crate::format::{Format, length_by, write_by};
use crate::format1::CoverageFormat1;
use crate::format2::CoverageFormat2;
use crate::writer::CoverageWriter;

/// Format 1 if the glyphs are at most three times the ranges, and else format 2.
#[derive(Clone, Copy)]
pub struct CoverageTable;

impl Format for CoverageTable {
    ghost bytes = { table_of };

    fn table_length(glyphs: &[u16]) -> usize {
        let ranges = CoverageFormat2::count_ranges(glyphs);
        if glyphs.len() <= 3 * ranges {
            CoverageFormat1::table_length(glyphs)
        } else {
            4 + 6 * ranges
        }
    }

    fn put_table(glyphs: &[u16], out: &mut [u8]) {
        let ranges = CoverageFormat2::count_ranges(glyphs);
        if 3 * ranges < glyphs.len() {
            CoverageFormat2::put_ranges(glyphs, ranges as u16, out);
        } else {
            CoverageFormat1::put_table(glyphs, out);
        }
    }
}

impl CoverageWriter for CoverageTable {
    ghost meaning = { λ _ gs. table_meaning gs };

    ghost lawful = { λ w. lawful_by table_of table_means };

    fn length(&self, glyphs: &[u16]) -> usize {
        length_by::<CoverageTable>(glyphs)
    }

    fn write(&self, glyphs: &[u16], out: &mut [u8]) -> bool {
        write_by::<CoverageTable>(glyphs, out)
    }
}
