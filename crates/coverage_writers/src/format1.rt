// Format 1: a list of glyphs.
ghost use Rattle.coverage_writers.specs.Formats.{format1, meaning1};
ghost use Rattle.coverage_writers.specs.WriterLaws.{format1_means, lawful_by};

use crate::format::{Format, length_by, write_by};
use crate::writer::{CoverageWriter, put_word};

/// Always format 1.
#[derive(Clone, Copy)]
pub struct CoverageFormat1;

impl Format for CoverageFormat1 {
    ghost bytes = { format1 };

    fn table_length(glyphs: &[u16]) -> usize {
        4 + 2 * glyphs.len()
    }

    fn put_table(glyphs: &[u16], out: &mut [u8]) {
        put_word(out, 0, 1);
        put_word(out, 2, glyphs.len() as u16);
        for (i, glyph) in glyphs.iter().enumerate() {
            put_word(out, 4 + 2 * i, *glyph);
        }
    }
}

impl CoverageWriter for CoverageFormat1 {
    ghost meaning = { λ _ gs. meaning1 gs };

    ghost lawful = { λ w. lawful_by format1 format1_means };

    fn length(&self, glyphs: &[u16]) -> usize {
        length_by::<CoverageFormat1>(glyphs)
    }

    fn write(&self, glyphs: &[u16], out: &mut [u8]) -> bool {
        write_by::<CoverageFormat1>(glyphs, out)
    }
}
