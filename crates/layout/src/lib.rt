// OpenType Coverage tables: what their bytes say, and a borrowed view of a table.
#![tactic(auto)]

mod coverage;
mod located;
mod reader;

pub use coverage::Coverage;
pub use coverage::glyphs::Glyphs;
pub use located::{CoverageFault, Located};
pub use reader::RangeRecord;
