// Writers of OpenType Coverage tables.
#![tactic(auto)]

mod format;
mod format1;
mod format2;
mod laws;
mod table;
mod writer;

pub use format1::CoverageFormat1;
pub use laws::{Unread, coverage_laws, write_then_read};
pub use table::CoverageTable;
pub use writer::CoverageWriter;
