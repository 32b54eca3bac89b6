// Reading a vertex field by field, each field with its byte place.
#![tactic(auto)]

mod cursor;
mod fault;
mod laws;
mod search;

pub use cursor::Cursor;
pub use fault::Fault;
pub use laws::fields_mean;
