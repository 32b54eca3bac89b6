// Lookups: their own fields, all their subtables, and the first hit of a mark and a base.
#![tactic(auto)]

mod fault;
mod hits;
mod judge;
mod lookup;
mod reads;

pub use fault::{LookupFault, in_subtable};
pub use hits::attach;
pub use judge::judge_lookup;
pub use lookup::{Lookup, LookupHead};
pub use reads::read_lookup;
