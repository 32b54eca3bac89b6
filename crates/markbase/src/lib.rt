// Mark-to-base lookups: reading their parts field by field, and the hits of a mark and a base.
#![tactic(auto)]

mod base_array;
mod coverage;
mod data;
mod extension;
mod fault;
mod hits;
mod lookup_type;
mod mark_array;
mod parts;
mod table;

pub use base_array::BaseArray;
pub use data::DataBytes;
pub use extension::ExtensionSubtable;
pub use fault::PartFault;
pub use hits::{Hit, KnownTable};
pub use lookup_type::{LookupType, UnknownLookupType};
pub use mark_array::MarkArray;
pub use parts::{TableInfo, read_subtable};
pub use table::MarkBasePosFormat1;
