// Links between objects, and the files that objects come in.
#![tactic(auto)]

pub mod link;
pub mod object_file;
