// The lines of a session: the commands that are read, and the lines that are printed.
#![tactic(auto)]

mod command;
mod printed;

pub use command::Command;
pub use printed::{done_line, hit_line, none_line, refused_line, unknown_line};
