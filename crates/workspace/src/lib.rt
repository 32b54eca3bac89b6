// A workspace that holds an object graph, and its calls.
#![tactic(auto)]

pub mod state;
pub mod supply;
