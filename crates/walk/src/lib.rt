// Walks over an object graph that enter each vertex once.
#![tactic(auto)]

pub mod all;
pub mod laws;
pub mod marks;
pub mod subgraph;
