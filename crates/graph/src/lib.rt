// Object graphs: vertices with bytes, joined by links that stand for their offset fields.
#![tactic(auto)]

pub mod tables;
pub mod vertex;
