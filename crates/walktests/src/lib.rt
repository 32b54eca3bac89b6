// Walks over graphs that were loaded.
#![tactic(auto)]

ghost use Rattle.walktests.specs.Worked.{Worked};

pub mod files;
#[cfg(test)]
mod tests;

// Sizes of small graphs, computed.
pub fn sizes_computed()
    ensures { Worked }
{}
