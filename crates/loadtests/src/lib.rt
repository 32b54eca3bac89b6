// Object files that load and object files that do not.
#![tactic(auto)]

#[cfg(test)]
mod tests;
