// Runs of the readers: every kind of broken field, with its place.
#![tactic(auto)]

#[cfg(test)]
mod arrays;
#[cfg(test)]
mod cases;
#[cfg(test)]
mod lookup;
#[cfg(test)]
mod tables;
