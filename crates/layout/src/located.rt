/// A value that was read, and the place of its first byte.
#[derive(Clone, Copy, Debug)]
pub struct Located<T> {
    pub value: T,
    pub place: usize,
}

/// The place of the first broken field of a Coverage table.
#[derive(Clone, Copy, Debug, PartialEq, Eq)]
pub struct CoverageFault {
    pub place: usize,
}
