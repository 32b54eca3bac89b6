// The records of the vertex table.

// A vertex: its bytes are `bytes[head .. head + len]`, its links `links[first_link .. first_link + link_count]`.
// The numbers are places in the graph's two tables, which are fixed memory of the caller.
#[derive(Clone, Copy)]
pub struct Vertex {
    pub head: usize,
    pub len: usize,
    pub first_link: usize,
    pub link_count: usize,
}

// How much the tables hold at most.
#[derive(Clone, Copy, PartialEq, Eq, Debug)]
pub struct Capacity {
    pub vertices: usize,
    pub links: usize,
    pub bytes: usize,
}
