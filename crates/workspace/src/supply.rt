// What the caller hands in.
ghost use Rattle.std.specs.Prelude.{◌≡◌, IfOk};
ghost use Rattle.workspace.specs.Supply.{Sized};

use graph::vertex::{Capacity, Vertex};
use serialize::link::{Link, LinkWidth};
use std::alloc::{AllocError, Global};

// How long each working list has to be.
pub const LIST_LEN: usize = 65_535;

// The tables, each as long as what it is to hold, two working lists, and a visit mark for each table vertex.
#[derive(Drop)]
pub struct Supply {
    pub vertices: Vec<Vertex>,
    pub links: Vec<Link>,
    pub bytes: Vec<u8>,
    pub first_list: Vec<u32>,
    pub second_list: Vec<u32>,
    pub visited: Vec<bool>,
}

impl Supply {
    // Tables of the given sizes, with lists and visit marks that serve.
    pub fn with_capacity(heap: Global, capacity: Capacity) -> Result<Supply, AllocError>
        ensures { IfOk result (Sized capacity) }
    {
        let vertex = Vertex {
            head: 0,
            len: 0,
            first_link: 0,
            link_count: 0,
        };
        let link = Link {
            position: 0,
            child: 0,
            width: LinkWidth::Two,
        };
        Ok(Supply {
            vertices: vec![in heap; vertex; capacity.vertices]?,
            links: vec![in heap; link; capacity.links]?,
            bytes: vec![in heap; 0; capacity.bytes]?,
            first_list: vec![in heap; 0; LIST_LEN]?,
            second_list: vec![in heap; 0; LIST_LEN]?,
            visited: vec![in heap; false; capacity.vertices]?,
        })
    }
}
