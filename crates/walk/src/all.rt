// The walk from several roots.
ghost use Rattle.std.specs.Prelude.{◌≤◌, length};
ghost use Rattle.graph.specs.Model.{view};
ghost use Rattle.walk.specs.Reach.{Clear};
ghost use Rattle.walk.specs.Sizes.{SizeOfAll};

use crate::marks::Marks;
use crate::subgraph::add_root;
use graph::tables::Graph;

// The root at an index is no vertex.
#[derive(Clone, Copy, PartialEq, Eq, Debug)]
pub struct NoVertex {
    pub index: usize,
}

// How long all that the roots reach is together, each vertex once, or the first root that is no vertex. No mark is left.
pub fn size_of_all(graph: &Graph, visited: &mut [bool], roots: &[u32]) -> Result<usize, NoVertex>
    requires marks { length (view graph.now).nodes ≤ length visited.old }
    requires clear { Clear visited.old }
    ensures value { SizeOfAll (view graph.now).nodes roots.now result }
    ensures clear { Clear visited.new }
{
    let marks = Marks { visited };
    let mut size = 0;
    for (index, root) in roots.iter().enumerate() {
        let v = *root as usize;
        if v >= graph.vertex_count() {
            return Err(NoVertex { index });
        }
        size += add_root(graph, marks.visited, v);
    }
    Ok(size)
}
