// The walk from a vertex.
ghost use Rattle.std.specs.Prelude.{◌≡◌, ℕ, ◌+◌, ◌<◌, ◌≤◌, List, length};
ghost use Rattle.graph.specs.Model.{view};
ghost use Rattle.walk.specs.Reach.{Spreads, Closed, Adds, Shows};
ghost use Rattle.walk.specs.Computed.{marked_size};
ghost use Rattle.walk.specs.Sizes.{Grows};

use graph::tables::Graph;

// Graph and marks are parameters and no struct: in place of the marks' length, each method of one would state that it keeps the graph and the loan of the marks; and a vertex is named by its number.
// Marks what is reached from `v` over vertices that are not marked, and answers how long it is together.
pub fn find_subgraph_size(graph: &Graph, visited: &mut [bool], v: usize) -> usize
    requires vertex { v < length (view graph.now).nodes }
    requires marks { length (view graph.now).nodes ≤ length visited.old }
    ensures marks { Spreads (view graph.now).nodes visited.old v visited.new }
    ensures closed { Closed (view graph.now).nodes visited.old → Adds (view graph.now).nodes visited.old v visited.new }
    ensures size { result + marked_size (view graph.now).nodes visited.old ≡ marked_size (view graph.now).nodes visited.new }
{
    if visited[v] {
        return 0;
    }
    visited[v] = true;
    let mut size = graph.vertex_data(v).len();
    for link in graph.links(v) {
        size += find_subgraph_size(graph, visited, link.child as usize);
    }
    size
}

// Where the marks show what some roots reach, lets them show what `v` and the roots reach, and answers how much longer that is.
pub fn add_root(graph: &Graph, visited: &mut [bool], v: usize) -> usize
    requires vertex { v < length (view graph.now).nodes }
    requires marks { length (view graph.now).nodes ≤ length visited.old }
    ensures { (roots : List ℕ) → Shows (view graph.now).nodes roots visited.old → Grows (view graph.now).nodes roots v result visited.new }
{
    find_subgraph_size(graph, visited, v)
}
