// The state of a workspace.
ghost use Rattle.std.specs.Prelude.{◌≡◌, ◌≤◌, true, length, vec_len};
ghost use Rattle.graph.specs.Model.{view as objects};
ghost use Rattle.workspace.specs.Rest.{Zero, Clear, Served, openable};

use graph::tables::Graph;

mod calls;
mod open_lookup;
mod reads;

#[derive(Drop)]
pub struct Workspace {
    graph: Graph,
    first_list: Vec<u32>,
    second_list: Vec<u32>,
    visited: Vec<bool>,
    // How many vertices the last `load` made.
    loaded: u32,
    // The lookup that is open.
    lookup: Option<u32>,
    // Between calls the working lists are zero and the visit marks clear.
    ghost first: { Zero first_list.items },
    ghost second: { Zero second_list.items },
    ghost clear: { Clear visited.items },
    // Where there are vertices, the lists and the visit marks are long enough.
    ghost served: { Served (objects graph) (vec_len first_list) (vec_len second_list) (vec_len visited) },
    // Nothing is wrong with the lookup that is open.
    ghost opened: { openable (objects graph).nodes lookup ≡ true },
    // No call takes a vertex away.
    ghost kept: { loaded ≤ length (objects graph).nodes },
}
