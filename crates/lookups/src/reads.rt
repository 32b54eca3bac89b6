// A lookup with all its subtables.
ghost use Rattle.graph.specs.Model.{view};
ghost use Rattle.lookups.specs.Values.{subtables_from, Accepts, ReadsAll};
ghost use Rattle.lookups.specs.Views.{offsets_of};

use crate::fault::{LookupFault, in_subtable};
use crate::lookup::Lookup;
use graph::tables::Graph;
use markbase::{DataBytes, read_subtable};

/// Goes through the subtables of a lookup in order.
fn check_subtables(graph: &Graph, lookup: &Lookup) -> Result<(), LookupFault>
    ensures { Accepts (subtables_from (view graph.now).nodes lookup.now.head.kind 0 (offsets_of lookup.now)) result }
{
    let head = lookup.head();
    // By place, since a fault names the place of its subtable.
    for i in 0..head.count {
        let _ = in_subtable(i, read_subtable(graph, head.kind, lookup.subtable(i)))?;
    }
    Ok(())
}

/// The lookup at a vertex, if no field of it and none of its subtables is broken.
pub fn read_lookup<'a>(graph: &'a Graph, v: u32) -> Result<Lookup<'a>, LookupFault>
    ensures { ReadsAll (view graph.now).nodes v result }
{
    let lookup = Lookup::read(DataBytes::from_graph(graph, v))?;
    check_subtables(graph, &lookup)?;
    Ok(lookup)
}
