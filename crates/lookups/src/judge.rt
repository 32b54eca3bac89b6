// Whether a lookup can be opened.
ghost use Rattle.std.specs.Prelude.{◌≡◌, nat_lt};
ghost use Rattle.graph.specs.Model.{view};
ghost use Rattle.markbase.specs.Parts.{subtable_of, info_of};
ghost use Rattle.markbase.specs.Nodes.{read};
ghost use Rattle.serialize.specs.Objects.{node_at, incoming};
ghost use Rattle.lookups.specs.Tables.{lookup};
ghost use Rattle.lookups.specs.Views.{offsets_of};
ghost use Rattle.lookups.specs.Judging.{shared_part, wrong_with, wrong_among, Counted, Passes, Judges};

use crate::fault::{LookupFault, in_subtable};
use crate::lookup::Lookup;
use graph::tables::Graph;
use markbase::{DataBytes, LookupType, TableInfo, read_subtable};
use refusal::{Part, Refusal};

/// A graph, and how many links lead to each of its vertices.
#[derive(Clone, Copy)]
struct CountedGraph<'a> {
    graph: &'a Graph,
    counts: &'a [u32],
    ghost counted: { Counted (view graph.now).nodes counts.now },
}

impl CountedGraph<'_> {
    /// Whether a vertex has more than one incoming link.
    fn is_shared(&self, v: u32) -> bool
        ensures { result ≡ nat_lt 1 (incoming (view self.now.graph.now).nodes v) }
    {
        self.counts.get(v as usize).is_some_and(|count| *count > 1)
    }

    /// The lowest part, the base coverage aside, that has more than one incoming link.
    fn shared_part(&self, info: TableInfo) -> Option<Part>
        ensures { result ≡ shared_part (incoming (view self.now.graph.now).nodes) info }
    {
        if let Some(v) = info.extension
            && self.is_shared(v)
        {
            return Some(Part::Extension);
        }
        let parts = [
            (info.vertex, Part::Subtable),
            (info.table.mark_coverage, Part::MarkCoverage),
            (info.table.mark_array, Part::MarkArray),
            (info.table.base_array, Part::BaseArray),
        ];
        parts
            .iter()
            .find(|(v, _)| self.is_shared(*v))
            .map(|(_, part)| *part)
    }

    /// Whether the subtable that stands at place `i` and leads to `v` can be read, and is not shared.
    fn judge_subtable(&self, kind: LookupType, i: u16, v: u32) -> Result<(), Refusal>
        ensures { Passes (wrong_with (view self.now.graph.now).nodes i (info_of (subtable_of (view self.now.graph.now).nodes kind v))) result }
    {
        let info = in_subtable(i, read_subtable(self.graph, kind, v))?;
        // A match, since the part that is found is the error and none is the value.
        match self.shared_part(info) {
            Some(part) => Err(Refusal::SharedPart {
                subtable: u32::from(i),
                part,
            }),
            None => Ok(()),
        }
    }

    /// Whether all subtables of a lookup can be read, and are not shared; one after the other.
    fn judge_subtables(&self, lookup: &Lookup) -> Result<(), Refusal>
        ensures { Passes (wrong_among (view self.now.graph.now).nodes lookup.now.head.kind 0 (offsets_of lookup.now)) result }
    {
        let head = lookup.head();
        // By place, since what is wrong names the place of its subtable.
        for i in 0..head.count {
            self.judge_subtable(head.kind, i, lookup.subtable(i))?;
        }
        Ok(())
    }
}

/// Whether the vertex is a lookup that can be opened; if so, how many subtables it has.
pub fn judge_lookup(graph: &Graph, counts: &[u32], v: u32) -> Result<u32, Refusal>
    requires { Counted (view graph.now).nodes counts.now }
    ensures { Judges (view graph.now).nodes (read lookup (node_at (view graph.now).nodes v)) result }
{
    let lookup = Lookup::read(DataBytes::from_graph(graph, v)).map_err(LookupFault::from)?;
    CountedGraph { graph, counts }.judge_subtables(&lookup)?;
    Ok(u32::from(lookup.head().count))
}
