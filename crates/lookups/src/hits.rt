// The first hit of a mark and a base.
ghost use Rattle.std.specs.Prelude.{◌≡◌, ◌<◌, true, is_ok, Ok, slice_index};
ghost use Rattle.serialize.specs.Objects.{node_at};
ghost use Rattle.graph.specs.Model.{view};
ghost use Rattle.markbase.specs.Nodes.{node_of, read};
ghost use Rattle.markbase.specs.Tables.{subtable};
ghost use Rattle.markbase.specs.Parts.{subtable_of};
ghost use Rattle.markbase.specs.Hits.{contents_at, hit_of};
ghost use Rattle.lookups.specs.Hits.{contents_in, attach_in};
ghost use Rattle.lookups.specs.Values.{subtables_from, lookup_of};
ghost use Rattle.lookups.specs.Views.{offsets_of};

use crate::lookup::Lookup;
use graph::tables::Graph;
use markbase::{DataBytes, ExtensionSubtable, Hit, KnownTable, LookupType, MarkBasePosFormat1};

/// The fields of a subtable that was read.
fn table_at(graph: &Graph, vertex: u32) -> MarkBasePosFormat1
    requires { is_ok (read subtable (node_at (view graph.now).nodes vertex)) ≡ true }
    ensures { read subtable (node_at (view graph.now).nodes vertex) ≡ Ok result }
{
    MarkBasePosFormat1::read(DataBytes::from_graph(graph, vertex)).unwrap()
}

/// The parts of the subtable that the vertex `v` is or, in type 9, is the extension of.
// Graph, type and number side by side, here and where subtables are read: a vertex is named by its number in the graph, and the type is its lookup's.
fn known_table<'a>(graph: &'a Graph, kind: LookupType, v: u32) -> KnownTable<'a>
    requires { is_ok (subtable_of (view graph.now).nodes kind v) ≡ true }
    ensures { contents_at (view result.graph.now).nodes result.table ≡ contents_in (subtable_of (view graph.entry.now).nodes kind v) }
{
    let vertex = match kind {
        LookupType::MarkToBase => v,
        LookupType::Extension => {
            let extension = ExtensionSubtable::read(DataBytes::from_graph(graph, v)).unwrap();
            extension.subtable
        }
    };
    KnownTable {
        graph,
        table: table_at(graph, vertex),
    }
}

/// A lookup that was read with all its subtables, in its graph.
#[derive(Clone, Copy)]
struct KnownLookup<'a> {
    graph: &'a Graph,
    lookup: Lookup<'a>,
    ghost read: { is_ok (subtables_from (view graph.now).nodes lookup.head.kind 0 (offsets_of lookup)) ≡ true },
}

impl<'a> KnownLookup<'a> {
    /// The lookup at `v`, which was read.
    fn at(graph: &'a Graph, v: u32) -> KnownLookup<'a>
        requires { is_ok (lookup_of (view graph.now).nodes v) ≡ true }
        ensures same { view result.graph.now ≡ view graph.entry.now }
        ensures node { node_of result.lookup.vertex ≡ node_at (view graph.entry.now).nodes v }
    {
        let lookup = Lookup::read(DataBytes::from_graph(graph, v)).unwrap();
        KnownLookup { graph, lookup }
    }

    /// The hit in the subtable at place `i`.
    fn hit_in(&self, i: u16, mark: u16, base: u16) -> Option<Hit>
        requires { i < self.now.lookup.head.count }
        ensures { result ≡ hit_of (contents_in (subtable_of (view self.now.graph.now).nodes self.now.lookup.head.kind (slice_index (offsets_of self.now.lookup) i))) mark base }
    {
        let kind = self.lookup.head().kind;
        known_table(self.graph, kind, self.lookup.subtable(i)).find_hit(mark, base)
    }
}

/// The first hit of a mark and a base in the lookup at `v`, which was read.
pub fn attach(graph: &Graph, v: u32, mark: u16, base: u16) -> Option<Hit>
    requires { is_ok (lookup_of (view graph.now).nodes v) ≡ true }
    ensures { result ≡ attach_in (lookup_of (view graph.now).nodes v) mark base }
{
    let known = KnownLookup::at(graph, v);
    let count = known.lookup.head().count;
    (0..count).find_map(|i| known.hit_in(i, mark, base))
}
