// Hits, without going through a whole part.
ghost use Rattle.std.specs.Prelude.{◌≡◌, ◌<◌, true, IfSome, is_ok};
ghost use Rattle.graph.specs.Model.{view};
ghost use Rattle.markbase.specs.Hits.{mark_in, base_in, hit_of, contents_at, record_of, anchor_of};
ghost use Rattle.markbase.specs.Parts.{contents_of};

use crate::base_array::BaseArray;
use crate::data::DataBytes;
use crate::mark_array::MarkArray;
use crate::table::MarkBasePosFormat1;
use graph::tables::Graph;
use layout::Coverage;

/// The anchors of a mark and of a base, each a vertex or a null.
#[derive(Clone, Copy, Debug, PartialEq, Eq)]
pub struct Hit {
    pub mark: Option<u32>,
    pub base: Option<u32>,
}

/// A subtable whose parts were read, with the graph that they stand in.
#[derive(Clone, Copy)]
pub struct KnownTable<'a> {
    pub graph: &'a Graph,
    pub table: MarkBasePosFormat1,
    pub ghost read: { is_ok (contents_of (view graph.now).nodes table) ≡ true },
}

impl KnownTable<'_> {
    /// The class and the anchor of the mark with this glyph.
    fn find_mark(&self, glyph: u16) -> Option<(u16, Option<u32>)>
        ensures found { result ≡ record_of (mark_in (contents_at (view self.now.graph.now).nodes self.now.table) glyph) }
        ensures class { IfSome result (λ x. x.0 < self.now.table.class_count) }
    {
        let KnownTable { graph, table } = *self;
        let coverage = Coverage::from_sound(
            DataBytes::from_graph(graph, table.mark_coverage).bytes,
        );
        let i = coverage.index_of(glyph)?;
        let array = MarkArray {
            vertex: DataBytes::from_graph(graph, table.mark_array),
            count: coverage.count(),
            class_count: table.class_count,
        };
        Some(array.mark(i))
    }

    // Its first step is `find_mark`'s: one function for both, from a coverage and a glyph to an index and a count, is longer than the lines that it saves.
    /// The anchor for a class of the base with this glyph.
    fn find_anchor(&self, glyph: u16, class: u16) -> Option<Option<u32>>
        requires { class < self.now.table.class_count }
        ensures { result ≡ anchor_of class (base_in (contents_at (view self.now.graph.now).nodes self.now.table) glyph) }
    {
        let KnownTable { graph, table } = *self;
        let coverage = Coverage::from_sound(
            DataBytes::from_graph(graph, table.base_coverage).bytes,
        );
        let i = coverage.index_of(glyph)?;
        let array = BaseArray {
            vertex: DataBytes::from_graph(graph, table.base_array),
            count: coverage.count(),
            class_count: table.class_count,
        };
        Some(array.anchor(i, class))
    }

    // A mark and a base are two parameters, here and in the calls above: a pair would be made for each call alone.
    /// The hit of a mark and a base.
    pub fn find_hit(&self, mark: u16, base: u16) -> Option<Hit>
        ensures { result ≡ hit_of (contents_at (view self.now.graph.now).nodes self.now.table) mark base }
    {
        let (class, anchor) = self.find_mark(mark)?;
        let base = self.find_anchor(base, class)?;
        Some(Hit { mark: anchor, base })
    }
}
