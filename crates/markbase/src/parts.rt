// A subtable with all its parts, in the order in which they are read.
ghost use Rattle.std.specs.Prelude.{◌≡◌};
ghost use Rattle.graph.specs.Model.{view};
ghost use Rattle.markbase.specs.Parts.{subtable_at, subtable_of, contents_of, info_of};
ghost use Rattle.markbase.specs.PartReads.{Counts};

use crate::base_array::BaseArray;
use crate::coverage::read_coverage;
use crate::data::DataBytes;
use crate::extension::ExtensionSubtable;
use crate::fault::{PartFault, in_part};
use crate::lookup_type::LookupType;
use crate::mark_array::MarkArray;
use crate::table::MarkBasePosFormat1;
use graph::tables::Graph;
use refusal::Part;

/// Where the parts of a subtable stand, and how many marks and bases it has.
#[derive(Clone, Copy, Debug, PartialEq, Eq)]
pub struct TableInfo {
    pub extension: Option<u32>,
    pub vertex: u32,
    pub table: MarkBasePosFormat1,
    pub mark_count: usize,
    pub base_count: usize,
}

/// Parts 2 to 5: how many marks and bases there are.
fn read_contents(graph: &Graph, table: MarkBasePosFormat1) -> Result<(usize, usize), PartFault>
    ensures { Counts (contents_of (view graph.now).nodes table) result }
{
    let marks = in_part(
        Part::MarkCoverage,
        read_coverage(DataBytes::from_graph(graph, table.mark_coverage)),
    )?;
    let bases = in_part(
        Part::BaseCoverage,
        read_coverage(DataBytes::from_graph(graph, table.base_coverage)),
    )?;
    let mark_count = marks.count();
    let base_count = bases.count();
    let _ = in_part(
        Part::MarkArray,
        MarkArray::read(
            DataBytes::from_graph(graph, table.mark_array),
            mark_count,
            table.class_count,
        ),
    )?;
    let _ = in_part(
        Part::BaseArray,
        BaseArray::read(
            DataBytes::from_graph(graph, table.base_array),
            base_count,
            table.class_count,
        ),
    )?;
    Ok((mark_count, base_count))
}

/// Parts 1 to 5 of the subtable at `vertex`, behind `extension`.
fn read_parts(graph: &Graph, extension: Option<u32>, vertex: u32) -> Result<TableInfo, PartFault>
    ensures { result ≡ info_of (subtable_at (view graph.now).nodes extension vertex) }
{
    let table = in_part(
        Part::Subtable,
        MarkBasePosFormat1::read(DataBytes::from_graph(graph, vertex)),
    )?;
    let (mark_count, base_count) = read_contents(graph, table)?;
    Ok(TableInfo {
        extension,
        vertex,
        table,
        mark_count,
        base_count,
    })
}

/// The subtable that the vertex `v` is or, in type 9, is the extension of.
pub fn read_subtable(graph: &Graph, kind: LookupType, v: u32) -> Result<TableInfo, PartFault>
    ensures { result ≡ info_of (subtable_of (view graph.now).nodes kind v) }
{
    match kind {
        LookupType::MarkToBase => read_parts(graph, None, v),
        LookupType::Extension => {
            let extension = in_part(
                Part::Extension,
                ExtensionSubtable::read(DataBytes::from_graph(graph, v)),
            )?;
            read_parts(graph, Some(v), extension.subtable)
        }
    }
}
