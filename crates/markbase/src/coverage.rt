// Parts 2 and 3, the coverages.
ghost use Rattle.markbase.specs.Nodes.{node_of};
ghost use Rattle.markbase.specs.Tables.{coverage};
ghost use Rattle.markbase.specs.Views.{ReadsCoverage};

use crate::data::DataBytes;
use fields::Fault;
use layout::Coverage;

/// A coverage, all of whose fields are words: a link breaks the word in which it starts.
pub fn read_coverage<'a>(vertex: DataBytes<'a>) -> Result<Coverage<'a>, Fault>
    ensures { ReadsCoverage (coverage (node_of vertex.entry)) result }
{
    let [link, ..] = vertex.links else {
        return Ok(Coverage::read(vertex.bytes)?);
    };
    let word = link.position as usize / 2 * 2;
    match Coverage::read(vertex.bytes) {
        Ok(_) => Err(Fault { place: word }),
        Err(fault) => Err(Fault {
            place: fault.place.min(word),
        }),
    }
}
