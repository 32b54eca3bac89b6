// The calls on a lookup.
ghost use Rattle.std.specs.Prelude.{◌≡◌, ◌<◌, ◌≤◌, length, replicate};
ghost use Rattle.graph.specs.Model.{view as objects};
ghost use Rattle.lookups.specs.Judging.{Judges};
ghost use Rattle.workspace.specs.Model.{view};
ghost use Rattle.workspace.specs.Opening.{Opens, Closes, Judged};
ghost use Rattle.workspace.specs.Attaching.{attach_of};
ghost use Rattle.workspace.specs.Histories.{OpenKeeps};

use super::Workspace;
use graph::tables::Graph;
use lookups::{attach, judge_lookup};
use markbase::Hit;
use refusal::Refusal;

// Whether a vertex is a lookup that can be opened, and how many subtables it has. The list of zeros is zero again.
fn judge(graph: &Graph, list: &mut [u32], v: u32) -> Result<u32, Refusal>
    requires zero { list.old ≡ replicate (length list.old) 0 }
    requires long { length (objects graph.now).nodes ≤ length list.old }
    requires vertex { v < length (objects graph.now).nodes }
    ensures judged { Judged (objects graph.now).nodes v result }
    ensures zero { list.new ≡ replicate (length list.old) 0 }
{
    graph.count_incoming(list);
    let judged = if list[v as usize] == 0 {
        judge_lookup(graph, list, v)
    } else {
        Err(Refusal::NoLookup)
    };
    list.fill(0);
    judged
}

#[tactic(auto, unfolding(crate::specs::Model::view))]
impl Workspace {
    // Opens the lookup at a vertex, and answers how many subtables it has.
    pub fn open(&mut self, vertex: u32) -> Result<u32, Refusal>
        ensures opens { Opens (view self.old) vertex result (view self.new) }
        ensures law { OpenKeeps result (view self.new) }
    {
        if let Some(lookup) = self.lookup {
            return Err(Refusal::LookupOpen { lookup });
        }
        if vertex as usize >= self.graph.vertex_count() {
            return Err(Refusal::NoLookup);
        }
        let count = judge(&self.graph, self.first_list.as_mut_slice(), vertex)?;
        self.lookup = Some(vertex);
        Ok(count)
    }

    // The first hit of a mark and a base in the open lookup.
    pub fn attach(&self, mark: u16, base: u16) -> Result<Option<Hit>, Refusal>
        ensures { result ≡ attach_of (view self.now) mark base }
    {
        let lookup = self.lookup.ok_or(Refusal::NothingOpen)?;
        Ok(attach(&self.graph, lookup, mark, base))
    }

    // Ends the open lookup; vertices and links stay.
    pub fn close(&mut self) -> Result<u32, Refusal>
        ensures { Closes (view self.old) result (view self.new) }
    {
        if self.lookup.is_none() {
            return Err(Refusal::NothingOpen);
        }
        self.lookup = None;
        Ok(0)
    }
}
