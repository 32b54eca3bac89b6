// What a caller can read.
ghost use Rattle.std.specs.Prelude.{◌≡◌, length};
ghost use Rattle.workspace.specs.Model.{view};
ghost use Rattle.workspace.specs.Reading.{Shows};

use super::Workspace;
use markbase::DataBytes;

#[tactic(auto, unfolding(crate::specs::Model::view))]
impl Workspace {
    pub fn vertex_count(&self) -> u32
        ensures { result ≡ length (view self.now).graph.nodes }
    {
        self.graph.vertex_count() as u32
    }

    // Up to where bytes have been dealt out.
    pub fn mark(&self) -> u32
        ensures { result ≡ (view self.now).graph.mark }
    {
        self.graph.mark() as u32
    }

    // The bytes and links of a vertex.
    pub fn vertex(&self, v: u32) -> Option<DataBytes<'_>>
        ensures { Shows (view self.now).graph.nodes v result }
    {
        if v as usize >= self.graph.vertex_count() {
            return None;
        }
        Some(DataBytes::from_graph(&self.graph, v))
    }
}
