// The calls.
ghost use Rattle.std.specs.Prelude.{◌≡◌};
ghost use Rattle.serialize.specs.Objects.{SoundObjects};
ghost use Rattle.workspace.specs.Model.{view, new_model, AtRest, made_of};
ghost use Rattle.workspace.specs.Loading.{shortage, Loads};

use super::Workspace;
use crate::supply::{LIST_LEN, Supply};
use graph::tables::Graph;
use refusal::{Refusal, Shortage};
use serialize::object_file::{ObjectFile, Trailer};

impl Workspace {
    // An empty workspace over the caller's tables, lists and visit marks, whatever they held.
    pub fn new(supply: Supply) -> Workspace
        ensures view { view result ≡ new_model supply }
        ensures rest { AtRest result }
    {
        let Supply {
            vertices,
            links,
            bytes,
            mut first_list,
            mut second_list,
            mut visited,
        } = supply;
        first_list.fill(0);
        second_list.fill(0);
        visited.fill(false);
        Workspace {
            graph: Graph::new(vertices, links, bytes),
            first_list,
            second_list,
            visited,
            loaded: 0,
            lookup: None,
        }
    }

    // The vertices made since the last `load`.
    pub fn made(&self) -> u32
        ensures { result ≡ made_of (view self.now) }
    {
        self.graph.vertex_count() as u32 - self.loaded
    }

    // Puts the objects of a file in the place of all that the workspace held, and answers how many vertices there are.
    pub fn load(&mut self, file: &[u8]) -> Result<u32, Refusal>
        ensures loads { Loads (view self.old) file.now result (view self.new) }
        ensures sound { SoundObjects (view self.new).graph.nodes }
    {
        let file = ObjectFile::read(file).ok_or(Refusal::BadFile)?;
        if let Some(short) = self.shortage(file.trailer) {
            return Err(Refusal::FileTooLarge(short));
        }
        let sound = file.check_links().map_err(|broken| Refusal::BadLink {
            record: broken.record,
        })?;
        self.graph.fill(sound);
        self.loaded = file.trailer.vertices;
        self.lookup = None;
        Ok(file.trailer.vertices)
    }

    // What is too small for a file with this trailer.
    // Four tests in their order, and no table of them: three compare two numbers, the last asks all lists.
    fn shortage(&self, trailer: Trailer) -> Option<Shortage>
        ensures { result ≡ shortage (view self.now) trailer }
    {
        let capacity = self.graph.capacity();
        if trailer.vertices as usize > capacity.vertices {
            return Some(Shortage::Vertices);
        }
        if trailer.links as usize > capacity.links {
            return Some(Shortage::Links);
        }
        if trailer.lengths as usize > capacity.bytes {
            return Some(Shortage::Bytes);
        }
        if !self.lists_serve() {
            return Some(Shortage::Lists);
        }
        None
    }

    // Whether the working lists and the visit marks are long enough.
    fn lists_serve(&self) -> bool
        ensures { result ≡ (view self.now).lists }
    {
        self.first_list.len() >= LIST_LEN
            && self.second_list.len() >= LIST_LEN
            && self.visited.len() >= self.graph.capacity().vertices
    }
}
