// One run of the program `marksplit`: a workspace of fixed size, a file that is loaded, and lines that are answered.
#![tactic(auto)]

ghost use Rattle.std.specs.Prelude.{◌≡◌, IfOk};
ghost use Rattle.workspace.specs.Model.{view};
ghost use Rattle.session.specs.Session.{program_model, LoadsFile, Answers};

use graph::vertex::Capacity;
use lines::{Command, done_line, hit_line, none_line, refused_line, unknown_line};
use refusal::{Refusal, Shortage};
use std::alloc::{AllocError, Global};
use workspace::state::Workspace;
use workspace::supply::Supply;

// What the program's tables hold.
pub const VERTICES: usize = 500;

pub const LINKS: usize = 2_000;

pub const BYTES: usize = 16_000;

// The longest file that the tables can hold: the bytes, four for each vertex, sixteen for each link, and the trailer.
pub const LONGEST_FILE: usize = 50_020;

// A new workspace with the program's tables.
// Not one function with what the tests make: it is two calls, and each has sizes of its own.
pub fn new_workspace(heap: Global) -> Result<Workspace, AllocError>
    ensures { IfOk result (λ w. view w ≡ program_model) }
{
    let capacity = Capacity {
        vertices: VERTICES,
        links: LINKS,
        bytes: BYTES,
    };
    Ok(Workspace::new(Supply::with_capacity(heap, capacity)?))
}

// Loads a file, unless it is longer than any that fits.
pub fn load_file(workspace: &mut Workspace, file: &[u8]) -> Result<u32, Refusal>
    ensures { LoadsFile (view workspace.old) file.now result (view workspace.new) }
{
    if file.len() > LONGEST_FILE {
        return Err(Refusal::FileTooLarge(Shortage::Bytes));
    }
    workspace.load(file)
}

// The line that answers a line of the input. A command whose call is not there yet is answered as a line that spells none.
pub fn answer(workspace: &mut Workspace, heap: Global, line: &[u8]) -> Result<Vec<u8>, AllocError>
    ensures { IfOk result (λ out. Answers (view workspace.old) line.now out.items (view workspace.new)) }
{
    match Command::read(line) {
        Some(Command::Open { vertex }) => match workspace.open(vertex) {
            Ok(count) => done_line(heap, line, count),
            Err(refusal) => refused_line(heap, line, refusal),
        },
        Some(Command::Attach { mark, base }) => match workspace.attach(mark, base) {
            Ok(Some(hit)) => hit_line(heap, line, hit.mark, hit.base),
            Ok(None) => none_line(heap, line),
            Err(refusal) => refused_line(heap, line, refusal),
        },
        Some(_) | None => unknown_line(heap),
    }
}
