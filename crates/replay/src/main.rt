// Runs every case of `cases.bin` in a workspace of its own, and prints what `marksplit` would answer.
//
// The file is a row of records: a tag, the length of the body as four bytes, and the body. `N` begins a case and has its name, `F` has its objects, `L` is one line of its input.
#![tactic(auto)]

ghost use Rattle.std.specs.Prelude.{length};
ghost use Rattle.std.specs.Iterator.{at_most};

use lines::refused_line;
use session::{answer, load_file, new_workspace};
use std::io::{Read, Write};
use std::{fs, io};
use workspace::state::Workspace;

// One record, by its tag; every tag but those of names and objects is that of a line.
enum Record<'a> {
    Name(&'a [u8]),
    Objects(&'a [u8]),
    Line(&'a [u8]),
}

// The records that are left. They end where no whole record is left.
#[derive(Drop)]
struct Records<'a>(&'a [u8]);

impl<'a> Iterator for Records<'a> {
    type Item = Record<'a>;

    ghost remaining = { λ s. at_most (length s.0.now) };

    fn next(&mut self) -> Option<Record<'a>> {
        let [tag, a, b, c, d, rest @ ..] = self.0 else {
            return None;
        };
        let len = u32::from_be_bytes([*a, *b, *c, *d]) as usize;
        let (body, rest) = rest.split_at_checked(len)?;
        self.0 = rest;
        Some(match *tag {
            b'N' => Record::Name(body),
            b'F' => Record::Objects(body),
            _ => Record::Line(body),
        })
    }
}

fn read_cases(rt: &HostRuntime) -> io::Result<Vec<u8>> {
    let mut cases = Vec::new(rt.alloc());
    fs::open(rt, "cases.bin")?.read_to_end(&mut cases)?;
    Ok(cases)
}

// A workspace that holds the objects of a file; none where the file is refused, which is printed.
// `marksplit` begins alike, but ends at a refusal; one function for both would answer a result within a result, which is no plainer.
fn begin(rt: &HostRuntime, file: &[u8]) -> anyhow::Result<Option<Workspace>> {
    let mut workspace = new_workspace(rt.alloc())?;
    match load_file(&mut workspace, file) {
        Ok(_) => Ok(Some(workspace)),
        Err(refusal) => {
            let line = refused_line(rt.alloc(), b"L", refusal)?;
            rt.stdout().write_all(line.as_slice())?;
            Ok(None)
        }
    }
}

fn print_name(rt: &HostRuntime, name: &[u8]) -> anyhow::Result<()> {
    rt.stdout().write_all(b"# ")?;
    rt.stdout().write_all(name)?;
    rt.stdout().write_all(b"\n")?;
    Ok(())
}

// The lines of a case whose file was refused are passed over.
fn print_answer(
    rt: &HostRuntime,
    workspace: &mut Option<Workspace>,
    line: &[u8],
) -> anyhow::Result<()> {
    if let Some(workspace) = workspace {
        let reply = answer(workspace, rt.alloc(), line)?;
        rt.stdout().write_all(reply.as_slice())?;
    }
    Ok(())
}

fn main(rt: HostRuntime) -> anyhow::Result<()> {
    let cases = read_cases(&rt)?;
    let mut workspace = None;
    for record in Records(cases.as_slice()) {
        match record {
            Record::Name(name) => print_name(&rt, name)?,
            Record::Objects(file) => workspace = begin(&rt, file)?,
            Record::Line(line) => print_answer(&rt, &mut workspace, line)?,
        }
    }
    Ok(())
}
