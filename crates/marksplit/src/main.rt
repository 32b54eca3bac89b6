// `marksplit`: loads `objects.bin` and answers the lines of standard input, one line for each.
#![tactic(auto)]

use anyhow::Context;
use lines::refused_line;
use session::{LONGEST_FILE, answer, load_file, new_workspace};
use std::io::{BufRead, BufReader, Read, Write};
use std::process::ExitCode;
use std::{fs, io};
use workspace::state::Workspace;

// The file's bytes; of one that is longer than any that fits, one byte too many is enough.
fn read_file(rt: &HostRuntime) -> io::Result<Vec<u8>> {
    let mut file = Vec::new(rt.alloc());
    let mut source = fs::open(rt, "objects.bin")?.take(LONGEST_FILE as u64 + 1);
    source.read_to_end(&mut file)?;
    Ok(file)
}

// Answers each line as it comes; a last line without a line feed counts.
fn answer_lines(rt: &HostRuntime, workspace: &mut Workspace) -> anyhow::Result<()> {
    for line in BufReader::new(rt.alloc(), rt.stdin())?.split(rt.alloc(), b'\n') {
        let reply = answer(workspace, rt.alloc(), line?.as_slice())?;
        rt.stdout().write_all(reply.as_slice())?;
    }
    Ok(())
}

fn run(rt: &HostRuntime) -> anyhow::Result<()> {
    let file = read_file(rt).context("cannot read objects.bin")?;
    let mut workspace = new_workspace(rt.alloc())?;
    match load_file(&mut workspace, file.as_slice()) {
        Ok(_) => answer_lines(rt, &mut workspace),
        Err(refusal) => {
            let line = refused_line(rt.alloc(), b"L", refusal)?;
            rt.stdout().write_all(line.as_slice())?;
            Ok(())
        }
    }
}

fn main(rt: HostRuntime) -> ExitCode {
    match run(&rt) {
        Ok(()) => ExitCode::SUCCESS,
        Err(error) => {
            let _ = eprintln!(rt; "marksplit: {error:#}");
            ExitCode::FAILURE
        }
    }
}
