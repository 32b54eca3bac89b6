// `chain`: walks a chain of as many vertices as a graph can hold, and prints its length.
#![tactic(auto)]

use graph::tables::Graph;
use serialize::object_file::LinkRecord;
use std::alloc::{AllocError, Global};
use walk::all::{NoVertex, size_of_all};
use walk::marks::clear;
use walktests::files::{graph_of, record};

const COUNT: u32 = 20_000;

// A link from each vertex but the last to the next.
fn links(heap: Global) -> Result<Vec<LinkRecord>, AllocError> {
    (1..COUNT).map(|v| record(v - 1, 0, v, 2)).collect(heap)
}

// The length of all that vertex 0 reaches, if there are marks for all vertices.
fn walked(graph: &Graph, visited: &mut [bool]) -> Option<Result<usize, NoVertex>> {
    if visited.len() < graph.vertex_count() {
        return None;
    }
    clear(visited);
    Some(size_of_all(graph, visited, &[0]))
}

fn run(rt: &HostRuntime) -> anyhow::Result<()> {
    let words = vec![in rt.alloc(); 1; COUNT as usize]?;
    let records = links(rt.alloc())?;
    let Some(graph) = graph_of(rt.alloc(), words.as_slice(), records.as_slice())? else {
        println!(rt; "no object file")?;
        return Ok(());
    };
    let mut visited = vec![in rt.alloc(); false; COUNT as usize]?;
    match walked(&graph, visited.as_mut_slice()) {
        Some(Ok(size)) => println!(rt; "{size}")?,
        Some(Err(_)) => println!(rt; "no vertex")?,
        None => println!(rt; "too few marks")?,
    }
    Ok(())
}

fn main(rt: HostRuntime) -> anyhow::Result<()> {
    run(&rt)
}
