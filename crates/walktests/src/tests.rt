// The sizes of what roots reach, and the marks afterwards.
use crate::files::{graph_of, record};
use graph::tables::Graph;
use serialize::object_file::LinkRecord;
use std::alloc::Global;
use std::process::Abort;
use std::test::Fail;
use walk::all::{NoVertex, size_of_all};
use walk::marks::clear;

fn graph(heap: Global, words: &[u32], records: &[LinkRecord]) -> Result<Graph, Fail> {
    graph_of(heap, words, records)?.ok_or_else(|| Fail::new("no object file"))
}

// Checks what a walk from the roots answers, and that it leaves no mark.
fn check_walk(
    rt: &impl Abort,
    graph: &Graph,
    roots: &[u32],
    answer: Result<usize, NoVertex>,
    note: &str,
) {
    let mut visited = [true; 8];
    clear(&mut visited);
    assert!(rt; graph.vertex_count() <= visited.len());
    assert_eq!(rt; size_of_all(graph, &mut visited, roots), answer, "{}", note);
    assert!(rt; !visited.contains(&true), "{}", note);
}

#[test]
fn leaf(rt: HostRuntime) -> Result<(), Fail> {
    let graph = graph(rt.alloc(), &[1, 2], &[])?;
    check_walk(&rt, &graph, &[], Ok(0), "no root");
    check_walk(&rt, &graph, &[1], Ok(8), "a leaf");
    check_walk(&rt, &graph, &[1, 1], Ok(8), "a leaf twice");
    check_walk(&rt, &graph, &[1, 0], Ok(12), "two leaves");
    Ok(())
}

#[test]
fn chain(rt: HostRuntime) -> Result<(), Fail> {
    let graph = graph(
        rt.alloc(),
        &[1, 2, 4],
        &[record(0, 0, 1, 2), record(1, 4, 2, 3)],
    )?;
    check_walk(&rt, &graph, &[0], Ok(28), "from its start");
    check_walk(&rt, &graph, &[1], Ok(24), "from its middle");
    check_walk(&rt, &graph, &[2, 1, 0], Ok(28), "from each of its vertices");
    Ok(())
}

#[test]
fn diamond(rt: HostRuntime) -> Result<(), Fail> {
    let links = [
        record(0, 0, 1, 2),
        record(0, 2, 2, 2),
        record(1, 0, 3, 4),
        record(2, 3, 3, 4),
    ];
    let graph = graph(rt.alloc(), &[1, 1, 2, 4], &links)?;
    check_walk(&rt, &graph, &[0], Ok(32), "the shared child once");
    check_walk(&rt, &graph, &[1, 2], Ok(28), "from both sides");
    Ok(())
}

#[test]
fn cycles(rt: HostRuntime) -> Result<(), Fail> {
    let heap = rt.alloc();
    let itself = graph(heap, &[1], &[record(0, 0, 0, 2)])?;
    check_walk(&rt, &itself, &[0], Ok(4), "a link to itself");
    let ring = graph(
        heap,
        &[1, 2, 4],
        &[record(0, 1, 1, 3), record(1, 0, 2, 2), record(2, 8, 0, 4)],
    )?;
    check_walk(&rt, &ring, &[0], Ok(28), "a ring");
    check_walk(&rt, &ring, &[2, 0], Ok(28), "a ring, entered twice");
    Ok(())
}

#[test]
fn no_vertex(rt: HostRuntime) -> Result<(), Fail> {
    let graph = graph(rt.alloc(), &[1, 2], &[record(0, 0, 1, 2)])?;
    check_walk(&rt, &graph, &[2], Err(NoVertex { index: 0 }), "at once");
    check_walk(
        &rt,
        &graph,
        &[0, 1, 7, 9],
        Err(NoVertex { index: 2 }),
        "after a walk",
    );
    Ok(())
}
