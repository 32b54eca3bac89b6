// What `load` answers, and what it leaves.
use graph::vertex::Capacity;
use refusal::{Refusal, Shortage};
use serialize::object_file::LinkRecord;
use std::alloc::Global;
use std::process::Abort;
use std::test::Fail;
use walktests::files::{file, record, with_trailer};
use workspace::state::Workspace;
use workspace::supply::Supply;

// Not one function with what `session` makes: it is two calls, and each has sizes of its own.
fn workspace(heap: Global, vertices: usize, links: usize, bytes: usize) -> Result<Workspace, Fail> {
    let capacity = Capacity {
        vertices,
        links,
        bytes,
    };
    Ok(Workspace::new(Supply::with_capacity(heap, capacity)?))
}

// Three vertices of 4, 8 and 2 bytes; the second links to each.
const AREA: [u8; 14] = [1, 2, 3, 4, 0, 0, 0, 0, 0, 0, 0, 9, 0, 0];

const LENGTHS: [u32; 3] = [4, 8, 2];

// The second's links.
fn linked() -> [LinkRecord; 3] {
    [record(1, 0, 0, 2), record(1, 2, 1, 3), record(1, 5, 2, 2)]
}

fn check_load(
    rt: &impl Abort,
    heap: Global,
    bytes: &[u8],
    answer: Result<u32, Refusal>,
    note: &str,
) -> Result<(), Fail> {
    let mut w = workspace(heap, 8, 8, 40)?;
    assert_eq!(rt; w.load(bytes), answer, "{}", note);
    Ok(())
}

fn check_records(
    rt: &impl Abort,
    heap: Global,
    records: [LinkRecord; 3],
    answer: Result<u32, Refusal>,
    note: &str,
) -> Result<(), Fail> {
    let bytes = file(heap, &AREA, &LENGTHS, &records)?;
    check_load(rt, heap, bytes.as_slice(), answer, note)
}

#[test]
fn shortest(rt: HostRuntime) -> Result<(), Fail> {
    let heap = rt.alloc();
    check_load(&rt, heap, &[], Err(Refusal::BadFile), "empty")?;
    let none = file(heap, &[], &[], &[])?;
    assert!(rt; none.len() == 20);
    check_load(&rt, heap, none.as_slice(), Ok(0), "20 bytes")?;
    check_load(
        &rt,
        heap,
        &none.as_slice()[1..20],
        Err(Refusal::BadFile),
        "19 bytes",
    )?;
    let one = file(heap, &[7], &[1], &[])?;
    check_load(&rt, heap, one.as_slice(), Ok(1), "one byte")
}

// Each word of the trailer one too large and one too small.
#[test]
fn trailer_words(rt: HostRuntime) -> Result<(), Fail> {
    let heap = rt.alloc();
    let right = file(heap, &AREA, &LENGTHS, &linked())?;
    check_load(&rt, heap, right.as_slice(), Ok(3), "right")?;
    // By number: `i` is the place of the word that is changed.
    for i in 0..5usize {
        for change in [1, 0xffff_ffff] {
            let mut off = [0; 5];
            off[i] = change;
            let wrong = with_trailer(heap, &AREA, &LENGTHS, &linked(), off)?;
            check_load(
                &rt,
                heap,
                wrong.as_slice(),
                Err(Refusal::BadFile),
                "trailer",
            )?;
        }
    }
    Ok(())
}

// Lengths that do not add up to the bytes before them, in 32 bits or at all.
#[test]
fn lengths(rt: HostRuntime) -> Result<(), Fail> {
    let heap = rt.alloc();
    let rows = [
        [4, 8, 3],
        [4, 8, 1],
        [0xffff_ffff, 13, 2],
        [0xffff_fff2, 14, 14],
        [0xffff_ffff, 0xffff_ffff, 16],
        [0, 0, 0],
    ];
    for row in rows {
        let wrong = file(heap, &AREA, &row, &[])?;
        check_load(
            &rt,
            heap,
            wrong.as_slice(),
            Err(Refusal::BadFile),
            "lengths",
        )?;
    }
    let right = file(heap, &AREA, &[0, 14, 0], &[])?;
    check_load(&rt, heap, right.as_slice(), Ok(3), "empty vertices")
}

// Each capacity met exactly and passed by one, and the lowest number where several are.
#[test]
fn capacities(rt: HostRuntime) -> Result<(), Fail> {
    let heap = rt.alloc();
    let bytes = file(heap, &AREA, &LENGTHS, &linked())?;
    let rows = [
        (3, 3, 14, Ok(3)),
        (2, 3, 14, Err(Refusal::FileTooLarge(Shortage::Vertices))),
        (3, 2, 14, Err(Refusal::FileTooLarge(Shortage::Links))),
        (3, 3, 13, Err(Refusal::FileTooLarge(Shortage::Bytes))),
        (2, 2, 13, Err(Refusal::FileTooLarge(Shortage::Vertices))),
        (3, 2, 13, Err(Refusal::FileTooLarge(Shortage::Links))),
    ];
    for (vertices, links, most, answer) in rows {
        let mut w = workspace(heap, vertices, links, most)?;
        assert_eq!(rt; w.load(bytes.as_slice()), answer);
    }
    Ok(())
}

// A table above the limit counts as the limit.
#[test]
fn limits(rt: HostRuntime) -> Result<(), Fail> {
    let heap = rt.alloc();
    let most = vec![in heap; 0; 20_000]?;
    let more = vec![in heap; 0; 20_001]?;
    let mut w = workspace(heap, 20_001, 1, 1)?;
    assert_eq!(rt;
        w.load(file(heap, &[], most.as_slice(), &[])?.as_slice()),
        Ok(20_000)
    );
    assert_eq!(rt;
        w.load(file(heap, &[], more.as_slice(), &[])?.as_slice()),
        Err(Refusal::FileTooLarge(Shortage::Vertices))
    );
    assert_eq!(rt; w.vertex_count(), 20_000);
    Ok(())
}

// Lists and visit marks that are one entry too short; the visit marks are measured by the table, not by the file.
#[test]
fn lists(rt: HostRuntime) -> Result<(), Fail> {
    let heap = rt.alloc();
    let bytes = file(heap, &AREA, &LENGTHS, &linked())?;
    let rows = [
        (65_535, 65_535, 8, Ok(3)),
        (65_536, 65_536, 9, Ok(3)),
        (
            65_534,
            65_535,
            8,
            Err(Refusal::FileTooLarge(Shortage::Lists)),
        ),
        (
            65_535,
            65_534,
            8,
            Err(Refusal::FileTooLarge(Shortage::Lists)),
        ),
        (
            65_535,
            65_535,
            7,
            Err(Refusal::FileTooLarge(Shortage::Lists)),
        ),
        (0, 0, 0, Err(Refusal::FileTooLarge(Shortage::Lists))),
    ];
    for (first, second, marks, answer) in rows {
        let capacity = Capacity {
            vertices: 8,
            links: 8,
            bytes: 40,
        };
        let mut supply = Supply::with_capacity(heap, capacity)?;
        supply.first_list = vec![in heap; 7; first]?;
        supply.second_list = vec![in heap; 7; second]?;
        supply.visited = vec![in heap; true; marks]?;
        let mut w = Workspace::new(supply);
        assert_eq!(rt; w.load(bytes.as_slice()), answer);
    }
    Ok(())
}

// Each row breaks a rule at the first, a middle and the last record.
fn check_each(rt: &impl Abort, heap: Global, rows: &[(&str, [LinkRecord; 3])]) -> Result<(), Fail> {
    for (note, broken) in rows {
        for (i, one) in broken.iter().enumerate() {
            let mut all = linked();
            all[i] = *one;
            let answer = Err(Refusal::BadLink { record: i as u32 });
            check_records(rt, heap, all, answer, note)?;
        }
    }
    Ok(())
}

// The rules of a link record for its vertices and its width.
#[test]
fn records(rt: HostRuntime) -> Result<(), Fail> {
    let rows = [
        (
            "parent",
            [record(3, 0, 0, 2), record(3, 2, 1, 3), record(3, 5, 2, 2)],
        ),
        (
            "child",
            [record(1, 0, 3, 2), record(1, 2, 3, 3), record(1, 5, 3, 2)],
        ),
        (
            "width 0",
            [record(1, 0, 0, 0), record(1, 2, 1, 0), record(1, 5, 2, 0)],
        ),
        (
            "width 1",
            [record(1, 0, 0, 1), record(1, 2, 1, 1), record(1, 5, 2, 1)],
        ),
        (
            "width 5",
            [record(1, 0, 0, 5), record(1, 2, 1, 5), record(1, 5, 2, 5)],
        ),
    ];
    check_each(&rt, rt.alloc(), &rows)
}

// The rules for its field.
#[test]
fn fields(rt: HostRuntime) -> Result<(), Fail> {
    let rows = [
        (
            "past the end",
            [record(1, 7, 0, 2), record(1, 6, 1, 3), record(1, 8, 2, 2)],
        ),
        (
            "far past the end",
            [
                record(1, 0xffff_ffff, 0, 2),
                record(1, 0xffff_fffe, 1, 3),
                record(1, 0xffff_ffff, 2, 4),
            ],
        ),
        (
            "in another vertex",
            [record(0, 3, 0, 2), record(0, 2, 1, 3), record(2, 1, 2, 2)],
        ),
        (
            "not zero",
            [record(0, 0, 0, 2), record(1, 5, 1, 3), record(1, 6, 2, 2)],
        ),
    ];
    check_each(&rt, rt.alloc(), &rows)
}

// Each row breaks a rule at one record, only with one before it.
fn check_order(
    rt: &impl Abort,
    heap: Global,
    rows: &[(&str, u32, [LinkRecord; 3])],
) -> Result<(), Fail> {
    for (note, i, all) in rows {
        let answer = Err(Refusal::BadLink { record: *i });
        check_records(rt, heap, *all, answer, note)?;
    }
    Ok(())
}

// Equal, overlapping, and out of order by position.
#[test]
fn order(rt: HostRuntime) -> Result<(), Fail> {
    let rows = [
        (
            "equal",
            1,
            [record(1, 0, 0, 2), record(1, 0, 0, 2), record(1, 5, 2, 2)],
        ),
        (
            "overlap",
            1,
            [record(1, 0, 0, 2), record(1, 1, 1, 3), record(1, 5, 2, 2)],
        ),
        (
            "overlap by one",
            2,
            [record(1, 0, 0, 2), record(1, 2, 1, 3), record(1, 4, 2, 2)],
        ),
        (
            "inside",
            2,
            [record(1, 0, 0, 2), record(1, 2, 1, 4), record(1, 3, 2, 2)],
        ),
        (
            "position",
            1,
            [record(1, 2, 0, 2), record(1, 0, 1, 2), record(1, 5, 2, 2)],
        ),
        (
            "position of the last",
            2,
            [record(1, 0, 0, 2), record(1, 4, 1, 2), record(1, 2, 2, 2)],
        ),
    ];
    check_order(&rt, rt.alloc(), &rows)
}

// Out of order by parent.
#[test]
fn order_of_parents(rt: HostRuntime) -> Result<(), Fail> {
    let rows = [
        (
            "parent",
            1,
            [record(2, 0, 0, 2), record(1, 0, 1, 2), record(1, 5, 2, 2)],
        ),
        (
            "parent of the last",
            2,
            [record(1, 0, 0, 2), record(2, 0, 1, 2), record(1, 5, 2, 2)],
        ),
    ];
    check_order(&rt, rt.alloc(), &rows)
}

// A self-link, a cycle, a child with two parents, fields side by side and of all widths.
#[test]
fn accepted(rt: HostRuntime) -> Result<(), Fail> {
    let heap = rt.alloc();
    let zeros = [0; 14];
    let rows = [
        [record(0, 0, 0, 4), record(1, 0, 1, 2), record(2, 0, 2, 2)],
        [record(0, 0, 1, 2), record(1, 0, 2, 2), record(2, 0, 0, 2)],
        [record(0, 0, 2, 2), record(0, 2, 2, 2), record(1, 0, 2, 2)],
        [record(1, 0, 0, 2), record(1, 2, 0, 3), record(1, 5, 0, 3)],
    ];
    for all in rows {
        let bytes = file(heap, &zeros, &LENGTHS, &all)?;
        check_load(&rt, heap, bytes.as_slice(), Ok(3), "accepted")?;
    }
    Ok(())
}

fn check_vertex(
    rt: &impl Abort,
    w: &Workspace,
    v: u32,
    bytes: &[u8],
    links: usize,
) -> Result<(), Fail> {
    let object = w.vertex(v).ok_or_else(|| Fail::new("no such vertex"))?;
    assert_eq!(rt; object.bytes, bytes);
    assert_eq!(rt; object.links.len(), links);
    Ok(())
}

// The objects are the file's; a refusal leaves them, and a second file takes their place.
#[test]
fn objects(rt: HostRuntime) -> Result<(), Fail> {
    let heap = rt.alloc();
    let mut w = workspace(heap, 8, 8, 40)?;
    assert_eq!(rt; w.vertex_count(), 0);
    assert_eq!(rt; w.made(), 0);
    assert_eq!(rt;
        w.load(file(heap, &AREA, &LENGTHS, &linked())?.as_slice()),
        Ok(3)
    );
    assert_eq!(rt; w.load(&[]), Err(Refusal::BadFile));
    assert_eq!(rt; w.vertex_count(), 3);
    assert_eq!(rt; w.mark(), 14);
    assert_eq!(rt; w.made(), 0);
    check_vertex(&rt, &w, 0, &AREA[0..4], 0)?;
    check_vertex(&rt, &w, 1, &AREA[4..12], 3)?;
    check_vertex(&rt, &w, 2, &AREA[12..14], 0)?;
    assert!(rt; w.vertex(3).is_none());
    assert_eq!(rt; w.load(file(heap, &[5], &[0, 1], &[])?.as_slice()), Ok(2));
    assert_eq!(rt; w.mark(), 1);
    check_vertex(&rt, &w, 0, &[], 0)?;
    check_vertex(&rt, &w, 1, &[5], 0)
}
