// Runs the coverage reader and the writers over tables of cases; what it must print stands in the file `stdout`.
#![tactic(auto)]

use coverage_writers::{CoverageFormat1, CoverageTable, CoverageWriter};
use layout::Coverage;
use std::io;

/// Tables of format 1, of no format, and broken ones.
const FORMAT_1: [(&str, &[u8]); 15] = [
    ("no bytes", &[]),
    ("half a format", &[0]),
    ("format 0", &[0, 0, 0, 0]),
    ("format 3", &[0, 3, 0, 0]),
    ("format 256", &[1, 0, 0, 0]),
    ("no count", &[0, 1]),
    ("half a count", &[0, 1, 0]),
    ("no glyphs", &[0, 1, 0, 0]),
    ("a byte behind no glyphs", &[0, 1, 0, 0, 0]),
    ("first glyph missing", &[0, 1, 0, 1]),
    ("half a glyph", &[0, 1, 0, 2, 0, 7, 0]),
    ("equal glyphs", &[0, 1, 0, 2, 0, 7, 0, 7]),
    ("falling glyphs", &[0, 1, 0, 3, 0, 7, 0, 9, 0, 8]),
    ("a byte behind", &[0, 1, 0, 1, 0, 7, 0]),
    ("two glyphs", &[0, 1, 0, 2, 0, 7, 255, 255]),
];

/// Tables of format 2, and broken ones.
const FORMAT_2: [(&str, &[u8]); 19] = [
    ("no count", &[0, 2]),
    ("no ranges", &[0, 2, 0, 0]),
    ("start missing", &[0, 2, 0, 1]),
    ("half a start", &[0, 2, 0, 1, 0]),
    ("end missing", &[0, 2, 0, 1, 0, 5]),
    ("half an end", &[0, 2, 0, 1, 0, 5, 0]),
    ("end below start", &[0, 2, 0, 1, 0, 5, 0, 4, 0, 0]),
    ("index missing", &[0, 2, 0, 1, 0, 5, 0, 5]),
    ("half an index", &[0, 2, 0, 1, 0, 5, 0, 5, 0]),
    ("first index", &[0, 2, 0, 1, 0, 5, 0, 5, 0, 1]),
    ("a byte behind", &[0, 2, 0, 1, 0, 5, 0, 5, 0, 0, 9]),
    (
        "start at the end before",
        &[0, 2, 0, 2, 0, 5, 0, 6, 0, 0, 0, 6, 0, 8, 0, 2],
    ),
    (
        "index counts ranges",
        &[0, 2, 0, 2, 0, 5, 0, 6, 0, 0, 0, 8, 0, 8, 0, 1],
    ),
    (
        "neighbouring ranges",
        &[0, 2, 0, 2, 0, 5, 0, 6, 0, 0, 0, 7, 0, 8, 0, 2],
    ),
    (
        "range to 65535",
        &[0, 2, 0, 2, 0, 5, 0, 6, 0, 0, 255, 254, 255, 255, 0, 2],
    ),
    ("two glyphs", &[0, 2, 0, 1, 0, 7, 0, 8, 0, 0]),
    ("65535 alone", &[0, 2, 0, 1, 255, 255, 255, 255, 0, 0]),
    ("all glyphs", &[0, 2, 0, 1, 0, 0, 255, 255, 0, 0]),
    (
        "behind all glyphs",
        &[0, 2, 0, 2, 0, 0, 255, 255, 0, 0, 0, 0, 0, 0, 0, 0],
    ),
];

/// Lists of glyphs: on both sides of three times the ranges, at the last glyph, and two that are no lists.
const LISTS: [&[u16]; 11] = [
    &[],
    &[7],
    &[65535],
    &[7, 8],
    &[1, 2, 3],
    &[1, 2, 3, 4],
    &[1, 2, 3, 5, 6, 7],
    &[1, 2, 3, 5, 6, 7, 8],
    &[65532, 65533, 65534, 65535],
    &[5, 5],
    &[6, 5],
];

/// Runs of glyphs, by the first and the last: 65,535, and one glyph too many.
const RUNS: [(u16, u16); 3] = [(0, 65534), (1, 65535), (0, 65535)];

/// How many of how many glyphs are taken.
const SHARES: [(u16, u16); 3] = [(1, 2), (3, 4), (4, 5)];

/// Whether the bytes are a table of just these glyphs, by its walk, its indices and its search.
fn covers(bytes: &[u8], glyphs: &[u16]) -> bool {
    let Ok(table) = Coverage::read(bytes) else {
        return false;
    };
    if table.count() != glyphs.len() || table.glyph(glyphs.len()).is_some() {
        return false;
    }
    table.glyphs().all(|(index, glyph)| {
        table.index_of(glyph).map(usize::from) == Some(index)
            && table.glyph(index) == Some(glyph)
            && glyphs.get(index) == Some(&glyph)
    })
}

/// Writes a list into a buffer that the table just fits, and into one that is a byte short.
fn try_writer<W: CoverageWriter>(
    rt: &HostRuntime,
    name: &str,
    writer: &W,
    glyphs: &[u16],
) -> io::Result<()> {
    let count = glyphs.len();
    let length = writer.length(glyphs);
    let mut exact = vec![in rt.alloc(); 0xa5u8; length]?;
    let fits = writer.write(glyphs, exact.as_mut_slice());
    let mut short = vec![in rt.alloc(); 0xa5u8; length.saturating_sub(1)]?;
    let tight = writer.write(glyphs, short.as_mut_slice());
    let kept = short.iter().all(|byte| *byte == 0xa5);
    let back = covers(exact.as_slice(), glyphs);
    println!(rt;
        "{name}: {count} glyphs, {length} bytes, written {fits}, read back {back}; a byte short: written {tight}, untouched {kept}"
    )
}

/// Both writers over one list.
fn try_both(rt: &HostRuntime, glyphs: &[u16]) -> io::Result<()> {
    try_writer(rt, "  format 1", &CoverageFormat1, glyphs)?;
    try_writer(rt, "  table", &CoverageTable, glyphs)
}

/// Both writers over the first `keep` of each `of` glyphs.
fn try_every(rt: &HostRuntime, keep: u16, of: u16) -> io::Result<()> {
    let glyphs: Vec<u16> = (0..=65535u16)
        .filter(|glyph| glyph.checked_rem(of).is_some_and(|rest| rest < keep))
        .collect(rt.alloc())?;
    println!(rt; "{keep} of each {of} glyphs")?;
    try_both(rt, glyphs.as_slice())
}

/// Both writers over the glyphs from `first` to `last`.
fn try_run(rt: &HostRuntime, first: u16, last: u16) -> io::Result<()> {
    let glyphs: Vec<u16> = (first..=last).collect(rt.alloc())?;
    println!(rt; "glyphs {first} to {last}")?;
    try_both(rt, glyphs.as_slice())
}

/// Both writers over a few glyphs, and the front of a buffer that is longer than the table.
fn try_list(rt: &HostRuntime, glyphs: &[u16]) -> io::Result<()> {
    println!(rt; "glyphs {glyphs:?}")?;
    try_both(rt, glyphs)?;
    let mut out = [0xa5u8; 18];
    let _ = CoverageTable.write(glyphs, &mut out);
    println!(rt; "  {out:?}")
}

/// What the reader says of bytes.
fn try_bytes(rt: &HostRuntime, what: &str, bytes: &[u8]) -> io::Result<()> {
    match Coverage::read(bytes) {
        Ok(table) => {
            let count = table.count();
            let first = table.glyph(0);
            let last = table.glyph(count.saturating_sub(1));
            let past = table.glyph(count);
            let top = table.index_of(65535);
            println!(rt;
                "{what}: {count} glyphs, first {first:?}, last {last:?}, past it {past:?}, index of 65535 {top:?}"
            )
        }
        Err(fault) => {
            let place = fault.place;
            println!(rt; "{what}: broken at {place}")
        }
    }
}

fn main(rt: HostRuntime) -> io::Result<()> {
    for (what, bytes) in FORMAT_1 {
        try_bytes(&rt, what, bytes)?;
    }
    for (what, bytes) in FORMAT_2 {
        try_bytes(&rt, what, bytes)?;
    }
    for glyphs in LISTS {
        try_list(&rt, glyphs)?;
    }
    for (first, last) in RUNS {
        try_run(&rt, first, last)?;
    }
    for (keep, of) in SHARES {
        try_every(&rt, keep, of)?;
    }
    Ok(())
}
