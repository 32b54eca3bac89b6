// Object files made of their parts, and graphs of such files.
ghost use Rattle.std.specs.Prelude.{◌≡◌, ◌++◌, ◌*◌, [], ◌∷◌, OnOk, IfOk, bit_and};
ghost use Rattle.walktests.specs.Files.{words, records_bytes, changed, file_of};

use graph::tables::Graph;
use graph::vertex::Capacity;
use serialize::object_file::{LinkRecord, ObjectFile, TAG};
use std::alloc::{AllocError, Global};
use workspace::supply::Supply;

// The link record of these numbers.
pub fn record(parent: u32, position: u32, child: u32, width: u32) -> LinkRecord
    ensures parent { result.parent ≡ parent }
    ensures position { result.position ≡ position }
    ensures child { result.child ≡ child }
    ensures width { result.width ≡ width }
{
    LinkRecord {
        parent,
        position,
        child,
        width,
    }
}

// Puts each number's four bytes behind the others.
fn put(file: &mut Vec<u8>, numbers: &[u32]) -> Result<(), AllocError>
    ensures { OnOk result (file.new.items ≡ file.old.items ++ words numbers.now) }
{
    for number in numbers {
        file.extend_from_slice(&number.to_be_bytes())?;
    }
    Ok(())
}

fn put_records(file: &mut Vec<u8>, records: &[LinkRecord]) -> Result<(), AllocError>
    ensures { OnOk result (file.new.items ≡ file.old.items ++ records_bytes records.now) }
{
    for r in records {
        put(file, &[r.parent, r.position, r.child, r.width])?;
    }
    Ok(())
}

// The last 32 bits of a number, changed by `off`.
fn word(n: usize, off: u32) -> u32
    ensures { result ≡ changed n off }
{
    ((n & 0xffff_ffff) as u32).wrapping_add(off)
}

// A file whose trailer is what its parts make it, each of its five words changed by `off`.
pub fn with_trailer(
    heap: Global,
    area: &[u8],
    lengths: &[u32],
    records: &[LinkRecord],
    off: [u32; 5],
) -> Result<Vec<u8>, AllocError>
    ensures { IfOk result (λ file. file.items ≡ file_of area.now lengths.now records.now off) }
{
    let mut file = Vec::from_slice(heap, area)?;
    put(&mut file, lengths)?;
    let records_at = file.len();
    put_records(&mut file, records)?;
    let trailer = [
        word(TAG as usize, off[0]),
        word(area.len(), off[1]),
        word(records_at, off[2]),
        word(lengths.len(), off[3]),
        word(records.len(), off[4]),
    ];
    put(&mut file, &trailer)?;
    Ok(file)
}

// A file made of its vertices' bytes, their lengths and its link records.
pub fn file(
    heap: Global,
    area: &[u8],
    lengths: &[u32],
    records: &[LinkRecord],
) -> Result<Vec<u8>, AllocError>
    ensures { IfOk result (λ file. file.items ≡ file_of area.now lengths.now records.now (0 ∷ 0 ∷ 0 ∷ 0 ∷ 0 ∷ [])) }
{
    with_trailer(heap, area, lengths, records, [0; 5])
}

// A graph of this capacity, without objects.
fn empty(heap: Global, capacity: Capacity) -> Result<Graph, AllocError> {
    let Supply {
        vertices,
        links,
        bytes,
        first_list: _,
        second_list: _,
        visited: _,
    } = Supply::with_capacity(heap, capacity)?;
    Ok(Graph::new(vertices, links, bytes))
}

// The graph of a file, if it can be loaded.
fn load(heap: Global, bytes: &[u8]) -> Result<Option<Graph>, AllocError> {
    let Some(file) = ObjectFile::read(bytes) else {
        return Ok(None);
    };
    let Ok(sound) = file.check_links() else {
        return Ok(None);
    };
    let needed = Capacity {
        vertices: file.trailer.vertices as usize,
        links: file.trailer.links as usize,
        bytes: file.trailer.lengths as usize,
    };
    let mut graph = empty(heap, needed)?;
    if graph.capacity() != needed {
        return Ok(None);
    }
    graph.fill(sound);
    Ok(Some(graph))
}

// A graph of vertices that have these numbers of words of four bytes, with these link records. None if it cannot be loaded.
pub fn graph_of(
    heap: Global,
    words: &[u32],
    records: &[LinkRecord],
) -> Result<Option<Graph>, AllocError> {
    let mut area = Vec::new(heap);
    let mut lengths = Vec::new(heap);
    // A loop that pushes, since each step makes both lists longer and may fail.
    for count in words {
        area.resize(area.len() + 4 * *count as usize, 0)?;
        lengths.push(count.wrapping_mul(4))?;
    }
    let file = file(heap, area.as_slice(), lengths.as_slice(), records)?;
    load(heap, file.as_slice())
}
