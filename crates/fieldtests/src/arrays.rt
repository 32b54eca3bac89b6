// The mark array and the base array.
ghost use Rattle.serialize.specs.Objects.{Ascends};

use crate::cases::{place_of, two};
use markbase::{BaseArray, DataBytes, MarkArray};
use serialize::link::Link;

// One for each array, with what its `read` requires: a single one would take the reader and that as a function, and read no plainer.
fn marks_broken<'a>(
    bytes: &'a [u8],
    links: &'a [Link],
    count: usize,
    class_count: u16,
) -> Option<usize>
    requires { Ascends links.now }
{
    place_of(MarkArray::read(DataBytes { bytes, links }, count, class_count))
}

fn bases_broken<'a>(
    bytes: &'a [u8],
    links: &'a [Link],
    count: usize,
    class_count: u16,
) -> Option<usize>
    requires { Ascends links.now }
{
    place_of(BaseArray::read(DataBytes { bytes, links }, count, class_count))
}

#[test]
fn marks(rt: HostRuntime) {
    let links = [two(4, 30)];
    let bytes = [0, 2, 0, 1, 0, 0, 0, 0, 0, 0];
    assert_eq!(rt; marks_broken(&bytes, &links, 2, 2), None);
    // Another count than the coverage's, and a class that is not below the class count.
    assert_eq!(rt; marks_broken(&bytes, &links, 3, 2), Some(0));
    assert_eq!(rt; marks_broken(&bytes, &links, 65536, 2), Some(0));
    assert_eq!(rt; marks_broken(&bytes, &links, 2, 1), Some(2));
    // A vertex that ends inside a record, bytes after the last, a null that is not zero, a link in a class.
    assert_eq!(rt; marks_broken(&bytes[0..9], &links, 2, 2), Some(8));
    assert_eq!(rt; marks_broken(&[0, 1, 0, 1, 0, 0, 0], &links, 1, 2), Some(6));
    assert_eq!(rt;
        marks_broken(&[0, 2, 0, 1, 0, 0, 0, 0, 0, 9], &links, 2, 2),
        Some(8)
    );
    assert_eq!(rt; marks_broken(&bytes, &[two(6, 30)], 2, 2), Some(6));
}

#[test]
fn bases(rt: HostRuntime) {
    let links = [two(4, 30)];
    let bytes = [0, 2, 0, 0, 0, 0, 0, 0, 0, 0];
    assert_eq!(rt; bases_broken(&bytes, &links, 2, 2), None);
    assert_eq!(rt; bases_broken(&bytes, &links, 1, 2), Some(0));
    assert_eq!(rt; bases_broken(&bytes, &links, 2, 1), Some(6));
    assert_eq!(rt; bases_broken(&bytes, &links, 2, 3), Some(10));
    assert_eq!(rt;
        bases_broken(&[0, 2, 0, 1, 0, 0, 0, 0, 0, 0], &links, 2, 2),
        Some(2)
    );
}
