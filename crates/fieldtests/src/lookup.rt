// The lookup's own fields.
ghost use Rattle.serialize.specs.Objects.{Ascends};

use crate::cases::{place_of, two};
use lookups::Lookup;
use markbase::DataBytes;
use serialize::link::Link;

fn lookup_broken<'a>(bytes: &'a [u8], links: &'a [Link]) -> Option<usize>
    requires { Ascends links.now }
{
    place_of(Lookup::read(DataBytes { bytes, links }))
}

#[test]
fn fields(rt: HostRuntime) {
    let links = [two(6, 1)];
    assert_eq!(rt; lookup_broken(&[0, 4, 0, 0, 0, 1, 0, 0], &links), None);
    assert_eq!(rt; lookup_broken(&[0, 4, 0, 0, 0, 0], &[]), None);
    assert_eq!(rt; lookup_broken(&[0, 5, 0, 0, 0, 1, 0, 0], &links), Some(0));
    assert_eq!(rt; lookup_broken(&[0, 4, 0, 0, 0, 1, 0, 0], &[]), Some(6));
    assert_eq!(rt;
        lookup_broken(&[0, 4, 0, 0, 0, 2, 0, 0, 0, 0], &links),
        Some(8)
    );
    // The word of the mark filtering set stands there exactly if the flag says so.
    assert_eq!(rt;
        lookup_broken(&[0, 9, 0, 16, 0, 1, 0, 0, 1, 2], &links),
        None
    );
    assert_eq!(rt; lookup_broken(&[0, 4, 0, 16, 0, 1, 0, 0], &links), Some(8));
    assert_eq!(rt;
        lookup_broken(&[0, 4, 0, 8, 0, 1, 0, 0, 1, 2], &links),
        Some(8)
    );
}
