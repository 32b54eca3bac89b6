// The subtable and the extension.
use crate::cases::{broken, link, place_of, sound, two};
use markbase::{ExtensionSubtable, MarkBasePosFormat1};
use serialize::link::LinkWidth;
use std::test::Fail;

#[test]
fn subtables(rt: HostRuntime) {
    let links = [two(2, 7), two(4, 8), two(8, 9), two(10, 6)];
    let bytes = [0, 1, 0, 0, 0, 0, 0, 3, 0, 0, 0, 0];
    let cases = [
        sound(&bytes, &links),
        // The vertex ends before a field, inside one, or after the last.
        broken(&[], &[], 0),
        broken(&bytes[0..7], &links[0..2], 6),
        broken(&[0, 1, 0, 0, 0, 0, 0, 3, 0, 0, 0, 0, 0], &links, 12),
        // A word is forbidden.
        broken(&[0, 2, 0, 0, 0, 0, 0, 3, 0, 0, 0, 0], &links, 0),
        broken(&[0, 1, 0, 0, 0, 0, 0, 0, 0, 0, 0, 0], &links, 6),
        // A link is missing.
        broken(&bytes, &links[1..4], 2),
        broken(&bytes, &links[0..3], 10),
    ];
    for case in &cases {
        assert_eq!(rt; place_of(MarkBasePosFormat1::read(case.data())), case.place);
    }
}

#[test]
fn strange_links(rt: HostRuntime) {
    let bytes = [0, 1, 0, 0, 0, 0, 0, 3, 0, 0, 0, 0];
    // A link starts in a word, inside an offset field, or has another width.
    let in_word = [two(2, 7), two(4, 8), two(6, 1), two(8, 9), two(10, 6)];
    let inside = [two(3, 7), two(8, 9), two(10, 6)];
    let wide = [two(2, 7), two(4, 8), link(8, 9, LinkWidth::Four)];
    let cases = [
        broken(&bytes, &in_word, 6),
        broken(&bytes, &inside, 2),
        broken(&bytes, &wide, 8),
    ];
    for case in &cases {
        assert_eq!(rt; place_of(MarkBasePosFormat1::read(case.data())), case.place);
    }
}

#[test]
fn extensions(rt: HostRuntime) {
    let bytes = [0, 1, 0, 4, 0, 0, 0, 0];
    let four = [link(4, 3, LinkWidth::Four)];
    let narrow = [two(4, 3)];
    let in_word = [two(0, 3), link(4, 3, LinkWidth::Four)];
    let cases = [
        sound(&bytes, &four),
        broken(&bytes, &[], 4),
        broken(&bytes, &narrow, 4),
        broken(&[0, 1, 0, 9, 0, 0, 0, 0], &four, 2),
        broken(&bytes[0..4], &[], 4),
        broken(&bytes, &in_word, 0),
    ];
    for case in &cases {
        assert_eq!(rt; place_of(ExtensionSubtable::read(case.data())), case.place);
    }
}

#[test]
fn roles(rt: HostRuntime) -> Result<(), Fail> {
    let links = [two(2, 7), two(4, 8), two(8, 9), two(10, 6)];
    let case = sound(&[0, 1, 0, 0, 0, 0, 0, 3, 0, 0, 0, 0], &links);
    let table = MarkBasePosFormat1::read(case.data()).map_err(|_| Fail::new("broken"))?;
    assert_eq!(rt; table.mark_coverage, 7);
    assert_eq!(rt; table.base_coverage, 8);
    assert_eq!(rt; table.class_count, 3);
    assert_eq!(rt; table.mark_array, 9);
    assert_eq!(rt; table.base_array, 6);
    Ok(())
}
