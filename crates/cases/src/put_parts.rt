// Examples of the search over the parts of a Put's data.
// It is the one that serves bad runs and units' places.
use model::part::Part;
use parts::reading::part_holding;

#[test]
fn part_is_found_by_its_byte(rt: HostRuntime) {
    // the passphrase 61 62 and no hint: 05 25 61 62 00, then 03 25 00
    let store = [
        Part {
            start: 0,
            length: 5,
        },
        Part {
            start: 5,
            length: 3,
        },
    ];
    let cases = [
        (0, Some(0)),
        (4, Some(0)),
        (5, Some(1)),
        (7, Some(1)),
        (8, None),
        (u32::MAX, None),
    ];
    for (byte, part) in cases.iter() {
        assert_eq!(rt; part_holding(&store, *byte), *part);
    }
}
