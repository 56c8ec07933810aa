// Layout bytes that are inspected and fitted, and what the tables above them tell.
// Counts and places stand at their bounds.
use interfaces::descriptor::device_descriptor;
use interfaces::table::Interfaces;
use layout::table::Layout;
use model::ids::{Ids, Interface};
use model::refusal::number_of;
use std::alloc::Global;
use std::test::Fail;

// What inspection says of layout bytes with these counts, of interfaces and then of their units, and `units` places of one block each.
fn counted(heap: Global, counts: &[u8], units: u8) -> Result<u8, Fail> {
    let mut bytes = vec![in heap; 0u8; 6]?;
    bytes.extend_from_slice(counts)?;
    for start in 0..units {
        bytes.extend_from_slice(&[start, 0, 0, 0, 1, 0, 0, 0])?;
    }
    Ok(number_of(layout::read::inspect(bytes.as_slice(), 64)))
}

#[test]
fn layout_bytes(rt: HostRuntime) {
    let bytes = [0, 0, 0, 0, 0, 0, 1, 1, 0, 0, 0, 0, 40, 0, 0, 0, 0];
    assert_eq!(rt; number_of(layout::read::inspect(&bytes[0..16], 64)), 0);
    assert_eq!(rt; number_of(layout::read::inspect(&bytes[0..16], 40)), 0);
    assert_eq!(rt; number_of(layout::read::inspect(&bytes[0..16], 39)), 1);
    assert_eq!(rt; number_of(layout::read::inspect(&bytes[0..15], 64)), 1);
    assert_eq!(rt; number_of(layout::read::inspect(&bytes, 64)), 1);
    assert_eq!(rt; number_of(layout::read::inspect(&bytes[0..6], 64)), 1);
}

#[test]
fn product_bases(rt: HostRuntime) {
    let bases = [
        (0x08, 0x00, 1),
        (0xF0, 0xFF, 0),
        (0x10, 0x00, 0),
        (0x00, 0x08, 0),
    ];
    for (low, high, number) in bases.iter() {
        let bytes = [0, 0, *low, *high, 0, 0, 1, 1, 0, 0, 0, 0, 40, 0, 0, 0];
        assert_eq!(rt; number_of(layout::read::inspect(&bytes, 64)), *number);
    }
}

#[test]
fn counts_of_units(rt: HostRuntime) -> Result<(), Fail> {
    let heap = rt.alloc();
    assert_eq!(rt; counted(heap, &[4, 4, 4, 4, 4], 16)?, 0);
    assert_eq!(rt; counted(heap, &[0], 0)?, 1);
    assert_eq!(rt; counted(heap, &[5, 1, 1, 1, 1, 1], 5)?, 1);
    assert_eq!(rt; counted(heap, &[1, 0], 0)?, 1);
    assert_eq!(rt; counted(heap, &[1, 5], 5)?, 1);
    assert_eq!(rt; counted(heap, &[1, 2], 1)?, 1);
    Ok(())
}

#[test]
fn units_with_a_gap(rt: HostRuntime) {
    let bytes = [
        0, 0, 0, 0, 0, 0, 2, 1, 1, 2, 0, 0, 0, 38, 0, 0, 0, 50, 0, 0, 0, 10, 0, 0, 0,
    ];
    let layout = Layout::fit(&bytes, 64);
    let cases = [
        (1, None),
        (2, Some(0)),
        (39, Some(0)),
        (40, None),
        (49, None),
        (50, Some(1)),
        (59, Some(1)),
        (60, None),
    ];
    for (block, unit) in cases.iter() {
        assert_eq!(rt; layout.unit_holding(*block), *unit);
    }
}

#[test]
fn product_by_interfaces(rt: HostRuntime) {
    let bytes = [
        0x34, 0x12, 0x10, 0x00, 0x78, 0x56, 3, 1, 1, 1, 0, 0, 0, 0, 1, 0, 0, 0, 1, 0, 0, 0, 1, 0,
        0, 0, 2, 0, 0, 0, 1, 0, 0, 0,
    ];
    let negotiable = Interface {
        ids: Ids::Negotiable,
        jammed: false,
    };
    let plain = Interface {
        ids: Ids::ScsiBbb,
        jammed: false,
    };
    let mut interfaces = Interfaces::new();
    interfaces.push(negotiable);
    interfaces.push(plain);
    interfaces.push(negotiable);
    let device = device_descriptor(&Layout::fit(&bytes, 3), &interfaces);
    assert_eq!(rt;
        device,
        [
            0x12, 1, 0, 2, 0, 0, 0, 0x40, 0x34, 0x12, 0x15, 0x00, 0x78, 0x56, 0, 0, 1, 1,
        ]
    );
}

#[test]
fn unit_is_found_by_its_block(rt: HostRuntime) {
    let layout = Layout::fit(&[0, 0, 0, 0, 0, 0, 1, 1, 8, 0, 0, 0, 2, 0, 0, 0], 64);
    assert_eq!(rt; layout.unit_holding(7), None);
    assert_eq!(rt; layout.unit_holding(8), Some(0));
    assert_eq!(rt; layout.unit_holding(9), Some(0));
    assert_eq!(rt; layout.unit_holding(10), None);
}
