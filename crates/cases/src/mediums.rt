// Memory that is inspected and fitted, and blocks that are read and written, over both makes of medium.
// Numbers of pages, bad runs and lengths of buffers stand at their bounds.
use medium::straight::Straight;
use medium::turning::Turning;
use medium::{Fitted, Medium};
use model::layout::BadRun;
use model::refusal::{Fault, Refusal, number_of};
use std::alloc::{AllocError, Global};
use std::test::Fail;

// The number that a medium's call gives.
fn moved(res: Result<(), Fault>) -> u8 {
    number_of(res.map_err(Refusal::from))
}

fn run(start: u32, count: u32) -> BadRun {
    BadRun { start, count }
}

// What the two makes say of 16 blocks with these bad runs.
fn sixteen(heap: Global, runs: &[BadRun]) -> Result<(u8, u8), AllocError> {
    let memory = vec![in heap; 0u8; 8704]?;
    let straight = number_of(Straight::inspect(&memory.as_slice()[0..8192], runs));
    Ok((
        straight,
        number_of(Turning::inspect(memory.as_slice(), runs)),
    ))
}

#[test]
fn pages_of_memory(rt: HostRuntime) -> Result<(), Fail> {
    let cases: [(usize, u8, u8); 8] = [
        (0, 2, 2),
        (511, 2, 2),
        (512, 0, 2),
        (1023, 2, 2),
        (1024, 0, 0),
        (524288, 0, 0),
        (524800, 2, 0),
        (525312, 2, 2),
    ];
    for (bytes, as_straight, as_turning) in cases.iter() {
        let memory = vec![in rt.alloc(); 0u8; *bytes]?;
        assert_eq!(rt;
            number_of(Straight::inspect(memory.as_slice(), &[])),
            *as_straight
        );
        assert_eq!(rt;
            number_of(Turning::inspect(memory.as_slice(), &[])),
            *as_turning
        );
    }
    Ok(())
}

#[test]
fn bad_runs(rt: HostRuntime) -> Result<(), Fail> {
    let heap = rt.alloc();
    let runs = [
        run(0, 1),
        run(1, 1),
        run(2, 1),
        run(3, 1),
        run(4, 1),
        run(5, 1),
        run(6, 1),
        run(7, 1),
        run(8, 1),
    ];
    assert_eq!(rt; sixteen(heap, &runs[0..8])?, (0, 0));
    assert_eq!(rt; sixteen(heap, &runs)?, (2, 2));
    let passing = [[run(3, 1), run(4, 1)], [run(0, 1), run(15, 1)]];
    for runs in passing.iter() {
        assert_eq!(rt; sixteen(heap, runs)?, (0, 0));
    }
    let failing = [
        [run(3, 2), run(4, 1)],
        [run(4, 1), run(3, 1)],
        [run(3, 1), run(3, 1)],
        [run(3, 1), run(4, 0)],
        [run(3, 1), run(15, 2)],
        [run(3, 1), run(16, 1)],
        [run(3, 1), run(0xFFFFFFFF, 2)],
    ];
    for runs in failing.iter() {
        assert_eq!(rt; sixteen(heap, runs)?, (2, 2));
    }
    Ok(())
}

// Three turning blocks of nines; the second is bad.
fn turning(heap: Global) -> Result<Turning, AllocError> {
    let mut runs = Vec::new(heap);
    runs.push(run(1, 1))?;
    Ok(Turning::fit(vec![in heap; 9u8; 2048]?, runs))
}

#[test]
fn turning_blocks(rt: HostRuntime) -> Result<(), Fail> {
    let mut medium = turning(rt.alloc())?;
    assert_eq!(rt; medium.blocks(), 3);
    assert_eq!(rt; moved(medium.write(0, &[1; 512])), 0);
    assert_eq!(rt; moved(medium.write(0, &[2; 512])), 0);
    let mut buffer = [7u8; 512];
    assert_eq!(rt; moved(medium.read(0, &mut buffer)), 0);
    assert!(rt; buffer == [2; 512]);
    assert_eq!(rt; moved(medium.read(2, &mut buffer)), 0);
    assert!(rt; buffer == [9; 512]);
    Ok(())
}

#[test]
fn refused_writes(rt: HostRuntime) -> Result<(), Fail> {
    let mut medium = turning(rt.alloc())?;
    assert_eq!(rt; moved(medium.write(1, &[3; 512])), 4);
    assert_eq!(rt; moved(medium.write(3, &[3; 512])), 3);
    assert_eq!(rt; moved(medium.write(0, &[3; 511])), 3);
    let mut buffer = [7u8; 512];
    assert_eq!(rt; moved(medium.read(0, &mut buffer)), 0);
    assert!(rt; buffer == [9; 512]);
    Ok(())
}

#[test]
fn refused_reads(rt: HostRuntime) -> Result<(), Fail> {
    let medium = turning(rt.alloc())?;
    let mut short = [7u8; 511];
    assert_eq!(rt; moved(medium.read(1, &mut short)), 3);
    assert!(rt; short == [7; 511]);
    let mut buffer = [7u8; 512];
    assert_eq!(rt; moved(medium.read(1, &mut buffer)), 4);
    assert_eq!(rt; moved(medium.read(3, &mut buffer)), 3);
    assert!(rt; buffer == [7; 512]);
    Ok(())
}
