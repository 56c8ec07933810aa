// Control transfers of a stick that has power.
// Each tells the number, the bytes answered and what the handed buffer then holds.
use medium::Fitted;
use medium::straight::Straight;
use model::refusal::Refusal;
use std::alloc::{AllocError, Global};
use std::test::Fail;
use stick::stick::Running;
use stick::stick::power::start;

// The number that a transfer gives, and how many bytes it answers.
fn told(res: Result<usize, Refusal>) -> (u8, usize) {
    match res {
        Ok(count) => (0, count),
        Err(refusal) => (u8::from(refusal), 0),
    }
}

// A stick on 64 straight good blocks of zeros.
fn stick(heap: Global, layout: &[u8]) -> Result<Running<Straight>, AllocError> {
    let memory = vec![in heap; 0u8; 32768]?;
    Ok(start(Straight::fit(memory, Vec::new(heap)), layout))
}

#[test]
fn readings(rt: HostRuntime) -> Result<(), Fail> {
    let mut stick = stick(rt.alloc(), &[])?;
    let bundle = [0x80, 0x06, 0x00, 0x02, 0x00, 0x00, 0xFF, 0xFF];
    let mut buffer = [0xEE; 11];
    assert_eq!(rt; told(stick.control(&bundle, &mut buffer[0..8])), (14, 0));
    assert_eq!(rt; buffer, [0xEE; 11]);
    assert_eq!(rt; told(stick.control(&bundle, &mut buffer)), (0, 9));
    assert_eq!(rt; buffer, [9, 2, 9, 0, 0, 1, 0, 0x80, 0x32, 0xEE, 0xEE]);
    let none = [0x80, 0x06, 0x00, 0x01, 0x00, 0x00, 0x00, 0x00];
    assert_eq!(rt; told(stick.control(&none, &mut [])), (0, 0));
    let string = [0x80, 0x06, 0x00, 0x03, 0x00, 0x00, 0xFF, 0x00];
    assert_eq!(rt; told(stick.control(&string, &mut buffer[9..11])), (7, 0));
    assert_eq!(rt; buffer, [9, 2, 9, 0, 0, 1, 0, 0x80, 0x32, 0xEE, 0xEE]);
    Ok(())
}

#[test]
fn arriving_bytes(rt: HostRuntime) -> Result<(), Fail> {
    let mut stick = stick(rt.alloc(), &[])?.power_cycle();
    let setup = [0x80, 0x06, 0x00, 0x02, 0x00, 0x00, 0xFF, 0xFF, 0x00];
    let mut buffer = [0xEE; 4];
    assert_eq!(rt; told(stick.control(&setup[0..7], &mut buffer)), (7, 0));
    assert_eq!(rt; buffer, [0; 4]);
    let mut buffer = [0xEE; 4];
    assert_eq!(rt; told(stick.control(&setup, &mut buffer)), (7, 0));
    assert_eq!(rt; buffer, [0; 4]);
    let mut buffer = [0xEE; 4];
    assert_eq!(rt;
        told(stick.control(&[0x00, 0x09, 1, 0, 0, 0, 0, 0], &mut buffer)),
        (7, 0)
    );
    assert_eq!(rt; buffer, [0; 4]);
    Ok(())
}
