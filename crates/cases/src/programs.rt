// What the programs do at their edge: memory of the own stick, the buffers that are handed, hexadecimal digits, and how serving ends.
// The own stick has 64 blocks, so its memory 32,768 bytes; a reading gets room for 1,024.
use console::fits::{chosen_fit, inspected_memory};
use console::script::serve_script;
use console::serving::serve_lines;
use fields::digits::push_hex;
use medium::straight::Straight;
use medium::{Fitted, PAGE};
use options::read::{OWN_BLOCKS, OWN_LAYOUT, read_options};
use record::buffer::handed_buffer;
use std::alloc::{AllocError, Global};
use std::test::Fail;
use stick::stick::Running;
use stick::stick::power::start;

fn own_stick(heap: Global) -> Result<Running<Straight>, AllocError> {
    let memory = vec![in heap; 0u8; PAGE * OWN_BLOCKS as usize]?;
    Ok(start(Straight::fit(memory, Vec::new(heap)), &OWN_LAYOUT))
}

#[test]
fn memory_of_the_own_stick(rt: HostRuntime) -> Result<(), Fail> {
    let fit = read_options(rt.alloc(), &[]);
    let memory = fit.map(|fit| fit.zeroed_memory(rt.alloc()));
    assert!(rt; matches!(&memory, Ok(Ok(bytes)) if bytes.len() == 32768));
    Ok(())
}

#[test]
fn the_own_stick(rt: HostRuntime) -> Result<(), Fail> {
    let own = chosen_fit(&rt, "", &[]);
    let memory = match &own {
        Ok(Some(fit)) => inspected_memory(&rt, "", fit),
        _ => Ok(None),
    };
    assert!(rt; matches!(&memory, Ok(Some(bytes)) if bytes.len() == 32768));
    Ok(())
}

#[test]
fn readings_get_room(rt: HostRuntime) -> Result<(), Fail> {
    let heap = rt.alloc();
    let room = handed_buffer(heap, &[0x80, 6, 0, 1, 0, 0, 18, 0], Vec::new(heap))?;
    assert_eq!(rt; room.len(), 1024);
    let data = vec![in heap; 7u8; 3]?;
    let arriving = handed_buffer(heap, &[0x21, 0xFF, 0, 0, 0, 0, 0, 0], data)?;
    assert_eq!(rt; arriving.len(), 3);
    Ok(())
}

#[test]
fn pairs_follow_the_line(rt: HostRuntime) -> Result<(), Fail> {
    let mut line = b"7 ".to_vec(rt.alloc())?;
    push_hex(rt.alloc(), &mut line, &[0x0F, 0xA5])?;
    assert_eq!(rt; line.as_slice(), b"7 0FA5".as_slice());
    Ok(())
}

#[test]
fn each_line_once(rt: HostRuntime) -> Result<(), Fail> {
    let lines = "one\ntwo\nthree\n".as_bytes();
    let served = serve_lines(&rt, lines, "", 0u64, |sum, number, _| Ok(sum ^ number));
    assert!(rt; matches!(&served, Ok(Some(0))));
    Ok(())
}

#[test]
fn ends_at_a_malformed_line(rt: HostRuntime) -> Result<(), Fail> {
    let whole = serve_script(&rt, "W\n\nP\n".as_bytes(), own_stick(rt.alloc())?);
    assert!(rt; matches!(&whole, Ok(true)));
    let broken = serve_script(&rt, "W\nX\nP\n".as_bytes(), own_stick(rt.alloc())?);
    assert!(rt; matches!(&broken, Ok(false)));
    let torn = serve_script(&rt, b"W\n\xFF\n".as_slice(), own_stick(rt.alloc())?);
    assert!(rt; torn.is_err());
    Ok(())
}
