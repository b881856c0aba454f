// What compiling comes to.
use crate::images::SAMPLING;
use atoms::{Add, Atom};
use choice::Choice;
use compiler::compile;
use transaction::Refusal;
use word::Wrap;

// How many stages the plan of an image has, or why there is none.
fn stages<A: Atom>(atom: &A, image: &[u8], d: u32, p: u32) -> Result<usize, Refusal> {
    Ok(compile(atom, image, d, p, 8)?.placement.stages.count)
}

fn refuses<A: Atom>(atom: &A, image: &[u8], d: u32, p: u32, number: u8, place: usize) -> bool {
    stages(atom, image, d, p) == Err(Refusal { number, place })
}

#[test]
fn plans_and_refusals(rt: HostRuntime) {
    let atom = Choice(Add(Wrap));
    // f0 := s0; s0 := s1; s1 := f0
    let crossed = b"\x01\x01\x02\x03\x00\x00\x10\x00\x10\x11\x00\x11\x00";
    assert!(rt; stages(&atom, SAMPLING, 30, 2) == Ok(6));
    assert!(rt; stages(&atom, b"\x01\x01\x00\x00", 30, 10) == Ok(1));
    assert!(rt; refuses(&atom, SAMPLING, 4, 3, 10, 5) & refuses(&atom, crossed, 30, 10, 8, 0));
}

// The limits are looked at before the image.
#[test]
fn limits_and_settings(rt: HostRuntime) {
    let four = Choice(Choice(Choice(Choice(Add(Wrap)))));
    assert!(rt; refuses(&four, SAMPLING, 30, 10, 2, 123));
    assert!(rt; refuses(&four, SAMPLING, 0, 10, 1, 0) & refuses(&four, b"\x80", 33, 10, 1, 0));
}
