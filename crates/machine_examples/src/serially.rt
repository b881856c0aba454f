// Machines beside the serial run, at words near the top.
use crate::images::{LOWER, RAISE, SET, SET_EITHER, SET_OR_LOWER, SET_OR_RAISE};
use atoms::{Add, Atom, ReadWrite, Subtract};
use choice::Choice;
use machine::{Machine, MachineFault};
use meaning::alone;
use std::process::Abort;
use word::{Arithmetic, Clamp, Wrap, at};

// The fields with which a packet leaves a machine that is empty.
fn through<A: Atom>(machine: &mut Machine<A>, packet: [u32; 2]) -> Result<[u32; 2], MachineFault> {
    let mut fields = [0, 0];
    machine.feed(&packet)?;
    for _ in 0..machine.depth() {
        machine.tick()?;
    }
    machine.take(&mut fields)?;
    Ok(fields)
}

// Whether a packet leaves a machine as it leaves the serial run, and state 0 keeps the same word.
fn passes<A: Atom>(
    machine: &mut Machine<A>,
    image: &[u8],
    packet: [u32; 2],
    words: &mut [u32],
) -> bool {
    let mut fields = packet;
    let ran = alone::<A::Arith>(image, &mut fields, words).is_ok();
    let left = through(machine, packet).is_ok_and(|taken| taken == fields);
    let kept = machine
        .peek(0)
        .is_ok_and(|(word, _)| word == at(words, 0, 0));
    ran && left && kept
}

// Whether that holds of each packet, on a machine at its start.
fn agrees<A: Atom + Drop>(atom: A, image: &[u8], packets: &[[u32; 2]], words: &mut [u32]) -> bool {
    let mut machine = Machine::new(atom);
    let started = machine.start(image, 30, 10, 8).is_ok();
    started
        && packets
            .iter()
            .all(|packet| passes(&mut machine, image, *packet, words))
}

fn every_atom_agrees<M: Arithmetic + Copy + Drop>(rt: &impl Abort, arithmetic: M) {
    let packets = [
        [4_294_967_295, 0],
        [4_294_967_294, 4_294_967_295],
        [1, 7],
        [4_294_967_295, 4_294_967_294],
        [0, 4_294_967_295],
        [2, 0],
        [2_147_483_648, 1],
        [4_294_967_293, 0],
    ];
    let below = agrees(ReadWrite(arithmetic), SET, &packets, &mut [0])
        & agrees(Add(arithmetic), RAISE, &packets, &mut [0])
        & agrees(Subtract(arithmetic), LOWER, &packets, &mut [0]);
    let above = agrees(
        Choice(ReadWrite(arithmetic)),
        SET_EITHER,
        &packets,
        &mut [0],
    ) & agrees(Choice(Add(arithmetic)), SET_OR_RAISE, &packets, &mut [0])
        & agrees(
            Choice(Subtract(arithmetic)),
            SET_OR_LOWER,
            &packets,
            &mut [0],
        );
    assert!(rt; below & above);
}

#[test]
fn sums_that_wrap(rt: HostRuntime) {
    every_atom_agrees(&rt, Wrap);
}

#[test]
fn sums_that_stop_at_the_ends(rt: HostRuntime) {
    every_atom_agrees(&rt, Clamp);
}
