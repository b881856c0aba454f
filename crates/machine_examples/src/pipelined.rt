// Machines with several packets in them.
use crate::images::{RAISE, SAMPLING};
use atoms::{Add, Atom};
use calls::{Asked, Call, Reply, serve};
use choice::Choice;
use machine::{Machine, MachineFault};
use std::alloc::Global;
use std::test::Fail;
use transaction::Refusal;
use word::Wrap;

fn is_refused(answer: Result<(), MachineFault>, number: u8, place: usize) -> bool {
    match answer {
        Ok(()) => false,
        Err(fault) => Refusal::from(fault) == Refusal { number, place },
    }
}

// Feeds a packet and ticks, five times, and feeds once more: every place of a machine of five stages holds a packet.
fn fill<A: Atom>(machine: &mut Machine<A>) -> bool {
    let filled = (0..5).all(|_| machine.feed(&[7, 7]).is_ok() && machine.tick().is_ok());
    filled && machine.feed(&[7, 7]).is_ok()
}

// Takes twelve packets, of which the tenth is marked, with a tick after each, and feeds six.
fn drain<A: Atom>(machine: &mut Machine<A>) -> bool {
    (1..13).all(|n| {
        let mut fields = [7, 7];
        let taken = machine.take(&mut fields).is_ok();
        let mark = u32::from(n == 10);
        let ticked = machine.tick().is_ok();
        let fed = machine.feed(&[7, 7]).is_ok() || n > 6;
        taken && fields == [mark, mark] && ticked && fed
    })
}

// A full machine neither ticks nor takes another packet in, nor is it changed by a start that is refused;
// another start empties it and counts from 0.
#[test]
fn full_stalled_and_drained(rt: HostRuntime) {
    let mut machine = Machine::new(Choice(Add(Wrap)));
    let started = machine.start(SAMPLING, 30, 10, 8).is_ok();
    let filled = fill(&mut machine);
    let stalled = is_refused(machine.tick(), 14, 5) & is_refused(machine.feed(&[7, 7]), 12, 0);
    let refused = machine.start(b"\x80", 30, 10, 8).is_err();
    let drained = drain(&mut machine);
    assert!(rt; started & filled & stalled & refused & drained);
    assert!(rt;
        machine.start(SAMPLING, 30, 10, 8).is_ok() & (machine.peek(0).ok() == Some((0, 0)))
    );
}

fn asking(call: Call) -> Asked {
    Asked {
        call,
        answer: Ok(Reply::Done),
    }
}

// The take is refused, since its buffer has no room for two fields.
#[test]
fn served_with_a_refusal_among_the_calls(rt: HostRuntime) -> Result<(), Fail> {
    let heap: Global = rt.alloc();
    let mut asked = [
        asking(Call::Feed([5, 0].to_vec(heap)?)),
        asking(Call::Take(Vec::new(heap))),
        asking(Call::Tick),
        asking(Call::Peek(0)),
    ];
    let served = serve(Add(Wrap), RAISE, 30, 10, 8, &mut asked).is_ok();
    let short = Refusal {
        number: 11,
        place: 0,
    };
    let refused = asked[1]
        .answer
        .is_err_and(|fault| Refusal::from(fault) == short);
    let shown = asked[3].answer.ok() == Some(Reply::Shown(5, 1));
    assert!(rt; served & refused & shown);
    Ok(())
}
