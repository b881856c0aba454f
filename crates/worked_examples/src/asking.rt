// The examples served, to lists of calls that are really made.
use crate::served::{serve_countdown_clamping, serve_countdown_wrapping, serve_sampling};
use calls::{Asked, Call, Reply};
use std::alloc::Global;
use std::test::Fail;

fn asking(call: Call) -> Asked {
    Asked {
        call,
        answer: Ok(Reply::Done),
    }
}

#[test]
fn sampling_counts_at_its_second_stage(rt: HostRuntime) -> Result<(), Fail> {
    let heap: Global = rt.alloc();
    let mut asked = [
        asking(Call::Feed([7, 7].to_vec(heap)?)),
        asking(Call::Tick),
        asking(Call::Peek(0)),
        asking(Call::Tick),
        asking(Call::Peek(0)),
    ];
    let served = serve_sampling(&mut asked).is_ok();
    let first = asked[2].answer.ok() == Some(Reply::Shown(0, 0));
    let second = asked[4].answer.ok() == Some(Reply::Shown(1, 1));
    assert!(rt; served & first & second);
    Ok(())
}

#[test]
fn countdown_wraps_and_clamps(rt: HostRuntime) -> Result<(), Fail> {
    let heap: Global = rt.alloc();
    let mut asked = [
        asking(Call::Feed([7].to_vec(heap)?)),
        asking(Call::Tick),
        asking(Call::Peek(0)),
    ];
    let wrapping = serve_countdown_wrapping(&mut asked).is_ok();
    let top = asked[2].answer.ok() == Some(Reply::Shown(4_294_967_295, 1));
    let clamping = serve_countdown_clamping(&mut asked).is_ok();
    let zero = asked[2].answer.ok() == Some(Reply::Shown(0, 1));
    assert!(rt; wrapping & top & clamping & zero);
    Ok(())
}
