// What the words choose, told by what a machine answers.
use crate::choices::Choices;
use crate::playing::Script;
use std::alloc::Global;
use std::test::Fail;

// An image under one, two and three ifs, which wants as many choices; one that adds 1 to the state, and one that
// subtracts 1.
const STARTS: &[u8] = b"start 0103010306000010180108 30 10 8
start 0103010506000601001018010808 30 10 8
start 0103010706000601060200101801080808 30 10 8
start 010101010110101801 30 10 8
start 010101010210101801 30 10 8
";

// s0 := s0 - 1, and one packet.
const COUNTDOWN: &[u8] = b"start 010101010210101801 30 10 8
feed 7
tick
peek 0
";

fn told(heap: Global, words: &[&str], input: &[u8]) -> anyhow::Result<Vec<u8>> {
    let mut choices = Choices::unnamed();
    for word in words {
        choices.read_word(word);
    }
    let mut out = Vec::new(heap);
    let script = Script {
        heap,
        choices,
        input,
    };
    script.play(&mut out)?;
    Ok(out)
}

#[test]
fn atoms_named(rt: HostRuntime) -> Result<(), Fail> {
    let heap = rt.alloc();
    let rw = b"refused 9 0\nrefused 9 0\nrefused 9 0\nrefused 9 0\nrefused 9 0\n";
    let add = b"refused 9 0\nrefused 9 0\nrefused 9 0\naccepted 1\nrefused 9 0\n";
    let sub = b"refused 9 0\nrefused 9 0\nrefused 9 0\naccepted 1\naccepted 1\n";
    assert!(rt; told(heap, &["rw"], STARTS)?.as_slice() == rw.as_slice());
    assert!(rt; told(heap, &["add"], STARTS)?.as_slice() == add.as_slice());
    assert!(rt; told(heap, &["sub"], STARTS)?.as_slice() == sub.as_slice());
    Ok(())
}

#[test]
fn choices_counted(rt: HostRuntime) -> Result<(), Fail> {
    let heap = rt.alloc();
    let one = b"accepted 2\nrefused 9 0\nrefused 9 0\naccepted 1\naccepted 1\n";
    let two = b"accepted 2\naccepted 2\nrefused 9 0\naccepted 1\nrefused 9 0\n";
    let three = b"accepted 2\naccepted 2\naccepted 2\nrefused 9 0\nrefused 9 0\n";
    let four = b"refused 2 123\nrefused 2 123\nrefused 2 123\nrefused 2 123\nrefused 2 123\n";
    assert!(rt; told(heap, &["choice"], STARTS)?.as_slice() == one.as_slice());
    assert!(rt; told(heap, &["choice", "add", "choice"], STARTS)?.as_slice() == two.as_slice());
    assert!(rt;
        told(heap, &["rw", "choice", "choice", "choice"], STARTS)?.as_slice() == three.as_slice()
    );
    assert!(rt;
        told(
            heap,
            &["choice", "choice", "choice", "choice", "choice"],
            STARTS
        )?
        .as_slice()
            == four.as_slice()
    );
    Ok(())
}

// Two choices over subtract, and no unknown word changes that.
#[test]
fn no_atoms_named(rt: HostRuntime) -> Result<(), Fail> {
    let heap = rt.alloc();
    let two = b"accepted 2\naccepted 2\nrefused 9 0\naccepted 1\naccepted 1\n";
    assert!(rt; told(heap, &[], STARTS)?.as_slice() == two.as_slice());
    assert!(rt; told(heap, &["clamp", "Choice", "", "read"], STARTS)?.as_slice() == two.as_slice());
    Ok(())
}

#[test]
fn sums_chosen(rt: HostRuntime) -> Result<(), Fail> {
    let heap = rt.alloc();
    let wrapped = b"accepted 1\nok\nok\nword 4294967295 count 1\n";
    let clamped = b"accepted 1\nok\nok\nword 0 count 1\n";
    assert!(rt; told(heap, &[], COUNTDOWN)?.as_slice() == wrapped.as_slice());
    assert!(rt; told(heap, &["clamp", "wrap"], COUNTDOWN)?.as_slice() == wrapped.as_slice());
    assert!(rt; told(heap, &["clamp"], COUNTDOWN)?.as_slice() == clamped.as_slice());
    assert!(rt; told(heap, &["sub", "clamp"], COUNTDOWN)?.as_slice() == clamped.as_slice());
    Ok(())
}

#[test]
fn places_drawn(rt: HostRuntime) -> Result<(), Fail> {
    let heap = rt.alloc();
    let drawn = b"accepted 1\nok\nok\nplaces - 1\nword 4294967295 count 1\n";
    assert!(rt; told(heap, &["trace"], COUNTDOWN)?.as_slice() == drawn.as_slice());
    Ok(())
}
