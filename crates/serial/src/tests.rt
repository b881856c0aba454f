// The chosen arithmetic, told by what packets are answered.
use crate::{answer_chosen, chooses_clamp};
use std::test::Fail;

// s0 := s0 - 1, and two packets
const COUNTDOWN: &[u8] = b"010101010210101801\n7\n8\n";

#[test]
fn sums_chosen(rt: HostRuntime) -> Result<(), Fail> {
    let heap = rt.alloc();
    let mut wrapped = Vec::new(heap);
    let mut clamped = Vec::new(heap);
    answer_chosen(false, heap, COUNTDOWN, &mut wrapped)?;
    answer_chosen(true, heap, COUNTDOWN, &mut clamped)?;
    assert!(rt;
        wrapped.as_slice()
            == b"image fields 1 states 1 statements 1\nfields 7 words 4294967295\nfields 8 words 4294967294\n".as_slice()
    );
    assert!(rt;
        clamped.as_slice()
            == b"image fields 1 states 1 statements 1\nfields 7 words 0\nfields 8 words 0\n".as_slice()
    );
    Ok(())
}

#[test]
fn one_word_chooses(rt: HostRuntime) {
    assert!(rt; chooses_clamp("clamp"));
    assert!(rt; !chooses_clamp("wrap") & !chooses_clamp("Clamp") & !chooses_clamp(""));
}
