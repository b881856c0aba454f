// A plan as it is listed.
use crate::answer;
use std::test::Fail;

// f1 := s0 == 9; if f1; f0 := 1; s0 := 0; else; f0 := 0; s0 := s0 + 1; end
const SAMPLING: &[u8] =
    b"\x01\x02\x01\x08\x04\x01\x10\x18\x09\x06\x01\x00\x00\x18\x01\x00\x10\x18\x00\x07\x00\x00\x18\x00\x01\x10\x10\x18\x01\x08";

const LISTED: &[u8] = b"accepted 5
stage 1: line 2, line 4, line 6
stage 2: atom 0
stage 3: echo 1
stage 4: line 3
stage 5: line 7
setting 0: 0 0 0 0 0 3 0 0 3 9 0 2 4 1 3 1 0 0 0 0 0 0 0 0 0 0 0
";

#[test]
fn sampling_listed(rt: HostRuntime) -> Result<(), Fail> {
    let mut out = Vec::new(rt.alloc());
    answer(SAMPLING, &mut out)?;
    assert!(rt; out.as_slice() == LISTED);
    Ok(())
}

#[test]
fn refusal_told(rt: HostRuntime) -> Result<(), Fail> {
    let mut out = Vec::new(rt.alloc());
    answer(b"\x80", &mut out)?;
    assert!(rt; out.as_slice() == b"refused 3 0\n".as_slice());
    Ok(())
}
