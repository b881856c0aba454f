// Answers as they are printed.
use crate::{Spaced, answer_all, answer_fault};
use std::alloc::AllocError;
use std::test::Fail;
use text::TextFault;

#[test]
fn faults_answered(rt: HostRuntime) -> Result<(), Fail> {
    let mut out = Vec::new(rt.alloc());
    answer_fault(&mut out, TextFault::Malformed(7))?;
    assert!(rt; out.as_slice() == b"malformed 7\n".as_slice());
    assert!(rt; answer_fault(&mut out, TextFault::Memory).is_err());
    assert_eq!(rt; out.len(), 12);
    Ok(())
}

#[test]
fn numbers_spaced(rt: HostRuntime) -> Result<(), Fail> {
    let alloc = rt.alloc();
    let none = Spaced(&[]);
    let three = Spaced(&[7, 0, 4294967295]);
    assert_eq!(rt; format!(in alloc; "packet{none}")?.as_str(), "packet");
    assert_eq!(rt;
        format!(in alloc; "packet{three}")?.as_str(),
        "packet 7 0 4294967295"
    );
    Ok(())
}

// Reading to the end and making a buffer for the answers want memory, and there is enough.
#[test]
fn input_read_to_its_end(rt: HostRuntime) {
    let answered = answer_all(&rt, b"a\nb".as_slice(), |input, _out| {
        if input == b"a\nb".as_slice() {
            Ok(())
        } else {
            Err(AllocError.into())
        }
    });
    assert!(rt; answered.is_ok());
}
