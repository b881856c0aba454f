// Lines as they come, well-formed and not.
use crate::fault::TextFault;
use crate::{InputLines, decode_hex, decode_request, decode_words, line_end};
use std::test::Fail;

#[test]
fn hexadecimal_lines(rt: HostRuntime) -> Result<(), Fail> {
    let mut bytes = Vec::new(rt.alloc());
    decode_hex(b"\t0aF7 10\r", &mut bytes)?;
    assert!(rt; bytes.as_slice() == [10, 247, 16].as_slice());
    assert_eq!(rt; decode_hex(b"0g", &mut bytes), Err(TextFault::Malformed(1)));
    assert!(rt; bytes.is_empty());
    assert_eq!(rt;
        decode_hex(b"0 a", &mut bytes),
        Err(TextFault::Malformed(1))
    );
    assert_eq!(rt;
        decode_hex(b"0a1", &mut bytes),
        Err(TextFault::Malformed(3))
    );
    Ok(())
}

#[test]
fn decimal_lines(rt: HostRuntime) -> Result<(), Fail> {
    let mut words = Vec::new(rt.alloc());
    decode_words(b" 7  0042 4294967295 ", &mut words)?;
    assert!(rt; words.as_slice() == [7, 42, 4294967295].as_slice());
    assert_eq!(rt;
        decode_words(b"1 4294967296", &mut words),
        Err(TextFault::Malformed(11))
    );
    assert_eq!(rt;
        decode_words(b"12,3", &mut words),
        Err(TextFault::Malformed(2))
    );
    decode_words(b" ", &mut words)?;
    assert!(rt; words.is_empty());
    Ok(())
}

#[test]
fn ends_of_lines(rt: HostRuntime) {
    assert_eq!(rt; line_end(b"a\nbc", 0), 1);
    assert_eq!(rt; line_end(b"a\nbc", 2), 4);
    assert_eq!(rt; line_end(b"a\nbc", 9), 4);
}

#[test]
fn lines_of_an_input(rt: HostRuntime) -> Result<(), Fail> {
    let mut lines = InputLines::new(b"a\n\nbc\n");
    let mut read = Vec::new(rt.alloc());
    read.push(lines.next().ok_or("a line is missing")?)?;
    for line in lines {
        read.push(line)?;
    }
    assert_eq!(rt; read.len(), 3);
    assert!(rt; read[0] == b"a".as_slice());
    assert!(rt; read[1].is_empty());
    assert!(rt; read[2] == b"bc".as_slice());
    assert_eq!(rt; InputLines::new(b"a\nb").count(), 2);
    assert_eq!(rt; InputLines::new(b"").count(), 0);
    Ok(())
}

#[test]
fn faults(rt: HostRuntime) -> Result<(), Fail> {
    let alloc = rt.alloc();
    let fault = TextFault::Malformed(3).behind(4);
    assert_eq!(rt; fault, TextFault::Malformed(7));
    assert_eq!(rt; format!(in alloc; "{fault}")?.as_str(), "malformed 7");
    let memory = TextFault::Memory.behind(4);
    assert_eq!(rt; memory, TextFault::Memory);
    assert_eq!(rt; format!(in alloc; "{memory}")?.as_str(), "out of memory");
    Ok(())
}

#[test]
fn requests(rt: HostRuntime) -> Result<(), Fail> {
    let mut image = Vec::new(rt.alloc());
    let mut numbers = Vec::new(rt.alloc());
    decode_request(b"0a10 30 2 8", &mut image, &mut numbers)?;
    assert!(rt; image.as_slice() == [10, 16].as_slice());
    assert!(rt; numbers.as_slice() == [30, 2, 8].as_slice());
    decode_request(b"- 1", &mut image, &mut numbers)?;
    assert!(rt; image.is_empty());
    assert_eq!(rt;
        decode_request(b"0x 1", &mut image, &mut numbers),
        Err(TextFault::Malformed(1))
    );
    assert_eq!(rt;
        decode_request(b"0a 1 x", &mut image, &mut numbers),
        Err(TextFault::Malformed(5))
    );
    Ok(())
}
