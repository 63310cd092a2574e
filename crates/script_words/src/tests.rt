use super::*;
use std::test::*;

// The number of words, or 100 for a cause that isn't the wanted one.
fn count(rt: &HostRuntime, line: &[u8], wanted: Cause) -> u64 {
    match &words_of_line(rt.alloc(), line) {
        Ok(words) => words.len(),
        Err(LineError::Refused(cause)) if *cause == wanted => 99,
        Err(_) => 100,
    }
}

#[test]
fn a_line_has_words_or_its_first_cause(rt: HostRuntime) {
    let long = [b'a'; 4097];
    let cases: [(&[u8], Cause, u64); 9] = [
        (b"", Cause::BadByte, 0),
        (b"   ", Cause::BadByte, 0),
        (b"# 'a", Cause::BadByte, 0),
        (b"  a 'b  c' d  ", Cause::BadByte, 3),
        (&long[..4096], Cause::LineTooLong, 1),
        (&long, Cause::LineTooLong, 99),
        (b"# \t", Cause::BadByte, 99),
        (b"a\r 'b", Cause::BadByte, 99),
        (b"a 'b", Cause::OpenQuote, 99),
    ];
    for (line, cause, wanted) in cases {
        assert_eq!(rt; count(&rt, line, cause), wanted);
    }
    let text: &[u8] = b"a\r\nb\r";
    let (first, rest) = first_line(text);
    assert_eq!(rt; first.len(), 1);
    assert_eq!(rt; rest.len(), 2);
    assert_eq!(rt; first_line(rest).0.len(), 2);
}
