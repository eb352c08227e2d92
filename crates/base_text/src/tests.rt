use crate::{Bytes, Parts, cut, number, positive_number, signed_number, word};
use std::test::Fail;

// What `cut` gives, with its parts or none.
type Cut<'a> = Option<(&'a [u8], &'a [u8])>;

#[test]
fn cuts_at_the_first_separator(rt: HostRuntime) {
    let cases: [(&[u8], Cut); 5] = [
        (b"1:2:3", Some((b"1", b"2:3"))),
        (b":7", Some((b"", b"7"))),
        (b"7:", Some((b"7", b""))),
        (b"", None),
        (b"1;2", None),
    ];
    for (text, want) in cases {
        assert!(rt; cut(text, b':') == want);
    }
}

#[test]
fn counts_empty_words_between_spaces(rt: HostRuntime) {
    let cases: [(&[u8], usize, Option<&[u8]>); 11] = [
        (b"mine metal 4", 0, Some(b"mine")),
        (b"mine metal 4", 2, Some(b"4")),
        (b"mine metal 4", 3, None),
        (b"a  b", 1, Some(b"")),
        (b"a  b", 2, Some(b"b")),
        (b" a", 0, Some(b"")),
        (b" a", 1, Some(b"a")),
        (b"a ", 1, Some(b"")),
        (b"a ", 2, None),
        (b"", 0, Some(b"")),
        (b"", 1, None),
    ];
    for (line, k, want) in cases {
        assert!(rt; word(line, k) == want);
    }
}

#[test]
fn parts_are_taken_one_by_one_and_stay_while_peeked_at(rt: HostRuntime) {
    let cases: [(&[u8], [Option<&[u8]>; 4]); 6] = [
        (b"a,bc,d", [Some(b"a"), Some(b"bc"), Some(b"d"), None]),
        (b"a,,d", [Some(b"a"), Some(b""), Some(b"d"), None]),
        (b",a", [Some(b""), Some(b"a"), None, None]),
        (b"a,", [Some(b"a"), Some(b""), None, None]),
        (b"a b", [Some(b"a b"), None, None, None]),
        (b"", [Some(b""), None, None, None]),
    ];
    for (text, wants) in cases {
        let mut parts = Parts::new(text, b',');
        for want in wants {
            assert!(rt; parts.is_at_end() == want.is_none());
            assert!(rt; parts.peek() == want);
            assert!(rt; parts.peek() == want);
            assert!(rt; parts.next() == want);
        }
        assert!(rt; parts.is_at_end());
        assert!(rt; parts.next() == None);
    }
}

#[test]
fn numbers_stop_at_the_bound(rt: HostRuntime) {
    let cases: [(&[u8], u64, Option<u64>); 9] = [
        (b"0", 0, Some(0)),
        (b"499", 499, Some(499)),
        (b"500", 499, None),
        (b"9", 8, None),
        (b"18446744073709551615", u64::MAX, Some(u64::MAX)),
        (b"18446744073709551616", u64::MAX, None),
        (b"99999999999999999999", u64::MAX, None),
        (b"100000000000000000000000000000", u64::MAX, None),
        (b"1000", 100, None),
    ];
    for (text, most, want) in cases {
        assert!(rt; number(text, most) == want);
        assert!(rt; positive_number(text, most) == want.filter(|n| *n != 0));
    }
}

#[test]
fn numbers_have_one_spelling(rt: HostRuntime) {
    let cases: [&[u8]; 12] = [
        b"", b"00", b"007", b"+7", b"-7", b"7 ", b" 7", b"7a", b"0x7", b"\xb2", b"1\xff", b"1\x00",
    ];
    for text in cases {
        assert!(rt; number(text, u64::MAX) == None);
    }
}

#[test]
fn signed_numbers_stay_in_range(rt: HostRuntime) {
    let cases: [(&[u8], i16, i16, Option<i16>); 14] = [
        (b"-130", -130, 260, Some(-130)),
        (b"-131", -130, 260, None),
        (b"260", -130, 260, Some(260)),
        (b"261", -130, 260, None),
        (b"0", -130, 260, Some(0)),
        (b"-0", -130, 260, None),
        (b"-", -130, 260, None),
        (b"--1", -130, 260, None),
        (b"+1", -130, 260, None),
        (b"-01", -130, 260, None),
        (b"-32768", i16::MIN, i16::MAX, Some(i16::MIN)),
        (b"32767", i16::MIN, i16::MAX, Some(i16::MAX)),
        (b"32768", i16::MIN, i16::MAX, None),
        (b"5", 6, 4, None),
    ];
    for (text, least, most, want) in cases {
        assert!(rt; signed_number(text, least, most) == want);
    }
}

#[test]
fn bytes_grow_line_by_line(rt: HostRuntime) -> Result<(), Fail> {
    let mut bytes = Bytes::new(rt.alloc());
    assert!(rt; bytes.is_empty());
    bytes.push(b"ok ")?;
    bytes.push_line(b"7")?;
    bytes.push_line(b"")?;
    bytes.push_line(b"end")?;
    assert!(rt; bytes.as_slice() == b"ok 7\n\nend\n".as_slice());
    assert_eq!(rt; bytes.len(), 10);
    bytes.truncate(11);
    assert_eq!(rt; bytes.len(), 10);
    bytes.truncate(4);
    assert!(rt; bytes.as_slice() == b"ok 7".as_slice());
    bytes.clear();
    bytes.push_line(b"again")?;
    assert!(rt; bytes.as_slice() == b"again\n".as_slice());
    let mut other = Bytes::new(rt.alloc());
    other.push(b"again")?;
    assert!(rt; bytes != other);
    other.push(b"\n")?;
    assert!(rt; bytes == other);
    Ok(())
}
