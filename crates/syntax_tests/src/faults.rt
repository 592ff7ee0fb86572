// Texts with a fault, and their neighbours that have none.
use syntax::take_census;

// The number and the place of the first fault.
fn first_fault(text: &[u8]) -> Option<(u8, usize)> {
    let fault = take_census(text).err()?;
    Some((fault.number(), fault.place()))
}

const ACCEPTED: Option<(u8, usize)> = None;

#[test]
fn a_token_of_32_bytes_is_accepted(rt: HostRuntime) {
    assert_eq!(rt; first_fault(b"abcdefghijklmnopqrstuvwxyzabcdef"), ACCEPTED);
    assert_eq!(rt; first_fault(b"                                "), ACCEPTED);
    assert_eq!(rt;
        first_fault(b"\"abcdefghijklmnopqrstuvwxyzabcd\""),
        ACCEPTED
    );
    assert_eq!(rt; first_fault(b";abcdefghijklmnopqrstuvwxyzabcd\n"), ACCEPTED);
    assert_eq!(rt; first_fault(b"\n\n"), ACCEPTED);
}

#[test]
fn a_token_of_33_bytes_is_too_long(rt: HostRuntime) {
    assert_eq!(rt;
        first_fault(b"abcdefghijklmnopqrstuvwxyzabcdefg"),
        Some((3, 0))
    );
    assert_eq!(rt;
        first_fault(b"(abcdefghijklmnopqrstuvwxyzabcdefg"),
        Some((3, 1))
    );
    assert_eq!(rt;
        first_fault(b"a                                 "),
        Some((3, 1))
    );
    assert_eq!(rt;
        first_fault(b"\"abcdefghijklmnopqrstuvwxyzabcde\""),
        Some((3, 0))
    );
    assert_eq!(rt;
        first_fault(b"a ;abcdefghijklmnopqrstuvwxyzabcde\n"),
        Some((3, 2))
    );
}

#[test]
fn a_foreign_byte_is_told_at_its_own_place(rt: HostRuntime) {
    assert_eq!(rt; first_fault(b"\x00"), Some((1, 0)));
    assert_eq!(rt; first_fault(b"\x7fabc"), Some((1, 0)));
    assert_eq!(rt; first_fault(b"abc\x80"), Some((1, 3)));
    assert_eq!(rt; first_fault(b"a\r\n"), Some((1, 1)));
    assert_eq!(rt; first_fault(b"\"ab\xff\""), Some((1, 3)));
    assert_eq!(rt; first_fault(b"a ;b\x1fc\n"), Some((1, 4)));
    assert_eq!(rt;
        first_fault(b"\"a quoted of 40 bytes with \x01 inside it..\""),
        Some((1, 27))
    );
}

#[test]
fn an_unfinished_token_is_told_at_its_first_byte(rt: HostRuntime) {
    assert_eq!(rt; first_fault(b"\""), Some((2, 0)));
    assert_eq!(rt; first_fault(b"a \"bc"), Some((2, 2)));
    assert_eq!(rt; first_fault(b"a \"b\nc\""), Some((2, 2)));
    assert_eq!(rt; first_fault(b"(;"), Some((2, 1)));
    assert_eq!(rt; first_fault(b"a\n; to the end"), Some((2, 2)));
    assert_eq!(rt;
        first_fault(b"\"a quoted of 40 bytes that never ends ..."),
        Some((2, 0))
    );
}

#[test]
fn brackets_match(rt: HostRuntime) {
    assert_eq!(rt; first_fault(b")"), Some((4, 0)));
    assert_eq!(rt; first_fault(b"a)"), Some((4, 1)));
    assert_eq!(rt; first_fault(b"())"), Some((4, 2)));
    assert_eq!(rt; first_fault(b"("), Some((4, 0)));
    assert_eq!(rt; first_fault(b"(("), Some((4, 1)));
    assert_eq!(rt; first_fault(b"(()"), Some((4, 0)));
    assert_eq!(rt; first_fault(b"(()(a"), Some((4, 3)));
    assert_eq!(rt; first_fault(b"()()(())"), ACCEPTED);
}

#[test]
fn sixteen_forms_may_be_open(rt: HostRuntime) {
    assert_eq!(rt; first_fault(b"(((((((((((((((())))))))))))))))"), ACCEPTED);
    assert_eq!(rt;
        first_fault(b"((((((((((((((((()))))))))))))))))"),
        Some((5, 16))
    );
    assert_eq!(rt;
        first_fault(b"()((((((((((((((((()))))))))))))))))"),
        Some((5, 18))
    );
}

#[test]
fn the_first_fault_counts(rt: HostRuntime) {
    assert_eq!(rt; first_fault(b")\x00"), Some((4, 0)));
    assert_eq!(rt; first_fault(b"\x00)"), Some((1, 0)));
    assert_eq!(rt; first_fault(b"(\""), Some((2, 1)));
}

#[test]
fn a_fault_is_shown_by_the_name_of_its_layer(rt: HostRuntime) {
    let shown = format!(in rt.alloc(); "{:?}", take_census(b"\x00").err());
    assert!(rt;
        shown.is_ok_and(|text| text.as_str()
            == "Some(Token(TokenFault { kind: ForeignByte, place: 0 }))")
    );
    let shown = format!(in rt.alloc(); "{:?}", take_census(b"a)").err());
    assert!(rt;
        shown.is_ok_and(|text| text.as_str()
            == "Some(Bracket(BracketFault { kind: UnmatchedClose, place: 1 }))")
    );
}
