// Where places are in texts.
use syntax::{Position, count_lines, locate};

#[test]
fn lines_and_columns_begin_at_1(rt: HostRuntime) {
    assert_eq!(rt; locate(b"", 0), Some(Position { line: 1, column: 1 }));
    assert_eq!(rt; locate(b"", 1), None);
    assert_eq!(rt; locate(b"a\nbc", 1), Some(Position { line: 1, column: 2 }));
    assert_eq!(rt; locate(b"a\nbc", 2), Some(Position { line: 2, column: 1 }));
    assert_eq!(rt; locate(b"a\nbc", 4), Some(Position { line: 2, column: 3 }));
    assert_eq!(rt; locate(b"a\nbc", 5), None);
}

#[test]
fn a_text_above_the_limit_has_no_positions(rt: HostRuntime) {
    let full = [b'a'; 32_000];
    let above = [b'a'; 32_001];
    assert_eq!(rt;
        locate(&full, 32_000),
        Some(Position {
            line: 1,
            column: 32_001,
        })
    );
    assert_eq!(rt; locate(&above, 0), None);
}

#[test]
fn bytes_behind_the_last_line_end_are_a_line(rt: HostRuntime) {
    assert_eq!(rt; count_lines(b""), 0);
    assert_eq!(rt; count_lines(b"a"), 1);
    assert_eq!(rt; count_lines(b"a\n"), 1);
    assert_eq!(rt; count_lines(b"a\n\nb"), 3);
}
