// Lines that are commands, and neighbours of theirs that are none.
use protocol::{Command, Letter, Path, PathFull, Refusal, Step, parse};

const NONE: Result<Command<'static>, Refusal> = Err(Refusal::NoCommand);

fn load(handle: u16, text: &[u8]) -> Command<'_> {
    Command::Load { handle, text }
}

// A splice at handle `handle`, with these steps.
fn splice<'a>(
    handle: u16,
    steps: &[Step],
    first: u16,
    removed: u16,
    text: &'a [u8],
) -> Command<'a> {
    let mut path = Path::new();
    for step in steps {
        let _full = path.push(*step);
    }
    Command::Splice {
        handle,
        path,
        first,
        removed,
        text,
    }
}

// The byte of the letter of the command that a line is.
fn letter_of(line: &[u8]) -> Option<u8> {
    let command = parse(line).ok()?;
    Some(command.letter().byte())
}

#[test]
fn each_letter_is_a_command(rt: HostRuntime) {
    assert_eq!(rt; parse(b"(L 0 (a b))"), Ok(load(0, b"(a b)")));
    assert_eq!(rt; parse(b"(S 0 (0) 2 1 c)"), Ok(splice(0, &[0], 2, 1, b"c")));
    assert_eq!(rt; parse(b"(F 3 4)"), Ok(Command::Fork { held: 3, free: 4 }));
    assert_eq!(rt; parse(b"(U 63)"), Ok(Command::Undo { handle: 63 }));
    assert_eq!(rt; parse(b"(R 70)"), Ok(Command::Release { handle: 70 }));
    assert_eq!(rt; parse(b"(P 65535)"), Ok(Command::Print { handle: 65_535 }));
    assert_eq!(rt; parse(b"(E 1 0)"), Ok(Command::Same { left: 1, right: 0 }));
    assert_eq!(rt; parse(b"(X 0)"), NONE);
    assert_eq!(rt; parse(b"(l 0 a)"), NONE);
}

#[test]
fn each_command_has_its_letter(rt: HostRuntime) {
    assert_eq!(rt; letter_of(b"(L 0 (a b))"), Some(b'L'));
    assert_eq!(rt; letter_of(b"(S 0 (0) 2 1 c)"), Some(b'S'));
    assert_eq!(rt; letter_of(b"(F 3 4)"), Some(b'F'));
    assert_eq!(rt; letter_of(b"(U 63)"), Some(b'U'));
    assert_eq!(rt; letter_of(b"(R 70)"), Some(b'R'));
    assert_eq!(rt; letter_of(b"(P 65535)"), Some(b'P'));
    assert_eq!(rt; letter_of(b"(E 1 0)"), Some(b'E'));
    assert_eq!(rt; Letter::try_from(b'S'), Ok(Letter::Splice));
    assert!(rt; Letter::try_from(b's').is_err());
}

#[test]
fn a_text_runs_to_the_last_close_byte(rt: HostRuntime) {
    assert_eq!(rt; parse(b"(L 0 )"), Ok(load(0, b"")));
    assert_eq!(rt; parse(b"(L 0 a \"b) ;c\")"), Ok(load(0, b"a \"b) ;c\"")));
    assert_eq!(rt; parse(b"(L 0 ))"), Ok(load(0, b")")));
    assert_eq!(rt; parse(b"(L 0  a)"), Ok(load(0, b" a")));
    assert_eq!(rt; parse(b"(S 1 () 0 0 )"), Ok(splice(1, &[], 0, 0, b"")));
    assert_eq!(rt; parse(b"(L 0)"), NONE);
    assert_eq!(rt; parse(b"(S 1 () 0 0)"), NONE);
}

#[test]
fn one_space_stands_before_each_argument(rt: HostRuntime) {
    for line in [
        &b""[..],
        &b"("[..],
        &b"()"[..],
        &b"(U)"[..],
        &b"(U )"[..],
        &b"(U  0)"[..],
        &b"(U 0 )"[..],
        &b" (U 0)"[..],
        &b"(U 0) "[..],
        &b"(U 0"[..],
        &b"(U0)"[..],
        &b"(E 0  1)"[..],
        &b"(E 0,1)"[..],
        &b"(F 0)"[..],
        &b"(F 0 1 2)"[..],
    ] {
        assert_eq!(rt; parse(line), NONE);
    }
}

#[test]
fn numbers_are_plain_and_at_most_65535(rt: HostRuntime) {
    assert_eq!(rt; parse(b"(U 0)"), Ok(Command::Undo { handle: 0 }));
    assert_eq!(rt; parse(b"(U 65535)"), Ok(Command::Undo { handle: 65_535 }));
    for line in [
        &b"(U 65536)"[..],
        &b"(U 99999)"[..],
        &b"(U 100000)"[..],
        &b"(U 00)"[..],
        &b"(U 01)"[..],
        &b"(U +1)"[..],
        &b"(U -1)"[..],
        &b"(U 1a)"[..],
    ] {
        assert_eq!(rt; parse(line), NONE);
    }
}

#[test]
fn a_path_has_at_most_sixteen_steps(rt: HostRuntime) {
    let sixteen = [1, 2, 3, 4, 5, 6, 7, 8, 9, 10, 11, 12, 13, 14, 15, 16];
    assert_eq!(rt;
        parse(b"(S 0 (1 2 3 4 5 6 7 8 9 10 11 12 13 14 15 16) 0 0 )"),
        Ok(splice(0, &sixteen, 0, 0, b""))
    );
    assert_eq!(rt;
        parse(b"(S 0 (65535) 0 0 )"),
        Ok(splice(0, &[65_535], 0, 0, b""))
    );
    for line in [
        &b"(S 0 (1 2 3 4 5 6 7 8 9 10 11 12 13 14 15 16 17) 0 0 )"[..],
        &b"(S 0 ( 1) 0 0 )"[..],
        &b"(S 0 (1 ) 0 0 )"[..],
        &b"(S 0 (1  2) 0 0 )"[..],
        &b"(S 0 (01) 0 0 )"[..],
        &b"(S 0 (1 2 0 0 )"[..],
        &b"(S 0 1 0 0 )"[..],
        &b"(S 0 ()0 0 )"[..],
    ] {
        assert_eq!(rt; parse(line), NONE);
    }
}

#[test]
fn the_steps_of_a_path_come_in_their_order(rt: HostRuntime) {
    let Ok(Command::Splice { path, .. }) = parse(b"(S 0 (7 0 12) 1 2 x)") else {
        assert!(rt; false);
        return;
    };
    assert_eq!(rt; path.length, 3);
    assert_eq!(rt; path.steps(), [7, 0, 12].as_slice());
}

// The first bytes of a line that loads a text of close bytes.
fn long_line(line: &mut [u8; 300], size: usize) -> &[u8] {
    *line = [b')'; 300];
    line[..5].copy_from_slice(b"(L 0 ");
    &line[..size.min(300)]
}

// The number of the refusal, if the line is refused.
fn refused(line: &[u8]) -> Option<u8> {
    let refusal = parse(line).err()?;
    Some(refusal.number())
}

#[test]
fn a_line_has_at_most_256_bytes(rt: HostRuntime) {
    let mut line = [0; 300];
    assert_eq!(rt; refused(long_line(&mut line, 255)), None);
    assert_eq!(rt; refused(long_line(&mut line, 256)), None);
    assert_eq!(rt; refused(long_line(&mut line, 257)), Some(14));
    assert_eq!(rt; refused(&[b'x'; 256]), Some(13));
    assert_eq!(rt; refused(&[b'x'; 257]), Some(14));
}

#[test]
fn a_path_takes_sixteen_steps_and_no_more(rt: HostRuntime) {
    let mut path = Path::new();
    for step in 0..16 {
        assert_eq!(rt; path.push(step), Ok(()));
    }
    assert_eq!(rt; path.push(16), Err(PathFull));
    assert_eq!(rt; path.length, 16);
    assert_eq!(rt; path.steps[15], 15);
}
