// Answers to the byte.
use protocol::{Answer, CellCounts, Letter, PoolName, Refusal, Report, write_answer};
use syntax::{BracketFault, BracketFaultKind, ReadFault, take_census};

// Whether an answer is these bytes, and the rest of the buffer stays as it was.
fn answers(answer: Answer, text: &[u8], bytes: &[u8]) -> bool {
    let mut buffer = [b'.'; 80];
    let size = write_answer(&mut buffer, answer, text);
    let (front, rest) = buffer.split_at(bytes.len().min(80));
    size == Ok(bytes.len()) && front == bytes && rest.iter().all(|byte| *byte == b'.')
}

fn report(taken: (u16, u16, u16), freed: (u16, u16, u16)) -> Report {
    Report {
        taken: CellCounts {
            tokens: taken.0,
            links: taken.1,
            versions: taken.2,
        },
        freed: CellCounts {
            tokens: freed.0,
            links: freed.1,
            versions: freed.2,
        },
    }
}

fn refuses(letter: Letter, refusal: Refusal, bytes: &[u8]) -> bool {
    let letter = Some(letter);
    answers(Answer::Refused { letter, refusal }, b"", bytes)
}

#[test]
fn each_letter_has_its_answer(rt: HostRuntime) {
    let loaded = Answer::Loaded(report((3, 4, 1), (0, 0, 0)));
    assert!(rt; answers(loaded, b"", b"(ok L 3 4 1 0 0 0)\n"));
    let spliced = Answer::Spliced(report((1, 4, 1), (0, 0, 0)));
    assert!(rt; answers(spliced, b"", b"(ok S 1 4 1 0 0 0)\n"));
    assert!(rt; answers(Answer::Forked, b"", b"(ok F)\n"));
    let undone = Answer::Undone(report((0, 0, 0), (1, 4, 1)));
    assert!(rt; answers(undone, b"", b"(ok U 0 0 0 1 4 1)\n"));
    let released = Answer::Released(report((0, 0, 0), (10, 65535, 100)));
    assert!(rt; answers(released, b"", b"(ok R 0 0 0 10 65535 100)\n"));
    assert!(rt; answers(Answer::Printed, b"(a c)", b"(ok P 5)\n(a c)\n"));
    assert!(rt; answers(Answer::Printed, b"", b"(ok P 0)\n\n"));
    assert!(rt; answers(Answer::Compared(true), b"(a c)", b"(ok E 1)\n"));
    assert!(rt; answers(Answer::Compared(false), b"", b"(ok E 0)\n"));
}

#[test]
fn each_refusal_has_its_number(rt: HostRuntime) {
    let pool = PoolName::Links;
    assert!(rt; refuses(Letter::Load, Refusal::Misfit { pool }, b"(no L 1)\n"));
    assert!(rt; refuses(Letter::Same, Refusal::NoHandle { handle: 1 }, b"(no E 2)\n"));
    assert!(rt;
        refuses(
            Letter::Fork,
            Refusal::HandleHeld { handle: 1 },
            b"(no F 3)\n",
        )
    );
    assert!(rt;
        refuses(
            Letter::Load,
            Refusal::TextTooLong { length: 32_001 },
            b"(no L 4)\n",
        )
    );
    assert!(rt;
        refuses(
            Letter::Splice,
            Refusal::NoPath { followed: 2 },
            b"(no S 6)\n",
        )
    );
    assert!(rt;
        refuses(
            Letter::Splice,
            Refusal::RunTogether { item: 1 },
            b"(no S 7)\n",
        )
    );
    assert!(rt;
        refuses(
            Letter::Splice,
            Refusal::TooDeep { nesting: 17 },
            b"(no S 8)\n",
        )
    );
    assert!(rt;
        refuses(
            Letter::Splice,
            Refusal::VersionTooLong { length: 32_001 },
            b"(no S 9)\n",
        )
    );
    let too_few = Refusal::TooFewCells {
        pool,
        needed: 2,
        free: 1,
    };
    assert!(rt; refuses(Letter::Load, too_few, b"(no L 10)\n"));
    assert!(rt;
        refuses(
            Letter::Undo,
            Refusal::NothingToUndo { handle: 1 },
            b"(no U 11)\n",
        )
    );
    assert!(rt;
        refuses(
            Letter::Print,
            Refusal::BufferTooShort { needed: 9 },
            b"(no P 12)\n",
        )
    );
    assert!(rt; refuses(Letter::Print, Refusal::NoCommand, b"(no ? 13)\n"));
    assert!(rt; refuses(Letter::Print, Refusal::LineTooLong, b"(no ? 14)\n"));
    let nameless = Answer::Refused {
        letter: None,
        refusal: Refusal::NoCommand,
    };
    assert!(rt; answers(nameless, b"", b"(no ? 13)\n"));
}

// A fault as the store will hand it on, by `?`.
fn load(text: &[u8]) -> Result<usize, Refusal> {
    let census = take_census(text)?;
    Ok(census.items)
}

#[test]
fn a_fault_is_told_by_kind_and_place(rt: HostRuntime) {
    let refusal = Refusal::Fault(ReadFault::Bracket(BracketFault {
        kind: BracketFaultKind::UnmatchedClose,
        place: 1,
    }));
    assert_eq!(rt; load(b"a)"), Err(refusal));
    assert_eq!(rt; refusal.number(), 5);
    assert!(rt; refuses(Letter::Load, refusal, b"(no L 5 4 1)\n"));
}

#[test]
fn a_short_buffer_is_untouched(rt: HostRuntime) {
    let mut buffer = [b'.'; 15];
    assert_eq!(rt;
        write_answer(&mut buffer, Answer::Printed, b"(a cd)"),
        Err(Refusal::BufferTooShort { needed: 16 })
    );
    assert_eq!(rt; buffer, [b'.'; 15]);
    assert_eq!(rt;
        write_answer(&mut buffer, Answer::Printed, b"(a c)"),
        Ok(15)
    );
}
