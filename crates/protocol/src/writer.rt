// Answers as bytes.
ghost use Rattle.std.specs.Prelude.{◌≡◌, ◌≤◌, false, ◌∷◌, ◌++◌, length, take, codes};
ghost use Rattle.protocol.specs.Answers.{answer_line, six, refused_letter, head, answer_bytes, Answered};
ghost use Rattle.protocol.specs.Refusals.{refusal_number, besides};

use crate::answer::Answer;
use crate::command::Letter;
use crate::refusal::Refusal;
use crate::report::Report;
use notation::{put_bytes, put_numbers};

// Room for the line of any answer: status and letter, six numbers of at most 21 bytes with their spaces, and the end.
const LINE_ROOM: usize = 160;

// Puts the line of an answer, and answers its length. Pushed to an `ArrayString`, short lines take two to three times as long.
fn put_line(line: &mut [u8], accepted: bool, letter: u8, numbers: &[u64]) -> usize
    requires room { length line.old ≡ 160 }
    requires few { length numbers.now ≤ 6 }
    ensures put { take result line.new ≡ answer_line accepted letter numbers.now }
    ensures length { length line.new ≡ 160 }
    ensures within { result ≤ 160 }
{
    let place = if accepted {
        put_bytes(line, 0, b"(ok ")
    } else {
        put_bytes(line, 0, b"(no ")
    };
    let place = put_bytes(line, place, &[letter]);
    let place = put_numbers(line, place, numbers);
    put_bytes(line, place, b")\n")
}

// The numbers that a report is told by.
fn numbers_of(report: Report) -> [u64; 6]
    ensures { result ≡ six report }
{
    let Report { taken, freed } = report;
    let counts = [
        taken.tokens,
        taken.links,
        taken.versions,
        freed.tokens,
        freed.links,
        freed.versions,
    ];
    counts.map(u64::from)
}

// The letter that stands in a refusal's answer.
fn refused_letter(letter: Option<Letter>, refusal: Refusal) -> u8
    ensures { result ≡ refused_letter letter refusal }
{
    if matches!(refusal, Refusal::NoCommand | Refusal::LineTooLong) {
        return b'?';
    }
    match letter {
        Some(letter) => letter.byte(),
        None => b'?',
    }
}

// Puts the line for a refusal.
fn put_refusal(line: &mut [u8], letter: u8, refusal: Refusal) -> usize
    requires { length line.old ≡ 160 }
    ensures put { take result line.new ≡ answer_line false letter (refusal_number refusal ∷ besides refusal) }
    ensures length { length line.new ≡ 160 }
    ensures within { result ≤ 160 }
{
    let number = u64::from(refusal.number());
    match refusal {
        Refusal::Fault(fault) => {
            // `u64::try_from` of a `usize` would have a failure that cannot come.
            let place = fault.place() as u64;
            let numbers = [number, u64::from(fault.number()), place];
            put_line(line, false, letter, &numbers)
        }
        _ => put_line(line, false, letter, &[number]),
    }
}

// Puts the first line of an answer, and answers its length.
fn put_head(line: &mut [u8], answer: Answer, text: &[u8]) -> usize
    requires { length line.old ≡ 160 }
    ensures put { take result line.new ≡ head answer text.now }
    ensures length { length line.new ≡ 160 }
    ensures within { result ≤ 160 }
{
    match answer {
        Answer::Loaded(report) => put_line(line, true, Letter::Load.byte(), &numbers_of(report)),
        Answer::Spliced(report) => put_line(line, true, Letter::Splice.byte(), &numbers_of(report)),
        Answer::Forked => put_line(line, true, Letter::Fork.byte(), &[]),
        Answer::Undone(report) => put_line(line, true, Letter::Undo.byte(), &numbers_of(report)),
        Answer::Released(report) => put_line(
            line,
            true,
            Letter::Release.byte(),
            &numbers_of(report),
        ),
        // As with a place, `u64::try_from` would have a failure that cannot come.
        Answer::Printed => put_line(line, true, Letter::Print.byte(), &[text.len() as u64]),
        Answer::Compared(same) => put_line(line, true, Letter::Same.byte(), &[u64::from(same)]),
        Answer::Refused { letter, refusal } => {
            put_refusal(line, refused_letter(letter, refusal), refusal)
        }
    }
}

// Writes bytes to the start of a buffer.
// Beside `write_text`: a list of slices to go through would say less plainly that one piece or three are put.
fn write_bytes(buffer: &mut [u8], bytes: &[u8]) -> Result<usize, Refusal>
    ensures { Answered bytes.now buffer.old result buffer.new }
{
    if buffer.len() < bytes.len() {
        return Err(Refusal::BufferTooShort {
            needed: bytes.len(),
        });
    }
    Ok(put_bytes(buffer, 0, bytes))
}

// Writes a line, a text behind it, and a line end.
fn write_text(buffer: &mut [u8], line: &[u8], text: &[u8]) -> Result<usize, Refusal>
    ensures { Answered (line.now ++ (text.now ++ codes "\n")) buffer.old result buffer.new }
{
    let needed = line.len() + text.len() + 1;
    if buffer.len() < needed {
        return Err(Refusal::BufferTooShort { needed });
    }
    let place = put_bytes(buffer, 0, line);
    let place = put_bytes(buffer, place, text);
    Ok(put_bytes(buffer, place, b"\n"))
}

/// Writes an answer to the start of a buffer and answers its length; the rest of the buffer stays as it was. The text is what was
/// printed, and no other answer looks at it.
pub fn write_answer(buffer: &mut [u8], answer: Answer, text: &[u8]) -> Result<usize, Refusal>
    ensures { Answered (answer_bytes answer text.now) buffer.old result buffer.new }
{
    let mut line = [0; LINE_ROOM];
    let size = put_head(&mut line, answer, text);
    match answer {
        Answer::Printed => write_text(buffer, &line[0..size], text),
        _ => write_bytes(buffer, &line[0..size]),
    }
}
