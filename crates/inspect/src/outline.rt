// The outline of a text: a line for each item, indented by the forms around it.
ghost use Rattle.std.specs.Prelude.{◌≡◌, ◌+◌, ◌≤◌, List, ◌++◌, length, IfOk, Ok, Err, Some, string_bytes, MatchResult};
ghost use Rattle.syntax.specs.Readers.{place_of, left};
ghost use Rattle.syntax.specs.Reading.{Piece};
ghost use Rattle.inspect.specs.declared.outline.OutlineFault.TheVariants.{Memory, Read as of_read};
ghost use Rattle.inspect.specs.Outlines.{shown_byte, shown, head, until, line_by, Told, Outlines, outline_fault_words};

use std::alloc::{AllocError, Global};
use std::error::Error;
use std::fmt;
use std::fmt::Write;
use syntax::{ItemKind, LexemeKind, ReadFault, Reader};

/// Why a text has no outline: a fault, or memory that is short.
#[derive(Clone, Copy, PartialEq, Eq, Debug)]
pub enum OutlineFault {
    Memory,
    Read(ReadFault),
}

impl From<AllocError> for OutlineFault {
    ghost from_gives = { λ _ r. r ≡ Memory };

    fn from(_error: AllocError) -> OutlineFault {
        OutlineFault::Memory
    }
}

impl From<ReadFault> for OutlineFault {
    ghost from_gives = { λ f r. r ≡ of_read f };

    fn from(fault: ReadFault) -> OutlineFault {
        OutlineFault::Read(fault)
    }
}

impl fmt::Display for OutlineFault {
    ghost output = { λ e. Some (outline_fault_words e) };

    fn fmt<W: fmt::Write>(&self, f: &mut fmt::Formatter<W>) -> fmt::Result {
        match self {
            OutlineFault::Memory => f.write_str("memory is short"),
            OutlineFault::Read(fault) => fault.fmt(f),
        }
    }
}

impl Error for OutlineFault {}

/// The outline of a text, or its first fault. Reads each form once more for each form around it, so takes time in proportion to
/// the text and its nesting.
pub fn outline(heap: Global, text: &[u8]) -> Result<String, OutlineFault>
    ensures { Outlines text.now result }
{
    let mut reader = Reader::new(text);
    let mut out = String::new(heap);
    loop {
        let place = reader.place();
        let depth = reader.depth();
        let Some(lexeme) = reader.next()? else {
            return Ok(out);
        };
        let bytes = &text[place..reader.place()];
        push_item(&mut out, depth, place, lexeme.kind, bytes, reader)?;
    }
}

// No line has more bytes: the indent of sixteen forms, the longest words, two numbers, and a token's 32 bytes by two.
const LINE_ROOM: usize = 128;

// Makes room for one more line. Where there is none, there will be a sixteenth more than there was: the text alone would double its
// room, and hold twice what it needs just behind a doubling.
fn make_room(out: &mut String) -> Result<(), AllocError>
    ensures { string_bytes out.new ≡ string_bytes out.old }
{
    if out.capacity().saturating_sub(out.len()) < LINE_ROOM {
        out.reserve_exact(LINE_ROOM + out.len() / 16)?;
    }
    Ok(())
}

// The line for the item that a lexeme begins, if it begins one. The reader stands behind the lexeme.
// Depth and place come along one by one: only here are the kind and the length known that make a `Head` of them.
fn push_item(
    out: &mut String,
    depth: usize,
    place: usize,
    kind: LexemeKind,
    bytes: &[u8],
    reader: Reader<'_>,
) -> Result<(), OutlineFault>
    requires { place_of reader ≡ place + length bytes.now }
    ensures { MatchResult result (λ _. (qs : List Piece) → left reader.entry ≡ Ok qs → string_bytes out.new ≡ string_bytes out.old ++ line_by kind depth place bytes.now qs) (λ e. Told e (λ f. left reader.entry ≡ Err f)) }
{
    make_room(out)?;
    match kind {
        LexemeKind::Open => {
            let head = Head {
                depth,
                kind: ItemKind::Form,
                place,
                len: form_end(reader)? - place,
            };
            writeln!(out, "{head}")?;
        }
        LexemeKind::Close => {}
        LexemeKind::Token(token) => {
            let head = Head {
                depth,
                kind: ItemKind::Token(token),
                place,
                len: bytes.len(),
            };
            let bytes = Shown(bytes);
            writeln!(out, "{head} \"{bytes}\"")?;
        }
    }
    Ok(())
}

// The place behind the form that was opened last. The reader stands behind the open byte. Takes time in proportion to the form.
fn form_end(mut reader: Reader<'_>) -> Result<usize, ReadFault>
    ensures end { MatchResult result (λ n. (ps : List Piece) → left reader.entry ≡ Ok ps → n ≡ place_of reader.entry + until 1 ps) (λ f. left reader.entry ≡ Err f) }
    ensures within { IfOk result (λ n. place_of reader.entry ≤ n) }
{
    let inside = reader.depth();
    while reader.depth() >= inside {
        let Some(_lexeme) = reader.next()? else {
            return Ok(reader.place());
        };
    }
    Ok(reader.place())
}

// A byte of a token, as it stands between quotes.
#[derive(Clone, Copy)]
struct ShownByte(u8);

impl fmt::Display for ShownByte {
    ghost output = { λ b. Some (shown_byte b.0) };

    fn fmt<W: fmt::Write>(&self, f: &mut fmt::Formatter<W>) -> fmt::Result {
        match self.0 {
            b'\n' => f.write_str("\\n"),
            b'\t' => f.write_str("\\t"),
            b'"' => f.write_str("\\\""),
            b'\\' => f.write_str("\\\\"),
            byte => f.write_str(char::from(byte).encode_utf8(&mut [0; 4])),
        }
    }
}

// The bytes of a token, as they stand between quotes.
#[derive(Clone, Copy)]
struct Shown<'a>(&'a [u8]);

impl<'a> fmt::Display for Shown<'a> {
    ghost output = { λ s. Some (shown s.0.now) };

    fn fmt<W: fmt::Write>(&self, f: &mut fmt::Formatter<W>) -> fmt::Result {
        for byte in self.0 {
            ShownByte(*byte).fmt(f)?;
        }
        Ok(())
    }
}

// The front of an item's line: how many forms are around it, its kind, its place and its length.
#[derive(Clone, Copy)]
struct Head {
    depth: usize,
    kind: ItemKind,
    place: usize,
    len: usize,
}

impl fmt::Display for Head {
    ghost output = { λ h. Some (head h.depth h.kind h.place h.len) };

    fn fmt<W: fmt::Write>(&self, f: &mut fmt::Formatter<W>) -> fmt::Result {
        let Head {
            depth,
            kind,
            place,
            len,
        } = *self;
        for _level in 0..depth {
            f.write_str("  ")?;
        }
        write!(f, "{kind} {place} {len}")
    }
}
