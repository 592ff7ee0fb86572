// The next lexeme of a text: a bracket, or a token that is as long as its kind allows.
ghost use Rattle.std.specs.Prelude.{◌≡◌, ◌+◌, ◌^◌, ◌<◌, ◌≤◌, length, drop};
ghost use Rattle.syntax.specs.Lexemes.{run, finished, closing, delimited, lexeme_by, lexeme_at, Found};

use crate::class::{Class, class_of};
use crate::fault::{TokenFault, TokenFaultKind};
use crate::kind::Kind;
use crate::limits::TOKEN_LIMIT;

/// What a lexeme is.
#[derive(Clone, Copy, PartialEq, Eq, Debug)]
pub enum LexemeKind {
    Open,
    Close,
    Token(Kind),
}

/// The next part of a text that is not taken apart further: its kind and how many bytes it has.
#[derive(Clone, Copy, PartialEq, Eq, Debug)]
pub struct Lexeme {
    pub kind: LexemeKind,
    pub len: usize,
}

// A text and a place in it go along as they are: the pair that they make is a reader, which stands above.

/// The lexeme that begins at a place, or `None` where the text ends there. Takes time in proportion to the lexeme.
pub fn lexeme_at(text: &[u8], at: usize) -> Result<Option<Lexeme>, TokenFault>
    ensures value { result ≡ lexeme_at at (drop at text.now) }
    ensures longest { Found at result (drop at text.now) }
{
    let Some(first) = text.get(at) else {
        return Ok(None);
    };
    let lexeme = lexeme_by(class_of(*first), text, at)?;
    Ok(Some(lexeme))
}

// The lexeme that begins at a place, by the class of the byte there.
fn lexeme_by(class: Class, text: &[u8], at: usize) -> Result<Lexeme, TokenFault>
    requires { at < length text.now }
    ensures { result ≡ lexeme_by class at (drop at text.now) }
{
    match class {
        Class::Open => Ok(Lexeme {
            kind: LexemeKind::Open,
            len: 1,
        }),
        Class::Close => Ok(Lexeme {
            kind: LexemeKind::Close,
            len: 1,
        }),
        Class::LineEnd => Ok(Lexeme {
            kind: LexemeKind::Token(Kind::LineEnd),
            len: 1,
        }),
        Class::Blank => finish(Kind::Blank, at, run_len(&text[at..], Kind::Blank)),
        Class::Word => finish(Kind::Word, at, run_len(&text[at..], Kind::Word)),
        Class::Quote => finish_delimited(text, at, Kind::Quoted),
        Class::Comment => finish_delimited(text, at, Kind::Comment),
        Class::Foreign => Err(TokenFault {
            kind: TokenFaultKind::ForeignByte,
            place: at,
        }),
    }
}

// How many bytes at the front go on with a token of this kind: the longest run.
fn run_len(bytes: &[u8], kind: Kind) -> usize
    ensures value { result ≡ run kind bytes.now }
    ensures within { result ≤ length bytes.now }
{
    bytes
        .iter()
        .take_while(|byte| kind.continues(class_of(**byte)))
        .count()
}

// A token of a given length, if it keeps the limit.
fn finish(kind: Kind, at: usize, len: usize) -> Result<Lexeme, TokenFault>
    ensures { result ≡ finished kind len at }
{
    if len > TOKEN_LIMIT {
        return Err(TokenFault {
            kind: TokenFaultKind::TooLong(kind),
            place: at,
        });
    }
    Ok(Lexeme {
        kind: LexemeKind::Token(kind),
        len,
    })
}

// A quoted or a comment, whose first byte opens it and whose last byte closes it.
fn finish_delimited(text: &[u8], at: usize, kind: Kind) -> Result<Lexeme, TokenFault>
    requires { at < length text.now }
    ensures { result ≡ delimited kind at (drop at text.now) }
{
    let len = 1 + run_len(&text[at + 1..], kind);
    let Some(stop) = text.get(at + len) else {
        return Err(TokenFault {
            kind: TokenFaultKind::Unfinished(kind),
            place: at,
        });
    };
    close(class_of(*stop), kind, at, len)
}

// An opened token of `len` bytes so far, by the class of the byte that stops it.
fn close(class: Class, kind: Kind, at: usize, len: usize) -> Result<Lexeme, TokenFault>
    requires { at + len + 1 < 2 ^ 64 }
    ensures { result ≡ closing class kind at len }
{
    if kind.closes(class) {
        return finish(kind, at, len + 1);
    }
    if matches!(class, Class::Foreign) {
        return Err(TokenFault {
            kind: TokenFaultKind::ForeignByte,
            place: at + len,
        });
    }
    Err(TokenFault {
        kind: TokenFaultKind::Unfinished(kind),
        place: at,
    })
}
