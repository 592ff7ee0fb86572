// The words in which kinds and faults are told to people.
ghost use Rattle.std.specs.Prelude.{◌≡◌, Some};
ghost use Rattle.syntax.specs.Messages.{kind_words, item_words, token_fault_words, bracket_fault_words, layer_words, fault_words, position_words};

use crate::fault::{BracketFaultKind, Layer, ReadFault, TokenFaultKind};
use crate::kind::{ItemKind, Kind};
use crate::position::Position;
use std::fmt;

impl Kind {
    /// What a token of the kind is called.
    pub fn words(self) -> &'static str
        ensures { result.now ≡ kind_words self }
    {
        match self {
            Kind::LineEnd => "line end",
            Kind::Blank => "blank",
            Kind::Word => "word",
            Kind::Quoted => "quoted text",
            Kind::Comment => "comment",
        }
    }
}

impl fmt::Display for Kind {
    ghost output = { λ k. Some (kind_words k) };

    fn fmt<W: fmt::Write>(&self, f: &mut fmt::Formatter<W>) -> fmt::Result {
        f.write_str(self.words())
    }
}

impl fmt::Display for ItemKind {
    ghost output = { λ i. Some (item_words i) };

    fn fmt<W: fmt::Write>(&self, f: &mut fmt::Formatter<W>) -> fmt::Result {
        match self {
            ItemKind::Token(kind) => kind.fmt(f),
            ItemKind::Form => f.write_str("form"),
        }
    }
}

impl fmt::Display for TokenFaultKind {
    ghost output = { λ k. Some (token_fault_words k) };

    fn fmt<W: fmt::Write>(&self, f: &mut fmt::Formatter<W>) -> fmt::Result {
        match self {
            TokenFaultKind::ForeignByte => f.write_str("byte is not allowed in a text"),
            TokenFaultKind::Unfinished(kind) => write!(f, "{kind} is not finished"),
            TokenFaultKind::TooLong(kind) => write!(f, "{kind} is longer than 32 bytes"),
        }
    }
}

impl BracketFaultKind {
    /// What is wrong.
    pub fn words(self) -> &'static str
        ensures { result.now ≡ bracket_fault_words self }
    {
        match self {
            BracketFaultKind::UnmatchedClose => "closing bracket has no open form",
            BracketFaultKind::UnclosedForm => "form is not closed",
            BracketFaultKind::TooDeep => "more than 16 forms are open",
        }
    }
}

impl fmt::Display for BracketFaultKind {
    ghost output = { λ k. Some (bracket_fault_words k) };

    fn fmt<W: fmt::Write>(&self, f: &mut fmt::Formatter<W>) -> fmt::Result {
        f.write_str(self.words())
    }
}

impl Layer {
    /// What a fault of the layer is called.
    pub fn words(self) -> &'static str
        ensures { result.now ≡ layer_words self }
    {
        match self {
            Layer::Token => "token fault",
            Layer::Bracket => "bracket fault",
        }
    }
}

impl fmt::Display for Layer {
    ghost output = { λ l. Some (layer_words l) };

    fn fmt<W: fmt::Write>(&self, f: &mut fmt::Formatter<W>) -> fmt::Result {
        f.write_str(self.words())
    }
}

impl fmt::Display for ReadFault {
    ghost output = { λ f. Some (fault_words f) };

    fn fmt<W: fmt::Write>(&self, f: &mut fmt::Formatter<W>) -> fmt::Result {
        let layer = self.layer();
        let number = self.number();
        let place = self.place();
        match self {
            ReadFault::Token(fault) => fault.kind.fmt(f)?,
            ReadFault::Bracket(fault) => fault.kind.fmt(f)?,
        }
        write!(f, " ({layer} {number} at byte {place})")
    }
}

impl fmt::Display for Position {
    ghost output = { λ p. Some (position_words p) };

    fn fmt<W: fmt::Write>(&self, f: &mut fmt::Formatter<W>) -> fmt::Result {
        let line = self.line;
        let column = self.column;
        write!(f, "{line}:{column}")
    }
}
