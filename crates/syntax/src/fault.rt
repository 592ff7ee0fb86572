// Why a text is refused, and where: faults of the token layer, of the bracket layer, and of the reader over both.
ghost use Rattle.std.specs.Prelude.{◌≡◌};
ghost use Rattle.syntax.specs.declared.fault.ReadFault.TheVariants.{Token as of_token, Bracket as of_bracket};
ghost use Rattle.syntax.specs.Faults.{token_number, bracket_number, layer_of, number_of, place_of};

use crate::kind::Kind;
use std::fmt;

/// What is wrong with a token.
#[derive(Clone, Copy, PartialEq, Eq, Debug)]
pub enum TokenFaultKind {
    /// A byte that no text may hold.
    ForeignByte,
    /// A quoted or a comment without its last byte.
    Unfinished(Kind),
    /// A finished token above the limit.
    TooLong(Kind),
}

/// A fault of one layer; the place is the number of bytes before it.
#[derive(Clone, Copy, PartialEq, Eq)]
pub struct Fault<K> {
    pub kind: K,
    pub place: usize,
}

/// What is wrong in one layer, and what `{:?}` calls a fault of that layer.
pub trait FaultKind {
    const FAULT: &'static str;
}

impl FaultKind for TokenFaultKind {
    const FAULT: &'static str = "TokenFault";
}

impl FaultKind for BracketFaultKind {
    const FAULT: &'static str = "BracketFault";
}

// By hand, since the derive would call a fault of either layer by the one name `Fault`.
impl<K: FaultKind + fmt::Debug> fmt::Debug for Fault<K> {
    fn fmt<W: fmt::Write>(&self, f: &mut fmt::Formatter<W>) -> fmt::Result {
        f.debug_struct(K::FAULT)
            .field("kind", &self.kind)
            .field("place", &self.place)
            .finish()
    }
}

/// A fault of the token layer.
pub type TokenFault = Fault<TokenFaultKind>;

/// What is wrong with the brackets.
#[derive(Clone, Copy, PartialEq, Eq, Debug)]
pub enum BracketFaultKind {
    /// A close byte while no form is open.
    UnmatchedClose,
    /// A form that is still open where the text ends.
    UnclosedForm,
    /// An open byte that would open one form too many.
    TooDeep,
}

/// A fault of the bracket layer.
pub type BracketFault = Fault<BracketFaultKind>;

/// The layer that found a fault.
#[derive(Clone, Copy, PartialEq, Eq, Debug)]
pub enum Layer {
    Token,
    Bracket,
}

/// The first fault of a text.
#[derive(Clone, Copy, PartialEq, Eq, Debug)]
pub enum ReadFault {
    Token(TokenFault),
    Bracket(BracketFault),
}

impl From<TokenFault> for ReadFault {
    ghost from_gives = { λ f r. r ≡ of_token f };

    fn from(fault: TokenFault) -> ReadFault {
        ReadFault::Token(fault)
    }
}

impl From<BracketFault> for ReadFault {
    ghost from_gives = { λ f r. r ≡ of_bracket f };

    fn from(fault: BracketFault) -> ReadFault {
        ReadFault::Bracket(fault)
    }
}

impl TokenFaultKind {
    /// The number by which formats name the fault.
    // Cases that carry a value have no discriminant to cast.
    pub fn number(self) -> u8
        ensures { result ≡ token_number self }
    {
        match self {
            TokenFaultKind::ForeignByte => 1,
            TokenFaultKind::Unfinished(_) => 2,
            TokenFaultKind::TooLong(_) => 3,
        }
    }
}

impl BracketFaultKind {
    /// The number by which formats name the fault.
    // Two cases share a number, which discriminants cannot.
    pub fn number(self) -> u8
        ensures { result ≡ bracket_number self }
    {
        match self {
            BracketFaultKind::UnmatchedClose | BracketFaultKind::UnclosedForm => 4,
            BracketFaultKind::TooDeep => 5,
        }
    }
}

impl ReadFault {
    pub fn layer(self) -> Layer
        ensures { result ≡ layer_of self }
    {
        match self {
            ReadFault::Token(_) => Layer::Token,
            ReadFault::Bracket(_) => Layer::Bracket,
        }
    }

    /// The number by which formats name the fault: 1 to 3 are faults of a token, 4 and 5 of a bracket.
    // Cases that carry a value have no discriminant to cast.
    pub fn number(self) -> u8
        ensures { result ≡ number_of self }
    {
        match self {
            ReadFault::Token(fault) => fault.kind.number(),
            ReadFault::Bracket(fault) => fault.kind.number(),
        }
    }

    /// The number of bytes before the fault.
    pub fn place(self) -> usize
        ensures { result ≡ place_of self }
    {
        match self {
            ReadFault::Token(fault) => fault.place,
            ReadFault::Bracket(fault) => fault.place,
        }
    }
}
