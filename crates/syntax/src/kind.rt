// The kinds of token and of item, and which bytes a token of each kind may hold.
ghost use Rattle.std.specs.Prelude.{◌≡◌};
ghost use Rattle.syntax.specs.Tokens.{number_of, item_number, continues_class, closes_class};

use crate::class::Class;

/// What a token is.
#[derive(Clone, Copy, PartialEq, Eq, Debug)]
pub enum Kind {
    LineEnd,
    Blank,
    Word,
    Quoted,
    Comment,
}

impl Kind {
    /// The number by which formats name the kind.
    // Not its discriminant: a cast of the enum gives its place in the list, from 0.
    pub fn number(self) -> u8
        ensures { result ≡ number_of self }
    {
        match self {
            Kind::LineEnd => 1,
            Kind::Blank => 2,
            Kind::Word => 3,
            Kind::Quoted => 4,
            Kind::Comment => 5,
        }
    }

    /// Whether a byte of this class goes on with a token of this kind.
    pub fn continues(self, class: Class) -> bool
        ensures { result ≡ continues_class self class }
    {
        match self {
            Kind::LineEnd => false,
            Kind::Blank => matches!(class, Class::Blank),
            Kind::Word => matches!(class, Class::Word),
            Kind::Quoted => !matches!(class, Class::Quote | Class::LineEnd | Class::Foreign),
            Kind::Comment => !matches!(class, Class::LineEnd | Class::Foreign),
        }
    }

    /// Whether a byte of this class is the last of a token of this kind that has been opened.
    pub fn closes(self, class: Class) -> bool
        ensures { result ≡ closes_class self class }
    {
        match self {
            Kind::Quoted => matches!(class, Class::Quote),
            Kind::Comment => matches!(class, Class::LineEnd),
            Kind::LineEnd | Kind::Blank | Kind::Word => false,
        }
    }
}

/// What an item is.
#[derive(Clone, Copy, PartialEq, Eq, Debug)]
pub enum ItemKind {
    Token(Kind),
    Form,
}

impl ItemKind {
    /// The number by which formats name the kind: a token's own, or 6.
    // Cases that carry a value have no discriminant to cast.
    pub fn number(self) -> u8
        ensures { result ≡ item_number self }
    {
        match self {
            ItemKind::Token(kind) => kind.number(),
            ItemKind::Form => 6,
        }
    }
}
