// What a script may ask of the store.
ghost use Rattle.std.specs.Prelude.{◌≡◌};
ghost use Rattle.protocol.specs.Commands.{letter};
ghost use Rattle.protocol.specs.Letters.{letter_byte, NamesLetter};
ghost use Rattle.protocol.specs.Requests.{request_of};

use crate::path::Path;

/// The number of a handle, as a script tells it.
pub type Handle = u16;

/// The number of items, or of an item in its chain.
pub type ItemNumber = u16;

/// One command of a script. Texts are borrowed from its line.
#[derive(Clone, Copy, PartialEq, Eq, Debug)]
pub enum Command<'a> {
    /// `L`: fill a free handle with a text.
    Load {
        handle: Handle,
        text: &'a [u8],
    },
    /// `S`: put a text in the place of `removed` items of the chain that the path leads to, from item `first` on.
    Splice {
        handle: Handle,
        path: Path,
        first: ItemNumber,
        removed: ItemNumber,
        text: &'a [u8],
    },
    /// `F`: fill a free handle with the versions of a held one.
    Fork {
        held: Handle,
        free: Handle,
    },
    /// `U`: go back one version.
    Undo {
        handle: Handle,
    },
    /// `R`: let go of a handle.
    Release {
        handle: Handle,
    },
    /// `P`: print the newest text.
    Print {
        handle: Handle,
    },
    /// `E`: whether two handles have the same newest text.
    Same {
        left: Handle,
        right: Handle,
    },
}

/// The letter of a command.
#[derive(Clone, Copy, PartialEq, Eq, Debug)]
pub enum Letter {
    Load,
    Splice,
    Fork,
    Undo,
    Release,
    Print,
    Same,
}

impl Letter {
    /// The byte that a script has for it.
    // Not its discriminant: a cast of the enum gives its place in the list, from 0.
    pub fn byte(self) -> u8
        ensures { result ≡ letter_byte self }
    {
        match self {
            Letter::Load => b'L',
            Letter::Splice => b'S',
            Letter::Fork => b'F',
            Letter::Undo => b'U',
            Letter::Release => b'R',
            Letter::Print => b'P',
            Letter::Same => b'E',
        }
    }
}

/// A byte that is the letter of no command.
#[derive(Clone, Copy, PartialEq, Eq, Debug)]
pub struct UnknownLetter(pub u8);

impl TryFrom<u8> for Letter {
    type Error = UnknownLetter;

    ghost try_from_gives = { NamesLetter };

    fn try_from(byte: u8) -> Result<Letter, UnknownLetter> {
        match char::from(byte) {
            'L' => Ok(Letter::Load),
            'S' => Ok(Letter::Splice),
            'F' => Ok(Letter::Fork),
            'U' => Ok(Letter::Undo),
            'R' => Ok(Letter::Release),
            'P' => Ok(Letter::Print),
            'E' => Ok(Letter::Same),
            _ => Err(UnknownLetter(byte)),
        }
    }
}

impl<'a> Command<'a> {
    /// The letter by which a script asks for it.
    pub fn letter(self) -> Letter
        ensures { letter_byte result ≡ letter (request_of self.entry) }
    {
        match self {
            Command::Load { .. } => Letter::Load,
            Command::Splice { .. } => Letter::Splice,
            Command::Fork { .. } => Letter::Fork,
            Command::Undo { .. } => Letter::Undo,
            Command::Release { .. } => Letter::Release,
            Command::Print { .. } => Letter::Print,
            Command::Same { .. } => Letter::Same,
        }
    }
}
