// From a line of a script to its command.
ghost use Rattle.std.specs.Prelude.{◌≡◌, ℕ, ◌<◌, List, [], ◌∷◌, ◌++◌, decimal, MatchOption, ◌≢◌};
ghost use Rattle.notation.specs.Numbers.{spaced, number_bound};
ghost use Rattle.protocol.specs.declared.command.Letter.{Letter};
ghost use Rattle.protocol.specs.Letters.{letter_byte};
ghost use Rattle.protocol.specs.Requests.{Asks, Written};
ghost use Rattle.protocol.specs.Parsing.{Parses};

use crate::command::{Command, Handle, Letter};
use crate::path_reader::read_path;
use crate::refusal::Refusal;
use notation::{after, spaced_number, whole_number};

/// The most bytes of a line.
pub const LINE_LIMIT: usize = 256;

// The letter of a line and its arguments, where it has the form of a command.
fn take_apart(line: &[u8]) -> Option<(Letter, &[u8])>
    ensures { MatchOption result ((l : Letter) (args : List ℕ) → line.now ≢ 40 ∷ letter_byte l ∷ 32 ∷ (args ++ (41 ∷ []))) (λ p. line.now ≡ 40 ∷ letter_byte p.0 ∷ 32 ∷ (p.1.now ++ (41 ∷ []))) }
{
    let [b'(', letter, b' ', arguments @ .., b')'] = line else {
        return None;
    };
    let letter = Letter::try_from(*letter).ok()?;
    Some((letter, arguments))
}

/// The command that a line is, if it is one.
pub fn command(line: &[u8]) -> Option<Command<'_>>
    ensures { Written line.now result }
{
    let (letter, arguments) = take_apart(line)?;
    command_of(letter, arguments)
}

// The command of a letter with these arguments, if it has them.
fn command_of(letter: Letter, arguments: &[u8]) -> Option<Command<'_>>
    ensures { Asks (letter_byte letter) arguments.now result }
{
    match letter {
        Letter::Load => load(arguments),
        Letter::Splice => splice(arguments),
        Letter::Fork => two_handles(arguments).map(|(held, free)| Command::Fork { held, free }),
        Letter::Undo => whole_number(arguments).map(|handle| Command::Undo { handle }),
        Letter::Release => whole_number(arguments).map(|handle| Command::Release { handle }),
        Letter::Print => whole_number(arguments).map(|handle| Command::Print { handle }),
        Letter::Same => two_handles(arguments).map(|(left, right)| Command::Same { left, right }),
    }
}

fn load(arguments: &[u8]) -> Option<Command<'_>>
    ensures { Asks 76 arguments.now result }
{
    let (handle, text) = spaced_number(arguments)?;
    Some(Command::Load { handle, text })
}

fn splice(arguments: &[u8]) -> Option<Command<'_>>
    ensures { Asks 83 arguments.now result }
{
    let (handle, rest) = spaced_number(arguments)?;
    let (path, rest) = read_path(rest)?;
    let rest = after(b' ', rest)?;
    let (first, rest) = spaced_number(rest)?;
    let (removed, text) = spaced_number(rest)?;
    Some(Command::Splice {
        handle,
        path,
        first,
        removed,
        text,
    })
}

// Two numbers with a space between them.
fn two_handles(arguments: &[u8]) -> Option<(Handle, Handle)>
    ensures { MatchOption result ((a b : ℕ) → a < number_bound → b < number_bound → arguments.now ≢ spaced a (decimal b)) (λ p. arguments.now ≡ spaced p.0 (decimal p.1)) }
{
    let (one, rest) = spaced_number(arguments)?;
    let other = whole_number(rest)?;
    Some((one, other))
}

/// The command of a line, which comes without its line end.
pub fn parse(line: &[u8]) -> Result<Command<'_>, Refusal>
    ensures { Parses line.now result }
{
    if line.len() > LINE_LIMIT {
        return Err(Refusal::LineTooLong);
    }
    command(line).ok_or(Refusal::NoCommand)
}
