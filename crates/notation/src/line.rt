// Pieces of lines that are put one after the other.
ghost use Rattle.std.specs.Prelude.{◌≡◌, ◌+◌, ◌*◌, ◌≤◌, ◌∷◌, ◌++◌, length, take, drop, decimal};
ghost use Rattle.arrayvec.specs.ArrayString.{array_string_len};
ghost use Rattle.notation.specs.Numbers.{numbered};

use arrayvec::ArrayString;

// No number has more digits.
const DIGITS_ROOM: usize = 20;

/// Puts bytes at a place, and answers the place behind them.
// A rule of the project: texts go into buffers of the caller's and take no heap, so the place goes along beside the buffer.
pub fn put_bytes(line: &mut [u8], at: usize, piece: &[u8]) -> usize
    requires { at + length piece.now ≤ length line.old }
    ensures place { result ≡ at + length piece.now }
    ensures put { take result line.new ≡ take at line.old ++ piece.now }
    ensures rest { drop result line.new ≡ drop result line.old }
    ensures length { length line.new ≡ length line.old }
{
    let end = at + piece.len();
    line[at..end].copy_from_slice(piece);
    end
}

// Puts a space and a number behind a text. They are pushed, since the contract of `write!` does not say when it succeeds.
fn push_number<const ROOM: usize>(line: &mut ArrayString<ROOM>, number: u64)
    requires { array_string_len line.old + 21 ≤ ROOM }
    ensures put { line.new.bytes ≡ line.old.bytes ++ (32 ∷ decimal number) }
    ensures room { array_string_len line.new ≤ array_string_len line.old + 21 }
{
    let mut digits = itoa::Buffer::new();
    line.push(' ');
    line.push_str(digits.format(number));
}

/// Puts numbers, each after a space, behind a text.
pub fn push_numbers<const ROOM: usize>(line: &mut ArrayString<ROOM>, numbers: &[u64])
    requires { array_string_len line.old + 21 * length numbers.now ≤ ROOM }
    ensures put { line.new.bytes ≡ line.old.bytes ++ numbered numbers.now }
    ensures room { array_string_len line.new ≤ array_string_len line.old + 21 * length numbers.now }
{
    for number in numbers {
        push_number(line, *number);
    }
}

// Spells a number at the end of some bytes, and answers where it begins. `itoa` and a copy take twice as long on short numbers.
fn spell(digits: &mut [u8], number: u64) -> usize
    requires { length digits.old ≡ 20 }
    ensures spelt { drop result digits.new ≡ decimal number }
    ensures length { length digits.new ≡ 20 }
    ensures within { result ≤ 20 }
{
    let mut first = DIGITS_ROOM;
    let mut left = number;
    while left >= 10 {
        first -= 1;
        digits[first] = b'0' + (left % 10) as u8;
        left /= 10;
    }
    first -= 1;
    digits[first] = b'0' + left as u8;
    first
}

// Puts a space and a number at a place, and answers the place behind them.
fn put_number(line: &mut [u8], at: usize, number: u64) -> usize
    requires { at + 21 ≤ length line.old }
    ensures place { result ≤ at + 21 }
    ensures put { take result line.new ≡ take at line.old ++ (32 ∷ decimal number) }
    ensures length { length line.new ≡ length line.old }
{
    let mut digits = [0; DIGITS_ROOM];
    let first = spell(&mut digits, number);
    let place = put_bytes(line, at, b" ");
    put_bytes(line, place, &digits[first..DIGITS_ROOM])
}

/// Puts numbers, each after a space, at a place, and answers the place behind them.
pub fn put_numbers(line: &mut [u8], at: usize, numbers: &[u64]) -> usize
    requires { at + 21 * length numbers.now ≤ length line.old }
    ensures place { result ≤ at + 21 * length numbers.now }
    ensures put { take result line.new ≡ take at line.old ++ numbered numbers.now }
    ensures length { length line.new ≡ length line.old }
{
    let mut place = at;
    for number in numbers {
        place = put_number(line, place, *number);
    }
    place
}
