// Numbers of the script language.
ghost use Rattle.std.specs.Prelude.{◌≡◌, ℕ, ◌<◌, ◌≤◌, true, List, ◌∷◌, length, decimal, MatchOption, ◌≢◌};
ghost use Rattle.std.specs.Char.{is_ascii_digit};
ghost use Rattle.std.specs.List.{prefix_len};
ghost use Rattle.std.specs.Str.{all_ascii_digits};
ghost use Rattle.notation.specs.Numbers.{number_bound, Front, spaced};

// No number has more digits.
const DIGITS: usize = 5;

// How many digits stand at the front.
fn count_digits(bytes: &[u8]) -> usize
    ensures run { result ≡ prefix_len is_ascii_digit bytes.now }
    ensures within { result ≤ length bytes.now }
{
    bytes
        .iter()
        .take_while(|byte| byte.is_ascii_digit())
        .count()
}

// The number that digits spell.
#[tactic(auto, using(crate::proofs::Digits::zero_alone, crate::proofs::Digits::some_digits, crate::proofs::Digits::few_digits))]
fn value(digits: &[u8]) -> Option<u16>
    requires { all_ascii_digits digits.now ≡ true }
    ensures { MatchOption result ((v : ℕ) → v < number_bound → digits.now ≢ decimal v) (λ v. (v < number_bound) × (digits.now ≡ decimal v)) }
{
    if digits.is_empty() || digits.len() > DIGITS {
        return None;
    }
    match digits {
        // A number that begins with a zero is that digit alone.
        [b'0', _, ..] => None,
        // Nothing wraps: five digits are below 2 ^ 32. `take` tells the compiler how often the loop runs at most, and short numbers
        // take a third longer without it.
        _ => {
            let value = digits.iter().take(DIGITS).fold(0u32, |value, digit| {
                value
                    .wrapping_mul(10)
                    .wrapping_add(u32::from(digit.wrapping_sub(b'0')))
            });
            u16::try_from(value).ok()
        }
    }
}

/// The number at the front of some bytes, and the bytes behind it.
#[tactic(auto, using(crate::proofs::Digits::front_digits, crate::proofs::Digits::front_number, crate::proofs::Digits::no_front))]
pub fn number(bytes: &[u8]) -> Option<(u16, &[u8])>
    ensures { MatchOption result ((v : ℕ) (rest : List ℕ) → Front bytes.now v rest → ⊥) (λ p. Front bytes.now p.0 p.1.now) }
{
    let (digits, rest) = bytes.split_at(count_digits(bytes));
    let value = value(digits)?;
    Some((value, rest))
}

/// The bytes behind one that has to come first.
pub fn after(byte: u8, bytes: &[u8]) -> Option<&[u8]>
    ensures { MatchOption result ((rest : List ℕ) → bytes.now ≢ byte ∷ rest) (λ p. bytes.now ≡ byte ∷ p.now) }
{
    match bytes {
        [first, rest @ ..] if *first == byte => Some(rest),
        _ => None,
    }
}

/// A number and the bytes behind the space that follows it.
pub fn spaced_number(bytes: &[u8]) -> Option<(u16, &[u8])>
    ensures { MatchOption result ((v : ℕ) (rest : List ℕ) → v < number_bound → bytes.now ≢ spaced v rest) (λ p. (p.0 < number_bound) × (bytes.now ≡ spaced p.0 p.1.now)) }
{
    let (value, behind) = number(bytes)?;
    let rest = after(b' ', behind)?;
    Some((value, rest))
}

/// A number that is all of the bytes.
#[tactic(auto, using(crate::proofs::Digits::no_whole, crate::proofs::Digits::is_whole, crate::proofs::Digits::not_whole))]
pub fn whole_number(bytes: &[u8]) -> Option<u16>
    ensures { MatchOption result ((v : ℕ) → v < number_bound → bytes.now ≢ decimal v) (λ v. (v < number_bound) × (bytes.now ≡ decimal v)) }
{
    match number(bytes)? {
        (value, []) => Some(value),
        _ => None,
    }
}
