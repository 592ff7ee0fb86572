// Paths as the script language writes them.
ghost use Rattle.std.specs.Prelude.{◌≡◌, ℕ, ◌≤◌, List, ◌∷◌, MatchOption, ◌≢◌};
ghost use Rattle.protocol.specs.Commands.{Steps, bracketed, path_limit};
ghost use Rattle.protocol.specs.Paths.{steps_of};

use crate::path::Path;
use notation::{after, number};

/// The path in brackets at the front of some bytes, and the bytes behind it.
pub fn read_path(bytes: &[u8]) -> Option<(Path, &[u8])>
    ensures { MatchOption result ((p rest : List ℕ) → Steps p → bytes.now ≢ bracketed p rest) (λ q. (q.0.length ≤ path_limit) × Steps (steps_of q.0) × (bytes.now ≡ bracketed (steps_of q.0) q.1.now)) }
{
    let inside = after(b'(', bytes)?;
    if let Some(rest) = after(b')', inside) {
        return Some((Path::new(), rest));
    }
    read_steps(inside)
}

// The steps of a path that has some, after its open byte.
fn read_steps(inside: &[u8]) -> Option<(Path, &[u8])>
    ensures { MatchOption result ((v : ℕ) (vs rest : List ℕ) → Steps (v ∷ vs) → 40 ∷ inside.now ≢ bracketed (v ∷ vs) rest) (λ q. (q.0.length ≤ path_limit) × Steps (steps_of q.0) × (40 ∷ inside.now ≡ bracketed (steps_of q.0) q.1.now)) }
{
    let mut path = Path::new();
    let mut left = inside;
    loop {
        let (step, behind) = number(left)?;
        let Ok(()) = path.push(step) else {
            return None;
        };
        if let Some(rest) = after(b')', behind) {
            return Some((path, rest));
        }
        left = after(b' ', behind)?;
    }
}
