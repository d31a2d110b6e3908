// Finds colour sequences by the escape reader.
ghost use Rattle.std.specs.Prelude.{◌≡◌, ℕ, ◌<◌, ◌≤◌, T, length, Some, MatchOption};
ghost use Rattle.escape.specs.Grammar.{Heads};
ghost use Rattle.escape.specs.Pieces.{Opens};

use crate::reader::{EscapeReader, Verdict};

// The length of the colour sequence at the head of s, if one stands there.
pub fn sequence_len(s: &[u8]) -> Option<usize>
    ensures found { MatchOption result ((n : ℕ) → Heads s.now n → ⊥) (λ n. Heads s.now n) }
    ensures all { (n : ℕ) → Heads s.now n → result ≡ Some n }
{
    let mut reader = EscapeReader::new();
    for (i, b) in s.iter().enumerate() {
        match reader.step(*b)? {
            Verdict::Colour if reader.is_ground() => return Some(i + 1),
            Verdict::Colour => {}
            Verdict::Plain => return None,
        }
    }
    None
}

// Whether a colour sequence begins at the place k of s.
fn opens(s: &[u8], k: usize) -> bool
    requires { k ≤ length s.now }
    ensures yes { T result → Opens s.now k }
    ensures no { Opens s.now k → T result }
{
    sequence_len(&s[k..]).is_some()
}

// How far s is plain: up to the first place after its head where a colour sequence begins, or to its end.
pub(crate) fn plain_len(s: &[u8]) -> usize
    requires { 0 < length s.now }
    ensures within { (0 < result) × (result ≤ length s.now) }
    ensures plain { (k : ℕ) → 0 < k → k < result → Opens s.now k → ⊥ }
    ensures next { result < length s.now → Opens s.now result }
{
    (1..s.len()).find(|n| opens(s, *n)).unwrap_or(s.len())
}
