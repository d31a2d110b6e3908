// A script and its lines, a line and its words.
ghost use Rattle.std.specs.Prelude.{◌≡◌, length, Decides, MatchOption};
ghost use Rattle.std.specs.Iterator.{item_count};
ghost use Rattle.std.specs.Option.{option_map};
ghost use Rattle.script.specs.Cuts.{Cut};
ghost use Rattle.script.specs.Scripts.{Line, Skipped};

use std::marker::Model;

// The bytes before the first `at`, and what follows it if there is one.
pub fn cut(bytes: &[u8], at: u8) -> (&[u8], Option<&[u8]>)
    ensures { Cut at bytes.now result.0.now (option_map (λ x. x.now) result.1) }
{
    match bytes.iter().position(|b| *b == at) {
        Some(i) => (&bytes[..i], Some(&bytes[i + 1..])),
        None => (bytes, None),
    }
}

// The first line of a script, without its end, and the rest of the script.
pub fn next_line(script: &[u8]) -> Option<(&[u8], &[u8])>
    ensures { MatchOption result (length script.now ≡ 0) (λ p. Line script.now p.0.now p.1.now) }
{
    if script.is_empty() {
        return None;
    }
    let (line, rest) = cut(script, b'\n');
    Some((line, rest.unwrap_or(b"")))
}

// The lines of a script, without their ends.
#[derive(Debug, Drop)]
pub struct Lines<'a> {
    rest: &'a [u8],
}

impl<'a> Model for Lines<'a> {
    ghost use Rattle.std.specs.Prelude.{ℕ, List};

    ghost Value = { List ℕ };

    ghost view = { λ s. s.rest.now };
}

impl<'a> Lines<'a> {
    pub fn new(script: &'a [u8]) -> Self
        ensures { result ≡ script.now }
    {
        Lines { rest: script }
    }
}

impl<'a> Iterator for Lines<'a> {
    type Item = &'a [u8];

    ghost next_gives = { λ s r t. MatchOption r ((length s ≡ 0) × (t ≡ s)) (λ line. Line s line.now t) };

    ghost remaining = { item_count (λ s. s) };

    fn next(&mut self) -> Option<&'a [u8]> {
        let (line, rest) = next_line(self.rest)?;
        self.rest = rest;
        Some(line)
    }
}

// Whether a line is passed over: a blank one, or a comment.
pub fn is_skipped(line: &[u8]) -> bool
    ensures { Decides result (Skipped line.now) }
{
    line.starts_with(b"#") || line.iter().all(|b| *b == b' ')
}
