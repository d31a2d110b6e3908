// Cuts a line into its pieces.
ghost use Rattle.std.specs.Prelude.{◌≡◌, ◌+◌, ◌-◌, ◌≤◌, List, [], ◌∷◌, ◌++◌, length, IfSome, MatchOption};
ghost use Rattle.escape.specs.Pieces.{Part, bytes, view, Cut, LiesAt, Given, Divided, NextPiece};
ghost use Rattle.std.specs.Iterator.{at_most};

use crate::piece::Piece;
use crate::sequence::{plain_len, sequence_len};

#[derive(Debug, Drop)]
pub struct AnsiCodeIterator<'a> {
    line: &'a [u8],
    at: usize,
    ghost inside: { at ≤ length line.now },
}

// The piece of the line that begins at the place from, or None at the end of the line.
fn cut(line: &[u8], from: usize) -> Option<Piece<'_>>
    requires { from ≤ length line.now }
    ensures cut { MatchOption result (from ≡ length line.now) (λ p. Cut line.now from (from + length (bytes (view p))) (view p)) }
    ensures place { IfSome result (λ p. LiesAt line.entry from p) }
    ensures all { (ps : List Part) → Given line.now ps from → MatchOption result (Divided line.now ps) (λ p. Given line.now (ps ++ view p ∷ []) (from + length (bytes (view p)))) }
{
    let rest = &line[from..];
    if rest.is_empty() {
        return None;
    }
    match sequence_len(rest) {
        Some(n) => Some(Piece::Colour(&rest[..n])),
        None => Some(Piece::Plain(&rest[..plain_len(rest)])),
    }
}

impl<'a> AnsiCodeIterator<'a> {
    pub fn new(line: &'a [u8]) -> AnsiCodeIterator<'a>
        ensures at { result.at ≡ 0 }
        ensures line { result.line ≡ line.entry }
    {
        AnsiCodeIterator { line, at: 0 }
    }
}

// The next piece, or None at the end of the line.
impl<'a> Iterator for AnsiCodeIterator<'a> {
    type Item = Piece<'a>;

    ghost next_gives = { λ s r t. NextPiece s.line s.at r t.line t.at };

    ghost remaining = { λ s. at_most (length s.line.now - s.at) };

    fn next(&mut self) -> Option<Piece<'a>> {
        let from = self.at;
        let piece = cut(self.line, from)?;
        self.at = from + piece.as_bytes().len();
        Some(piece)
    }
}
