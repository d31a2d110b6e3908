// A part of a line: a run of plain text, or one colour sequence.
ghost use Rattle.std.specs.Prelude.{◌≡◌};
ghost use Rattle.escape.specs.Pieces.{at, bytes, view};

#[derive(Clone, Copy, Debug, PartialEq, Eq)]
pub enum Piece<'a> {
    Plain(&'a [u8]),
    Colour(&'a [u8]),
}

impl<'a> Piece<'a> {
    pub fn as_bytes(self) -> &'a [u8]
        ensures bytes { result.now ≡ bytes (view self.entry) }
        ensures place { result.ref_ptr ≡ at self.entry }
    {
        match self {
            Piece::Plain(run) => run,
            Piece::Colour(sequence) => sequence,
        }
    }
}
