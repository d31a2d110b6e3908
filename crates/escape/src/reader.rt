// The escape reader: by its state and the next byte it moves between a text and its colour sequences.
ghost use Rattle.std.specs.Prelude.{◌≡◌};
ghost use Rattle.escape.specs.Reader.{after, verdict, ended};
ghost use Rattle.escape.specs.declared.reader.State.TheVariants.{Ground};

use std::marker::Model;

#[derive(Clone, Copy, Debug, PartialEq, Eq)]
pub enum State {
    Ground,
    Escaped,
    Parameters,
    Intermediates,
}

// What a byte that may stand in a text is: a plain character, or a part of a colour sequence.
#[derive(Clone, Copy, Debug, PartialEq, Eq)]
pub enum Verdict {
    Plain,
    Colour,
}

#[derive(Clone, Copy, Debug, PartialEq, Eq)]
pub struct EscapeReader {
    state: State,
}

impl Model for EscapeReader {
    ghost use Rattle.escape.specs.declared.reader.State.{State};

    ghost Value = { State };

    ghost view = { λ r. r.state };

    ghost inverse = { λ s. record { state = s } };
}

impl EscapeReader {
    pub fn new() -> EscapeReader
        ensures { result ≡ Ground }
    {
        EscapeReader {
            state: State::Ground,
        }
    }

    // Takes one byte, or None: a byte that may not stand here leaves the state as it was.
    pub fn step(&mut self, b: u8) -> Option<Verdict>
        ensures state { self.new ≡ after self.old b }
        ensures value { result ≡ verdict self.old b }
    {
        match (self.state, b) {
            (State::Ground, 27) => {
                self.state = State::Escaped;
                Some(Verdict::Colour)
            }
            (State::Ground, 32..=126 | 160..=255) => Some(Verdict::Plain),
            (State::Escaped, 91) => {
                self.state = State::Parameters;
                Some(Verdict::Colour)
            }
            (State::Parameters, 48..=63) => Some(Verdict::Colour),
            (State::Parameters | State::Intermediates, 32..=47) => {
                self.state = State::Intermediates;
                Some(Verdict::Colour)
            }
            (State::Parameters | State::Intermediates, 109) => {
                self.state = State::Ground;
                Some(Verdict::Colour)
            }
            _ => None,
        }
    }

    // Takes one character: what lies above a byte is to the reader as the byte 255.
    pub fn read(&mut self, c: u32) -> Option<Verdict>
        ensures state { self.new ≡ after self.old c }
        ensures value { result ≡ verdict self.old c }
    {
        self.step(u8::try_from(c).unwrap_or(255))
    }

    // Whether the reader stands between sequences.
    pub fn is_ground(&self) -> bool
        ensures { result ≡ ended self.now }
    {
        self.state == State::Ground
    }
}
