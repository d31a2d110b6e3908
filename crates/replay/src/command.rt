// Commands, and the faults of lines that are none.
ghost use Rattle.std.specs.Prelude.{◌≡◌, Some};
ghost use Rattle.replay.specs.Commands.{written};
ghost use Rattle.replay.specs.Messages.{message};

use std::error::Error;
use std::fmt;

// How wide a character is taken to be.
#[derive(Clone, Copy, Debug, PartialEq, Eq)]
pub enum Rule {
    Plain,
    House,
}

// A command, its text as it stands in the line, with its escapes.
#[derive(Clone, Copy, Debug, PartialEq, Eq)]
pub enum Command<'a> {
    Measure {
        width: u64,
        rule: Rule,
        text: &'a [u8],
    },
    Admit {
        text: &'a [u8],
    },
    Limiter {
        rate: u8,
        start: u64,
    },
    LimiterAllow {
        now: u64,
    },
    Position {
        start: u64,
    },
    PositionAllow {
        now: u64,
    },
    PositionReset {
        now: u64,
    },
    PositionSet {
        position: u64,
    },
    PositionGet,
}

impl<'a> Command<'a> {
    // The text as it stands in the line, empty where the command has none.
    pub fn text(&self) -> &'a [u8]
        ensures { result.now ≡ written self.now }
    {
        match *self {
            Command::Measure { text, .. } | Command::Admit { text } => text,
            _ => b"",
        }
    }
}

// Why a line is no command.
#[derive(Clone, Copy, Debug, PartialEq, Eq)]
pub enum Fault {
    Unknown,
    Unsupported,
    Words,
    Number,
    Rate,
    Rule,
    Escape,
}

impl Fault {
    // What is said of the line.
    pub fn message(self) -> &'static str
        ensures { result.now ≡ message self }
    {
        match self {
            Fault::Unknown => "unknown command",
            Fault::Unsupported => "command not supported",
            Fault::Words => "wrong number of words",
            Fault::Number => "not a number from 0 to 18446744073709551615",
            Fault::Rate => "rate above 255",
            Fault::Rule => "width rule is neither plain nor house",
            Fault::Escape => "unknown escape in text",
        }
    }
}

impl fmt::Display for Fault {
    ghost output = { λ fault. Some (message fault) };

    fn fmt<W: fmt::Write>(&self, f: &mut fmt::Formatter<W>) -> fmt::Result {
        f.write_str(self.message())
    }
}

impl Error for Fault {}
