// Answers, and the trace of a run.
ghost use Rattle.std.specs.Prelude.{◌≡◌, Some};
ghost use Rattle.trace.specs.Appends.{Appends};
ghost use Rattle.trace.specs.Traces.{shown, traced, yes_or_no};

use crate::put::{put, put_numbered, put_two};
use std::alloc::AllocError;
use std::fmt;

// What a command answers.
#[derive(Clone, Copy, Debug, PartialEq, Eq)]
pub enum Answer {
    Ok,
    // The place is that of a call on several lines or operations.
    Refused { number: u8, place: Option<u64> },
    Metrics { rows: u64, column: u64 },
    Yes,
    No,
    Position { at: u64 },
}

impl From<bool> for Answer {
    ghost from_gives = { λ yes answer. answer ≡ yes_or_no yes };

    fn from(yes: bool) -> Self {
        if yes { Answer::Yes } else { Answer::No }
    }
}

impl fmt::Display for Answer {
    ghost output = { λ answer. Some (shown answer) };

    fn fmt<W: fmt::Write>(&self, f: &mut fmt::Formatter<W>) -> fmt::Result {
        match *self {
            Answer::Ok => write!(f, "ok"),
            Answer::Refused {
                number,
                place: None,
            } => write!(f, "refused {number}"),
            Answer::Refused {
                number,
                place: Some(at),
            } => write!(f, "refused {number} at {at}"),
            Answer::Metrics { rows, column } => write!(f, "rows {rows} column {column}"),
            Answer::Yes => write!(f, "yes"),
            Answer::No => write!(f, "no"),
            Answer::Position { at } => write!(f, "position {at}"),
        }
    }
}

// Appends the answer as the trace shows it; without memory, its first bytes.
pub fn show(out: &mut Vec<u8>, answer: &Answer) -> Result<(), AllocError>
    ensures { Appends (shown answer.now) out.old.items result out.new.items }
{
    match *answer {
        Answer::Ok => put(out, b"ok"),
        Answer::Refused {
            number,
            place: None,
        } => put_numbered(out, b"refused ", u64::from(number)),
        Answer::Refused {
            number,
            place: Some(at),
        } => put_two(out, b"refused ", u64::from(number), b" at ", at),
        Answer::Metrics { rows, column } => put_two(out, b"rows ", rows, b" column ", column),
        Answer::Yes => put(out, b"yes"),
        Answer::No => put(out, b"no"),
        Answer::Position { at } => put_numbered(out, b"position ", at),
    }
}

// Appends the trace of one command: its line as it stood, and its answer; without memory, the first bytes of that.
pub fn trace(out: &mut Vec<u8>, line: &[u8], answer: &Answer) -> Result<(), AllocError>
    ensures { Appends (traced line.now answer.now) out.old.items result out.new.items }
{
    put(out, b"> ")?;
    put(out, line)?;
    put(out, b"\n")?;
    show(out, answer)?;
    put(out, b"\n")
}
