// How a run comes to its end before its script does.
ghost use Rattle.std.specs.Prelude.{◌≡◌, Some};
ghost use Rattle.runner.specs.Reasons.{reason, stop_shown};
ghost use Rattle.runner.specs.declared.stop.Halt.TheVariants as halts;

use replay::command::Fault;
use std::alloc::AllocError;
use std::error::Error;
use std::fmt;

// Why a line was not answered.
#[derive(Clone, Copy, Debug, PartialEq, Eq)]
pub enum Halt {
    Fault(Fault),
    // it asks a limiter that was not made
    Missing,
    Memory,
}

impl Halt {
    pub fn message(self) -> &'static str
        ensures { result.now ≡ reason self }
    {
        match self {
            Halt::Fault(fault) => fault.message(),
            Halt::Missing => "no limiter of this kind was made",
            Halt::Memory => "out of memory",
        }
    }
}

impl From<Fault> for Halt {
    ghost from_gives = { λ fault halt. halt ≡ halts.Fault fault };

    fn from(fault: Fault) -> Self {
        Halt::Fault(fault)
    }
}

impl From<AllocError> for Halt {
    ghost from_gives = { λ _ halt. halt ≡ halts.Memory };

    fn from(_error: AllocError) -> Self {
        Halt::Memory
    }
}

impl fmt::Display for Halt {
    ghost output = { λ halt. Some (reason halt) };

    fn fmt<W: fmt::Write>(&self, f: &mut fmt::Formatter<W>) -> fmt::Result {
        f.write_str(self.message())
    }
}

impl Error for Halt {}

// The line, counted from 1, at which a run stopped, and why.
#[derive(Clone, Copy, Debug, PartialEq, Eq)]
pub struct Stop {
    pub line: u64,
    pub halt: Halt,
}

impl fmt::Display for Stop {
    ghost output = { λ stop. Some (stop_shown stop) };

    fn fmt<W: fmt::Write>(&self, f: &mut fmt::Formatter<W>) -> fmt::Result {
        write!(f, "line {}: {}", self.line, self.halt)
    }
}

impl Error for Stop {}
