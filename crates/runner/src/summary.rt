// How often a run was answered.
ghost use Rattle.std.specs.Prelude.{◌≡◌, ◌+◌, ◌-◌, ◌^◌, ◌<◌, Some};
ghost use Rattle.runner.specs.Reasons.{summary_shown};
ghost use Rattle.runner.specs.Runs.{none, counted};

use std::fmt;
use trace::answer::Answer;

#[derive(Clone, Copy, Debug, PartialEq, Eq)]
pub struct Summary {
    pub commands: u64,
    pub refused: u64,
}

impl Summary {
    pub fn new() -> Summary
        ensures { result ≡ none }
    {
        Summary {
            commands: 0,
            refused: 0,
        }
    }

    // One answer more.
    pub(crate) fn count(self, answer: &Answer) -> Summary
        requires { (self.commands < 2 ^ 64 - 1) × (self.refused < 2 ^ 64 - 1) }
        ensures { result ≡ counted answer.now self }
    {
        let refused = match answer {
            Answer::Refused { .. } => self.refused + 1,
            _ => self.refused,
        };
        Summary {
            commands: self.commands + 1,
            refused,
        }
    }
}

impl fmt::Display for Summary {
    ghost output = { λ summary. Some (summary_shown summary) };

    fn fmt<W: fmt::Write>(&self, f: &mut fmt::Formatter<W>) -> fmt::Result {
        write!(f, "commands {}\nrefused {}", self.commands, self.refused)
    }
}
