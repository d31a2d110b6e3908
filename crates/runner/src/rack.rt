// What stands while a script runs, and the commands on it.
ghost use Rattle.std.specs.Prelude.{◌≡◌};
ghost use Rattle.runner.specs.Answers.{state, nothing, answer, after};
ghost use Rattle.replay.specs.Commands.{said};

use crate::calls::{admitted, make_limiter, measured, told};
use limiter::{AtomicPosition, RateLimiter};
use replay::command::Command;
use std::marker::Model;
use trace::answer::Answer;

#[derive(Debug, Drop)]
pub struct Rack {
    limiter: Option<RateLimiter>,
    position: Option<AtomicPosition>,
}

impl Model for Rack {
    ghost use Rattle.runner.specs.Answers.{Held};

    ghost Value = { Held };

    ghost view = { λ rack. record { limiter = rack.limiter; position = rack.position } };
}

impl Rack {
    pub fn new() -> Rack
        ensures { state result ≡ nothing }
    {
        Rack {
            limiter: None,
            position: None,
        }
    }

    // The command's answer, where its text means `text`; None where it asks a limiter that was not made.
    pub fn perform(&mut self, command: &Command<'_>, text: &[u8]) -> Option<Answer>
        ensures answer { result ≡ answer (state self.old) (said command.now text.now) }
        ensures after { state self.new ≡ after (state self.old) (said command.now text.now) }
    {
        match *command {
            Command::Measure { width, rule, .. } => Some(told(measured(width, rule, text))),
            Command::Admit { .. } => Some(told(admitted(text))),
            Command::Limiter { rate, start } => {
                Some(told(make_limiter(&mut self.limiter, rate, start)))
            }
            Command::LimiterAllow { now } => {
                let yes = self.limiter.as_mut()?.allow(now);
                Some(yes.into())
            }
            Command::Position { start } => {
                self.position = Some(AtomicPosition::new(start));
                Some(Answer::Ok)
            }
            Command::PositionAllow { now } => {
                let yes = self.position.as_mut()?.allow(now);
                Some(yes.into())
            }
            Command::PositionReset { now } => {
                self.position.as_mut()?.reset(now);
                Some(Answer::Ok)
            }
            Command::PositionSet { position } => {
                self.position.as_mut()?.set(position);
                Some(Answer::Ok)
            }
            Command::PositionGet => {
                let at = self.position.as_ref()?.get();
                Some(Answer::Position { at })
            }
        }
    }
}
