// A line as a command.
ghost use Rattle.std.specs.Prelude.{◌≡◌, MatchResult};
ghost use Rattle.replay.specs.Commands.{Reads, Understood, Refused, Says};
ghost use Rattle.replay.specs.Forms.{measure_form, admit_form, limiter_form_of, position_form_of, head};
ghost use Rattle.replay.specs.Orders.{Order};
ghost use Rattle.replay.specs.Rendering.{InRange, rendering};
ghost use Rattle.replay.specs.Words.{choice};

use crate::arguments::Words;
use crate::command::{Command, Fault};
use crate::words::{Choice, Verb};

// The command that a line spells, or why it spells none.
pub fn parse(line: &[u8]) -> Result<Command<'_>, Fault>
    ensures reads { MatchResult result (λ c. Understood line.now c) (λ f. Refused line.now f) }
    ensures round { (o : Order) → InRange o → line.now ≡ rendering o → MatchResult result (λ c. Says c o) (λ _. ⊥) }
{
    let (word, words) = Words::split(line);
    match Verb::try_from(word)? {
        Verb::Measure => measure(words),
        Verb::Admit => admit(words),
        Verb::Limiter => limiter(words),
        Verb::Position => position(words),
    }
}

fn measure(mut words: Words<'_>) -> Result<Command<'_>, Fault>
    ensures { Reads measure_form words.entry result }
{
    Ok(Command::Measure {
        width: words.number()?,
        rule: words.rule()?,
        text: words.text()?,
    })
}

fn admit(words: Words<'_>) -> Result<Command<'_>, Fault>
    ensures { Reads admit_form words.entry result }
{
    Ok(Command::Admit {
        text: words.text()?,
    })
}

fn limiter(mut words: Words<'_>) -> Result<Command<'_>, Fault>
    ensures { Reads (limiter_form_of (choice (head words.entry))) words.entry result }
{
    if let Some(Choice::Allow) = words.choice() {
        words.skip();
        return Ok(Command::LimiterAllow {
            now: words.last_number()?,
        });
    }
    Ok(Command::Limiter {
        rate: words.rate()?,
        start: words.last_number()?,
    })
}

fn position(mut words: Words<'_>) -> Result<Command<'_>, Fault>
    ensures { Reads (position_form_of (choice (head words.entry))) words.entry result }
{
    let Some(choice) = words.choice() else {
        return Ok(Command::Position {
            start: words.last_number()?,
        });
    };
    words.skip();
    match choice {
        Choice::Allow => Ok(Command::PositionAllow {
            now: words.last_number()?,
        }),
        Choice::Reset => Ok(Command::PositionReset {
            now: words.last_number()?,
        }),
        Choice::Set => Ok(Command::PositionSet {
            position: words.last_number()?,
        }),
        Choice::Get => {
            words.end()?;
            Ok(Command::PositionGet)
        }
    }
}
