// The canonical line of a command.
ghost use Rattle.std.specs.Prelude.{IfOk, Some};
ghost use Rattle.replay.specs.Orders.{named};
ghost use Rattle.replay.specs.Rendering.{escaped, escaped_byte, meaning, rendering, order_of, Rendered};

use crate::command::{Command, Rule};
use script::escape::SpelledBytes;
use std::alloc::{AllocError, Global};
use std::fmt;

// The line that spells what the command says: numbers without leading zeros, text with the escapes that it needs.
#[tactic(auto, using(crate::proofs::Renders::rendered))]
pub fn render(heap: Global, command: &Command<'_>) -> Result<Vec<u8>, AllocError>
    ensures { IfOk result (λ v. Rendered command.now v.items) }
{
    Ok(command.to_string(heap)?.into_bytes())
}

impl fmt::Display for Command<'_> {
    ghost output = { λ command. Some (rendering (order_of command)) };

    fn fmt<W: fmt::Write>(&self, f: &mut fmt::Formatter<W>) -> fmt::Result {
        match *self {
            Command::Measure { width, rule, text } => {
                write!(f, "measure {width} {rule} {}", Escaped(text))
            }
            Command::Admit { text } => write!(f, "admit {}", Escaped(text)),
            Command::Limiter { rate, start } => write!(f, "limiter {rate} {start}"),
            Command::LimiterAllow { now } => write!(f, "limiter allow {now}"),
            Command::Position { start } => write!(f, "position {start}"),
            Command::PositionAllow { now } => write!(f, "position allow {now}"),
            Command::PositionReset { now } => write!(f, "position reset {now}"),
            Command::PositionSet { position } => write!(f, "position set {position}"),
            Command::PositionGet => write!(f, "position get"),
        }
    }
}

impl fmt::Display for Rule {
    ghost output = { λ rule. Some (named rule) };

    fn fmt<W: fmt::Write>(&self, f: &mut fmt::Formatter<W>) -> fmt::Result {
        match *self {
            Rule::Plain => write!(f, "plain"),
            Rule::House => write!(f, "house"),
        }
    }
}

// A text as it stands in a line, written with no escape but those that its bytes need.
#[derive(Clone, Copy, Debug)]
struct Escaped<'a>(&'a [u8]);

impl fmt::Display for Escaped<'_> {
    ghost output = { λ text. Some (escaped (meaning text.0.now)) };

    fn fmt<W: fmt::Write>(&self, f: &mut fmt::Formatter<W>) -> fmt::Result {
        for b in SpelledBytes::new(self.0) {
            write!(f, "{}", EscapedByte(b))?;
        }
        Ok(())
    }
}

#[derive(Clone, Copy, Debug)]
struct EscapedByte(u8);

impl fmt::Display for EscapedByte {
    ghost output = { λ b. Some (escaped_byte b.0) };

    fn fmt<W: fmt::Write>(&self, f: &mut fmt::Formatter<W>) -> fmt::Result {
        match self.0 {
            b'\\' => write!(f, "\\\\"),
            b'\n' => write!(f, "\\n"),
            b @ b' '..=b'~' => write!(f, "{}", char::from(b)),
            b => write!(f, "\\x{b:02x}"),
        }
    }
}
