// The words of a line.
ghost use Rattle.std.specs.Prelude.{◌≡◌};
ghost use Rattle.std.specs.List.{list_any};
ghost use Rattle.std.specs.Str.{bytes_eq};
ghost use Rattle.replay.specs.Words.{pick, rows, later, verb, choice, ReadsRule};

use crate::command::{Fault, Rule};

// What a table of words has for a word.
fn look_up<T: Copy>(table: &[(&str, T)], word: &[u8]) -> Option<T>
    ensures { result ≡ pick word.now (rows table.now) }
{
    table
        .iter()
        .find(|row| word == row.0.as_bytes())
        .map(|row| row.1)
}

// The first word of a command.
#[derive(Clone, Copy, Debug, PartialEq, Eq)]
pub(crate) enum Verb {
    Measure,
    Admit,
    Limiter,
    Position,
}

const VERBS: [(&str, Verb); 4] = [
    ("measure", Verb::Measure),
    ("admit", Verb::Admit),
    ("limiter", Verb::Limiter),
    ("position", Verb::Position),
];

// The commands of layers that are not here.
const LATER: [&str; 20] = [
    "terminal", "engine", "credit", "insert", "remove", "mark", "fill", "bar", "text", "empty",
    "done", "align", "cursor", "draw", "force", "println", "clear", "op", "state", "screen",
];

fn is_later(word: &[u8]) -> bool
    ensures { result ≡ list_any (bytes_eq word.now) later }
{
    LATER.iter().any(|name| word == name.as_bytes())
}

impl TryFrom<&[u8]> for Verb {
    type Error = Fault;

    ghost try_from_gives = { λ word r. r ≡ verb word.now };

    fn try_from(word: &[u8]) -> Result<Verb, Fault> {
        match look_up(&VERBS, word) {
            Some(verb) => Ok(verb),
            None if is_later(word) => Err(Fault::Unsupported),
            None => Err(Fault::Unknown),
        }
    }
}

// The second word of `limiter` and of `position`.
#[derive(Clone, Copy, Debug, PartialEq, Eq)]
pub(crate) enum Choice {
    Allow,
    Reset,
    Set,
    Get,
}

const CHOICES: [(&str, Choice); 4] = [
    ("allow", Choice::Allow),
    ("reset", Choice::Reset),
    ("set", Choice::Set),
    ("get", Choice::Get),
];

impl Choice {
    pub(crate) fn read(word: &[u8]) -> Option<Choice>
        ensures { result ≡ choice word.now }
    {
        look_up(&CHOICES, word)
    }
}

const RULES: [(&str, Rule); 2] = [("plain", Rule::Plain), ("house", Rule::House)];

impl TryFrom<&[u8]> for Rule {
    type Error = Fault;

    ghost try_from_gives = { λ word r. ReadsRule word.now r };

    fn try_from(word: &[u8]) -> Result<Rule, Fault> {
        look_up(&RULES, word).ok_or(Fault::Rule)
    }
}
