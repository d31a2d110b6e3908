// What is left of a line, and the arguments that are taken from its left.
ghost use Rattle.std.specs.Prelude.{◌≡◌, [], ◌∷◌, MatchResult};
ghost use Rattle.script.specs.Cuts.{Cut};
ghost use Rattle.script.specs.Escapes.{WellFormed};
ghost use Rattle.replay.specs.Arguments.{Took, Halts, TakesWord};
ghost use Rattle.replay.specs.Faults.{Stops};
ghost use Rattle.replay.specs.Forms.{a_number, a_rate, a_rule, a_text, head, after};
ghost use Rattle.replay.specs.Grammar.{Phrase, raw};
ghost use Rattle.replay.specs.Orders.{number, rate, rule};
ghost use Rattle.replay.specs.Words.{choice};

use crate::command::{Fault, Rule};
use crate::words::Choice;
use script::escape::is_well_formed;
use script::lines::cut;
use script::number::read_number;
use std::marker::Model;

// What is left of a line: the text behind the space that ended the last word, or nothing where the line ended there.
#[derive(Debug, Drop)]
pub(crate) struct Words<'a> {
    rest: Option<&'a [u8]>,
}

impl<'a> Model for Words<'a> {
    ghost use Rattle.std.specs.Prelude.{ℕ, List, Option};
    ghost use Rattle.std.specs.Option.{option_map};

    ghost Value = { Option (List ℕ) };

    ghost view = { λ words. option_map (λ x. x.now) words.rest };
}

impl<'a> Words<'a> {
    // The first word of a text, and what follows it.
    pub(crate) fn split(text: &'a [u8]) -> (&'a [u8], Words<'a>)
        ensures { Cut 32 text.now result.0.now result.1 }
    {
        let (word, rest) = cut(text, b' ');
        (word, Words { rest })
    }

    fn word(&mut self) -> Result<&'a [u8], Fault>
        ensures { TakesWord self.old result self.new }
    {
        let (word, rest) = Words::split(self.rest.ok_or(Fault::Words)?);
        *self = rest;
        Ok(word)
    }

    // What the next word chooses; it is not taken.
    pub(crate) fn choice(&self) -> Option<Choice>
        ensures { result ≡ choice (head self.now) }
    {
        let (word, _) = Words::split(self.rest?);
        Choice::read(word)
    }

    // Passes over the next word.
    pub(crate) fn skip(&mut self)
        ensures { self.new ≡ after self.old }
    {
        let _ = self.word();
    }

    pub(crate) fn number(&mut self) -> Result<u64, Fault>
        ensures { MatchResult result (λ n. Took (number n) self.old self.new) (λ f. Halts a_number self.old f) }
    {
        read_number(self.word()?).ok_or(Fault::Number)
    }

    pub(crate) fn rate(&mut self) -> Result<u8, Fault>
        ensures { MatchResult result (λ n. Took (rate n) self.old self.new) (λ f. Halts a_rate self.old f) }
    {
        u8::try_from(self.number()?).map_err(|_| Fault::Rate)
    }

    pub(crate) fn rule(&mut self) -> Result<Rule, Fault>
        ensures { MatchResult result (λ u. Took (rule u) self.old self.new) (λ f. Halts a_rule self.old f) }
    {
        Rule::try_from(self.word()?)
    }

    pub(crate) fn end(self) -> Result<(), Fault>
        ensures { MatchResult result (λ _. Phrase [] self.entry) (λ f. Stops [] self.entry f) }
    {
        match self.rest {
            Some(_) => Err(Fault::Words),
            None => Ok(()),
        }
    }

    pub(crate) fn last_number(mut self) -> Result<u64, Fault>
        ensures { MatchResult result (λ n. Phrase (number n ∷ []) self.entry) (λ f. Stops (a_number ∷ []) self.entry f) }
    {
        let n = self.number()?;
        self.end()?;
        Ok(n)
    }

    // All that is left, as a text.
    pub(crate) fn text(self) -> Result<&'a [u8], Fault>
        ensures { MatchResult result (λ t. (t.now ≡ raw self.entry) × WellFormed (raw self.entry)) (λ f. Stops (a_text ∷ []) self.entry f) }
    {
        let text = self.rest.unwrap_or(b"");
        is_well_formed(text).then_some(text).ok_or(Fault::Escape)
    }
}
