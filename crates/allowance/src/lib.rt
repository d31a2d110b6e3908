// A credit that can be set, over any terminal.
#![tactic(auto)]

ghost use Rattle.std.specs.Prelude.{◌≡◌};
ghost use Rattle.allowance.specs.Allowed.{smaller, AllowedStep, allowed_laws};

use refusal::Refusal;
use std::marker::Model;
use terminal::operation::Operation;
use terminal::term_like::TermLike;

#[derive(Debug, Drop)]
pub struct Allowance<T> {
    term: T,
    // in bytes; None is unlimited
    credit: Option<usize>,
}

impl<T> Model for Allowance<T> {
    ghost use Rattle.allowance.specs.Allowed.{Allowed};

    ghost Value = { Allowed T };

    ghost view = { λ a. record { term = a.term; credit = a.credit } };
}

impl<T> Allowance<T> {
    pub fn new(term: T, credit: Option<usize>) -> Self
        ensures below { result.term ≡ term }
        ensures own { result.credit ≡ credit }
    {
        Allowance { term, credit }
    }

    // Sets the credit of its own, or with None lifts it.
    pub fn set_credit(&mut self, credit: Option<usize>)
        ensures below { self.new.term ≡ self.old.term }
        ensures own { self.new.credit ≡ credit }
    {
        self.credit = credit;
    }

    // The terminal below.
    pub fn term(&self) -> &T
        ensures { result.now ≡ self.now.term }
    {
        &self.term
    }

    pub fn into_term(self) -> T
        ensures { result ≡ self.term }
    {
        self.term
    }
}

impl<T: TermLike> TermLike for Allowance<T> {
    ghost meaning = { λ a. T.TermLike.meaning a.term };

    ghost funds = { λ a. smaller a.credit (T.TermLike.funds a.term) };

    ghost steps = { AllowedStep T.TermLike.steps };

    ghost laws = { allowed_laws T.TermLike.laws };

    fn width(&self) -> usize {
        self.term.width()
    }

    fn height(&self) -> usize {
        self.term.height()
    }

    fn char_width(&self, c: u32) -> usize {
        self.term.char_width(c)
    }

    fn credit(&self) -> Option<usize> {
        match (self.credit, self.term.credit()) {
            (Some(own), Some(below)) => Some(own.min(below)),
            (own, below) => own.or(below),
        }
    }

    fn apply(&mut self, operation: Operation<'_>) -> Result<(), Refusal> {
        operation.check((*self).credit())?;
        self.term.apply(operation)?;
        if let Some(credit) = &mut self.credit {
            *credit -= operation.cost();
        }
        Ok(())
    }
}
