// A terminal behind a reference is a terminal.
ghost use Rattle.terminal.specs.Lent.{LentStep, lent_laws};

use crate::operation::Operation;
use crate::term_like::TermLike;
use refusal::Refusal;

impl<'a, S: TermLike> TermLike for &'a mut S {
    ghost meaning = { λ s. S.TermLike.meaning s.now };

    ghost funds = { λ s. S.TermLike.funds s.now };

    ghost steps = { LentStep S.TermLike.steps };

    ghost laws = { lent_laws S.TermLike.laws };

    fn width(&self) -> usize {
        (**self).width()
    }

    fn height(&self) -> usize {
        (**self).height()
    }

    fn char_width(&self, c: u32) -> usize {
        (**self).char_width(c)
    }

    fn credit(&self) -> Option<usize> {
        (**self).credit()
    }

    fn apply(&mut self, operation: Operation<'_>) -> Result<(), Refusal> {
        (**self).apply(operation)
    }
}
