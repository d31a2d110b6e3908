// The operations of a terminal as values.
ghost use Rattle.std.specs.Prelude.{◌≡◌, ℕ, List};
ghost use Rattle.refusal.specs.Numbers.{code, beside};
ghost use Rattle.text.specs.Texts.{characters};
ghost use Rattle.terminal.specs.Meant.{meant};
ghost use Rattle.terminal.specs.Operations.{write, cost};
ghost use Rattle.terminal.specs.Rows.{ShowsMeasured};
ghost use Rattle.terminal.specs.Steps.{Answered, verdict, first_of};

use crate::term_like::TermLike;
use refusal::Refusal;
use text::admission::admit;

#[derive(Clone, Copy, Debug, PartialEq, Eq)]
pub enum Direction {
    Up,
    Down,
    Right,
    Left,
}

#[derive(Clone, Copy, Debug, PartialEq, Eq)]
pub enum Operation<'a> {
    Move(Direction, usize),
    ClearLine,
    WriteStr(&'a [u8]),
    WriteReturn,
    WriteLine(&'a [u8]),
    Flush,
}

impl Operation<'_> {
    // How many bytes it writes.
    #[tactic(auto, using(crate::proofs::Costs::move_cost))]
    pub fn cost(self) -> usize
        ensures { result ≡ cost (meant self.entry) }
    {
        match self {
            Operation::Move(_, 0) | Operation::Flush => 0,
            // ESC, [, the digits and a letter
            Operation::Move(_, n) => n.ilog10() as usize + 4,
            Operation::ClearLine => 5,
            Operation::WriteStr(text) => text.len(),
            Operation::WriteReturn => 1,
            Operation::WriteLine(text) => text.len() + 1,
        }
    }

    // Whether a terminal of this credit does it.
    pub fn check(self, credit: Option<usize>) -> Result<(), Refusal>
        ensures number { code result ≡ verdict (meant self.entry) credit }
        ensures place { beside result ≡ first_of (verdict (meant self.entry) credit) }
    {
        if let Operation::WriteStr(text) | Operation::WriteLine(text) = self {
            admit(text)?;
        }
        match credit {
            Some(bytes) if bytes < self.cost() => Err(Refusal::Credit(0)),
            _ => Ok(()),
        }
    }
}

// Does one operation on a terminal.
pub fn operate<T: TermLike>(term: &mut T, operation: Operation<'_>) -> Result<(), Refusal>
    ensures answered { Answered T.funds T.steps (meant operation.entry) term.old result term.new }
    ensures rows { (text : List ℕ) → meant operation.entry ≡ write text → code result ≡ 0 → ShowsMeasured (characters text) (T.meaning term.old) (T.meaning term.new) }
{
    term.apply(operation)
}
