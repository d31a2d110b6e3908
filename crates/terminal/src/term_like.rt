// A terminal, by what it shows, its credit and its steps.
ghost use Rattle.std.specs.Prelude.{◌≡◌, ℕ, Option};
ghost use Rattle.terminal.specs.Screen.{Screen};
ghost use Rattle.terminal.specs.Meant.{meant};
ghost use Rattle.terminal.specs.Operations.{Op, move, clear_line, write, write_return, write_line, flush};
ghost use Rattle.terminal.specs.Steps.{Answered, TermLaws};

use crate::operation::{Direction, Operation};
use refusal::Refusal;

pub trait TermLike {
    ghost meaning: { Self → Screen };

    // The credit in bytes; None is unlimited.
    ghost funds: { Self → Option ℕ };

    // For each operation done, which values may follow which.
    ghost steps: { Op → Self → Self → Type 0 };

    ghost laws: { TermLaws meaning funds steps };

    fn width(&self) -> usize
        ensures { result ≡ (meaning self.now).width };

    fn height(&self) -> usize
        ensures { result ≡ (meaning self.now).height };

    // How many cells the code point takes.
    fn char_width(&self, c: u32) -> usize
        ensures { result ≡ (meaning self.now).rule c };

    fn credit(&self) -> Option<usize>
        ensures { result ≡ funds self.now };

    // Does one operation.
    fn apply(&mut self, operation: Operation<'_>) -> Result<(), Refusal>
        ensures { Answered funds steps (meant operation.entry) self.old result self.new };

    fn move_cursor_up(&mut self, n: usize) -> Result<(), Refusal>
        ensures { Answered funds steps (move Direction.Up n) self.old result self.new }
    {
        self.apply(Operation::Move(Direction::Up, n))
    }

    fn move_cursor_down(&mut self, n: usize) -> Result<(), Refusal>
        ensures { Answered funds steps (move Direction.Down n) self.old result self.new }
    {
        self.apply(Operation::Move(Direction::Down, n))
    }

    fn move_cursor_right(&mut self, n: usize) -> Result<(), Refusal>
        ensures { Answered funds steps (move Direction.Right n) self.old result self.new }
    {
        self.apply(Operation::Move(Direction::Right, n))
    }

    fn move_cursor_left(&mut self, n: usize) -> Result<(), Refusal>
        ensures { Answered funds steps (move Direction.Left n) self.old result self.new }
    {
        self.apply(Operation::Move(Direction::Left, n))
    }

    fn clear_line(&mut self) -> Result<(), Refusal>
        ensures { Answered funds steps clear_line self.old result self.new }
    {
        self.apply(Operation::ClearLine)
    }

    fn write_str(&mut self, text: &[u8]) -> Result<(), Refusal>
        ensures { Answered funds steps (write text.now) self.old result self.new }
    {
        self.apply(Operation::WriteStr(text))
    }

    fn write_return(&mut self) -> Result<(), Refusal>
        ensures { Answered funds steps write_return self.old result self.new }
    {
        self.apply(Operation::WriteReturn)
    }

    fn write_line(&mut self, text: &[u8]) -> Result<(), Refusal>
        ensures { Answered funds steps (write_line text.now) self.old result self.new }
    {
        self.apply(Operation::WriteLine(text))
    }

    fn flush(&mut self) -> Result<(), Refusal>
        ensures { Answered funds steps flush self.old result self.new }
    {
        self.apply(Operation::Flush)
    }
}
