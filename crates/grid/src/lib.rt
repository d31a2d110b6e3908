// A terminal over borrowed cells.
#![tactic(auto)]

ghost use Rattle.std.specs.Prelude.{◌≡◌, None, length};
ghost use Rattle.std.specs.Result.{result_err};
ghost use Rattle.grid.specs.Panes.{Fits, size_refusal};

mod pane;

use pane::Pane;
use refusal::Refusal;
use terminal::operation::Operation;
use terminal::term_like::TermLike;
use text::admission::admit;
use text::measure::{LEAST_WIDTH, MOST_WIDTH};
use text::width::WidthRule;

pub const MOST_HEIGHT: usize = 256;

#[derive(Drop)]
pub struct Grid<'a, R> {
    pane: Pane<'a>,
    rule: R,
    ghost fits: { Fits pane },
}

// Whether a grid of this size has its cells.
pub fn check(width: usize, height: usize, cells: &[u32]) -> Result<(), Refusal>
    ensures { result_err result ≡ size_refusal width height (length cells.now) }
{
    if !(LEAST_WIDTH..=MOST_WIDTH).contains(&width) || !(1..=MOST_HEIGHT).contains(&height) {
        return Err(Refusal::Size);
    }
    if cells.len() < width * height {
        return Err(Refusal::Cells);
    }
    Ok(())
}

impl<'a, R: WidthRule> Grid<'a, R> {
    ghost use Rattle.grid.specs.Grids.{Made};

    // A blank grid on the first cells, where check has passed them.
    pub fn new(width: usize, height: usize, rule: R, cells: &'a mut [u32]) -> Grid<'a, R>
        requires { size_refusal width height (length cells.now) ≡ None }
        ensures { Made R.cells width height rule cells.entry result }
    {
        Grid {
            pane: Pane::new(width, height, cells),
            rule,
        }
    }
}

impl<R: WidthRule> TermLike for Grid<'_, R> {
    ghost use Rattle.grid.specs.Grids.{screen, funds, GridStep, grid_laws};

    ghost meaning = { screen R.cells };

    ghost funds = { funds R.cells };

    ghost steps = { GridStep R.cells };

    ghost laws = { grid_laws R.cells R.lawful };

    fn width(&self) -> usize {
        self.pane.width()
    }

    fn height(&self) -> usize {
        self.pane.height()
    }

    fn char_width(&self, c: u32) -> usize {
        self.rule.width(c)
    }

    fn credit(&self) -> Option<usize> {
        None
    }

    fn apply(&mut self, operation: Operation<'_>) -> Result<(), Refusal> {
        if let Operation::WriteStr(text) | Operation::WriteLine(text) = operation {
            admit(text)?;
        }
        self.pane.apply(&self.rule, operation);
        Ok(())
    }
}
