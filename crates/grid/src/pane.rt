// Borrowed cells, of which the first are a page, and its cursor.
ghost use Rattle.std.specs.Prelude.{◌≡◌, ◌+◌, ◌*◌, ◌<◌, ◌≤◌, true, None, drop, length};
ghost use Rattle.text.specs.Texts.{admissible, characters};
ghost use Rattle.terminal.specs.Meant.{meant};
ghost use Rattle.terminal.specs.Operations.{scrolled, next_row, roomy, celled, inked, written, cleared, moved, returned, fine, done};
ghost use Rattle.terminal.specs.Screen.{blank_page};
ghost use Rattle.grid.specs.Panes.{page, rest, Fits, Turned, size_refusal};

use terminal::operation::{Direction, Operation};
use text::characters::Characters;
use text::width::WidthRule;

const BLANK: u32 = 32;

// Without an invariant, so that parts of the cells can be lent.
#[derive(Drop)]
pub struct Pane<'a> {
    cells: &'a mut [u32],
    width: usize,
    height: usize,
    row: usize,
    column: usize,
}

impl<'a> Pane<'a> {
    // A blank page on the first cells.
    pub(crate) fn new(width: usize, height: usize, cells: &'a mut [u32]) -> Pane<'a>
        requires { size_refusal width height (length cells.now) ≡ None }
        ensures fits { Fits result }
        ensures page { page result ≡ blank_page width height }
        ensures rest { rest result ≡ drop (width * height) cells.old }
        ensures lender { result.cells.ghost_name ≡ cells.entry.ghost_name }
        ensures size { (result.width ≡ width) × (result.height ≡ height) }
    {
        cells[..width * height].fill(BLANK);
        Pane {
            cells,
            width,
            height,
            row: 0,
            column: 0,
        }
    }
}

impl Pane<'_> {
    pub(crate) fn width(&self) -> usize
        ensures { result ≡ self.now.width }
    {
        self.width
    }

    pub(crate) fn height(&self) -> usize
        ensures { result ≡ self.now.height }
    {
        self.height
    }

    // The cell at the cursor takes v.
    fn put(&mut self, v: u32)
        requires fits { Fits self.old }
        requires room { self.old.column < self.old.width }
        ensures fits { Fits self.new }
        ensures turned { Turned (celled self.old.width v (page self.old)) self.old self.new }
    {
        let place = self.row * self.width + self.column;
        self.cells[place] = v;
        self.column += 1;
    }

    // All rows move up, and a blank one enters.
    fn scroll(&mut self)
        requires { Fits self.old }
        ensures fits { Fits self.new }
        ensures turned { Turned (scrolled self.old.width (page self.old)) self.old self.new }
    {
        let area = self.width * self.height;
        self.cells[..area].rotate_left(self.width);
        self.cells[area - self.width..area].fill(BLANK);
        self.column = 0;
    }

    fn next_row(&mut self)
        requires { Fits self.old }
        ensures fits { Fits self.new }
        ensures turned { Turned (next_row self.old.width self.old.height (page self.old)) self.old self.new }
        ensures column { self.new.column ≡ 0 }
    {
        if self.row + 1 < self.height {
            self.row += 1;
            self.column = 0;
        } else {
            self.scroll();
        }
    }

    // Goes to the next row unless k cells are free in this one.
    fn make_room(&mut self, k: usize)
        requires fits { Fits self.old }
        requires few { k ≤ 2 }
        ensures fits { Fits self.new }
        ensures turned { Turned (roomy self.old.width self.old.height k (page self.old)) self.old self.new }
        ensures room { self.new.column + k ≤ self.new.width }
    {
        if self.column + k > self.width {
            self.next_row();
        }
    }

    // A character of k cells.
    fn ink(&mut self, c: u32, k: usize)
        requires fits { Fits self.old }
        requires few { k ≤ 2 }
        ensures fits { Fits self.new }
        ensures turned { Turned (inked self.old.width self.old.height k c (page self.old)) self.old self.new }
    {
        if k == 0 {
            return;
        }
        self.make_room(k);
        self.put(c);
        if k == 2 {
            self.put(0);
        }
    }

    fn clear_row(&mut self)
        requires { Fits self.old }
        ensures fits { Fits self.new }
        ensures turned { Turned (cleared self.old.width (page self.old)) self.old self.new }
    {
        let start = self.row * self.width;
        self.cells[start..start + self.width].fill(BLANK);
        self.column = 0;
    }

    fn return_cursor(&mut self)
        requires { Fits self.old }
        ensures fits { Fits self.new }
        ensures turned { Turned (returned (page self.old)) self.old self.new }
    {
        self.column = 0;
    }

    fn move_cursor(&mut self, direction: Direction, n: usize)
        requires { Fits self.old }
        ensures fits { Fits self.new }
        ensures turned { Turned (moved self.old.width self.old.height direction n (page self.old)) self.old self.new }
    {
        self.column = self.column.min(self.width - 1);
        match direction {
            Direction::Up => self.row = self.row.saturating_sub(n),
            Direction::Down => self.row = self.row.saturating_add(n).min(self.height - 1),
            Direction::Right => self.column = self.column.saturating_add(n).min(self.width - 1),
            Direction::Left => self.column = self.column.saturating_sub(n),
        }
    }

    // The characters of the text.
    fn write<R: WidthRule>(&mut self, rule: &R, text: &[u8])
        requires fits { Fits self.old }
        requires admissible { admissible text.now ≡ true }
        ensures fits { Fits self.new }
        ensures turned { Turned (written self.old.width self.old.height (R.cells rule.now) (characters text.now) (page self.old)) self.old self.new }
    {
        for c in Characters::new(text) {
            self.ink(c, rule.width(c));
        }
    }

    pub(crate) fn apply<R: WidthRule>(&mut self, rule: &R, operation: Operation<'_>)
        requires fits { Fits self.old }
        requires fine { fine (meant operation) ≡ true }
        ensures fits { Fits self.new }
        ensures turned { Turned (done self.old.width self.old.height (R.cells rule.now) (meant operation.entry) (page self.old)) self.old self.new }
    {
        match operation {
            Operation::Move(_, 0) | Operation::Flush => {}
            Operation::Move(direction, n) => self.move_cursor(direction, n),
            Operation::ClearLine => self.clear_row(),
            Operation::WriteStr(text) => self.write(rule, text),
            Operation::WriteReturn => self.return_cursor(),
            Operation::WriteLine(text) => {
                self.write(rule, text);
                self.next_row();
            }
        }
    }
}
