// What a line measures.
ghost use Rattle.std.specs.Prelude.{◌≡◌, ℕ, ◌+◌, ◌-◌, ◌^◌, ◌<◌, ◌≤◌, min};
ghost use Rattle.text.specs.Rows.{placed, start};

use std::marker::Model;

// A number of rows on a screen.
#[derive(Clone, Copy, Debug, Default, PartialEq, Eq, PartialOrd, Ord)]
pub struct VisualLines(usize);

impl Model for VisualLines {
    ghost use Rattle.std.specs.Prelude.{ℕ};

    ghost Value = { ℕ };

    ghost view = { λ rows. rows.0 };

    ghost inverse = { λ n. record { 0 = n } };
}

impl From<usize> for VisualLines {
    ghost from_gives = { λ n rows. rows ≡ n };

    fn from(rows: usize) -> VisualLines {
        VisualLines(rows)
    }
}

impl VisualLines {
    pub fn as_usize(self) -> usize
        ensures { result ≡ self }
    {
        self.0
    }

    pub fn saturating_add(self, other: VisualLines) -> VisualLines
        ensures { result ≡ min (2 ^ 64 - 1) (self + other) }
    {
        VisualLines(self.0.saturating_add(other.0))
    }

    pub fn saturating_sub(self, other: VisualLines) -> VisualLines
        ensures { result ≡ self - other }
    {
        VisualLines(self.0.saturating_sub(other.0))
    }
}

// The rows that a line takes, and the width of its last row.
#[derive(Clone, Copy, Debug, PartialEq, Eq)]
pub struct Metrics {
    pub height: VisualLines,
    pub last_line_width: usize,
}

impl Metrics {
    // Of the empty line.
    pub(crate) fn start() -> Metrics
        ensures { result ≡ start }
    {
        Metrics {
            height: VisualLines(1),
            last_line_width: 0,
        }
    }

    // After one more character of w cells on a screen of the width.
    pub(crate) fn place(self, width: usize, w: usize) -> Metrics
        requires { (self.height < 2 ^ 64 - 1) × (self.last_line_width < 1000) × (w ≤ 2) }
        ensures { result ≡ placed width w self }
    {
        let column = self.last_line_width + w;
        if column > width {
            Metrics {
                height: VisualLines(self.height.0 + 1),
                last_line_width: w,
            }
        } else {
            Metrics {
                height: self.height,
                last_line_width: column,
            }
        }
    }
}
