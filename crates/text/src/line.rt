// The lines of a draw: text that is written once, bars that are drawn again, and empty lines.
ghost use Rattle.std.specs.Prelude.{◌≡◌};
ghost use Rattle.text.specs.Lines.{bytes, Counted};
ghost use Rattle.text.specs.Outcomes.{Measured};

use crate::measure::measure;
use crate::metrics::{Metrics, VisualLines};
use crate::width::WidthRule;
use refusal::Refusal;

#[derive(Clone, Copy, Debug, PartialEq, Eq)]
pub enum LineType<'a> {
    Text(&'a [u8]),
    Bar(&'a [u8]),
    Empty,
}

impl<'a> LineType<'a> {
    pub fn as_bytes(self) -> &'a [u8]
        ensures { result.now ≡ bytes self.entry }
    {
        match self {
            LineType::Text(text) | LineType::Bar(text) => text,
            LineType::Empty => b"",
        }
    }

    pub fn wrapped_metrics<R: WidthRule>(self, width: usize, rule: &R) -> Result<Metrics, Refusal>
        ensures { Measured width (R.cells rule.now) (bytes self.entry) result }
    {
        measure(width, rule, self.as_bytes())
    }
}

// The rows that the lines take together; the first line that cannot be measured gives its refusal.
pub fn visual_line_count<R: WidthRule>(
    lines: &[LineType<'_>],
    width: usize,
    rule: &R,
) -> Result<VisualLines, Refusal>
    ensures { Counted width (R.cells rule.now) lines.now result }
{
    let mut rows = VisualLines::default();
    for line in lines {
        let metrics = line.wrapped_metrics(width, rule)?;
        rows = rows.saturating_add(metrics.height);
    }
    Ok(rows)
}
