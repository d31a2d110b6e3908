// How many rows a text takes on a screen of some width.
ghost use Rattle.text.specs.Outcomes.{Measured};

use crate::metrics::Metrics;
use crate::scan::scan;
use crate::width::WidthRule;
use refusal::Refusal;

pub const LEAST_WIDTH: usize = 2;

pub const MOST_WIDTH: usize = 512;

pub const MOST_BYTES: usize = 128;

pub fn measure<R: WidthRule>(width: usize, rule: &R, text: &[u8]) -> Result<Metrics, Refusal>
    ensures { Measured width (R.cells rule.now) text.now result }
{
    if !(LEAST_WIDTH..=MOST_WIDTH).contains(&width) {
        return Err(Refusal::Size);
    }
    if MOST_BYTES < text.len() {
        return Err(Refusal::TooLong(0));
    }
    scan(width, rule, text).ok_or(Refusal::NotAdmissible(0))
}
