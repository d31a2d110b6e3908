// One pass over a text: whether it is admissible, and what it measures.
ghost use Rattle.std.specs.Prelude.{◌≡◌, ◌≤◌, true, false, MatchOption};
ghost use Rattle.text.specs.Texts.{admissible};
ghost use Rattle.text.specs.Outcomes.{measured};

use crate::metrics::Metrics;
use crate::width::WidthRule;
use escape::reader::{EscapeReader, Verdict};
use utf8::decode;

pub(crate) fn scan<R: WidthRule>(width: usize, rule: &R, text: &[u8]) -> Option<Metrics>
    requires { width ≤ 512 }
    ensures { MatchOption result (admissible text.now ≡ false) (λ m. (admissible text.now ≡ true) × (m ≡ measured width (R.cells rule.now) text.now)) }
{
    let mut reader = EscapeReader::new();
    let mut metrics = Metrics::start();
    let mut rest = text;
    while !rest.is_empty() {
        let (c, tail) = decode(rest)?;
        match reader.read(c)? {
            Verdict::Plain => metrics = metrics.place(width, rule.width(c)),
            Verdict::Colour => {}
        }
        rest = tail;
    }
    reader.is_ground().then_some(metrics)
}
