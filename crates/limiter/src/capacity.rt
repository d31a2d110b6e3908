// What a limiter may still answer yes to at once.
ghost use Rattle.std.specs.Prelude.{◌≡◌, ◌<◌, ◌≤◌, ◌/◌, ◌%◌, is_some, IfSome, IfNone};
ghost use Rattle.limiter.specs.Spending.{funded, spend};

use std::fmt;

pub(crate) const NANOS_PER_MILLI: u64 = 1_000_000;

// Counted in yes answers, and never more than a burst of them.
#[derive(Drop)]
pub(crate) struct Capacity<const MAX_BURST: u8> {
    pub(crate) held: u8,
    ghost few: { held ≤ MAX_BURST },
}

impl<const MAX_BURST: u8> Capacity<MAX_BURST> {
    // A whole burst.
    pub(crate) fn full() -> Self
        ensures { result.held ≡ MAX_BURST }
    {
        Capacity { held: MAX_BURST }
    }

    // Earns one for each whole interval of the time elapsed, and spends one.
    // What is left of an interval, or None where there is nothing to spend.
    pub(crate) fn spend(&mut self, elapsed: u64, interval: u64) -> Option<u64>
        requires { 0 < interval }
        ensures granted { is_some result ≡ funded self.old.held elapsed interval }
        ensures yes { IfSome result (λ rest. (rest ≡ elapsed % interval) × (self.new.held ≡ spend MAX_BURST self.old.held (elapsed / interval))) }
        ensures no { IfNone result (self.new ≡ self.old) }
    {
        if self.held == 0 && elapsed < interval {
            return None;
        }
        let funds = (elapsed / interval).saturating_add(u64::from(self.held));
        self.held = (funds - 1).min(u64::from(MAX_BURST)) as u8;
        Some(elapsed % interval)
    }
}

// The number alone: a limiter shows its capacity as one.
impl<const MAX_BURST: u8> fmt::Debug for Capacity<MAX_BURST> {
    fn fmt<W: fmt::Write>(&self, f: &mut fmt::Formatter<W>) -> fmt::Result {
        fmt::Debug::fmt(&self.held, f)
    }
}
