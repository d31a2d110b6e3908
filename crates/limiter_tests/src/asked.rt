// Questions to either limiter, and what it holds after them.
use limiter::{AtomicPosition, RateLimiter};
use std::alloc::Global;
use std::fmt::Debug;
use std::process::Abort;
use std::test::Fail;

pub(crate) trait Limiter {
    fn allow(&mut self, now: u64) -> bool;
}

impl Limiter for RateLimiter {
    fn allow(&mut self, now: u64) -> bool {
        RateLimiter::allow(self, now)
    }
}

impl Limiter for AtomicPosition {
    fn allow(&mut self, now: u64) -> bool {
        AtomicPosition::allow(self, now)
    }
}

// Asks so many times at each reading, and expects one answer each time.
pub(crate) fn answers(rt: &impl Abort, limiter: &mut impl Limiter, expected: &[(u64, u8, bool)]) {
    for &(now, times, answer) in expected {
        for _ in 0..times {
            assert_eq!(rt; limiter.allow(now), answer);
        }
    }
}

// Expects what `{:?}` shows of a value.
pub(crate) fn holds<T: Debug>(
    rt: &impl Abort,
    heap: Global,
    value: &T,
    expected: &str,
) -> Result<(), Fail> {
    let text = format!(in heap; "{value:?}")?;
    assert_eq!(rt; text.as_str(), expected);
    Ok(())
}
