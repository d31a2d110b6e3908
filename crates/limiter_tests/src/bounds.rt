// What is known of a limiter that is only lent, without a call on it.
ghost use Rattle.std.specs.Prelude.{◌≤◌};
ghost use Rattle.limiter.specs.History.{Sound};

use crate::asked::holds;
use limiter::{AtomicPosition, RateLimiter};
use std::test::Fail;

fn rate_bounds(limiter: &RateLimiter)
    ensures { Sound limiter.now.ration }
{}

fn position_bounds(position: &AtomicPosition)
    ensures { position.now.standing.capacity ≤ 10 }
{}

#[test]
fn bounds_of_lent_limiters(rt: HostRuntime) -> Result<(), Fail> {
    let mut p = AtomicPosition::new(7);
    assert_eq!(rt; p.allow(7), true);
    position_bounds(&p);
    holds(
        &rt,
        rt.alloc(),
        &p,
        "AtomicPosition { pos: 0, capacity: 9, prev: 0, start: 7 }",
    )?;
    let mut l = RateLimiter::new(255, 7)?;
    assert_eq!(rt; l.allow(7), true);
    rate_bounds(&l);
    holds(
        &rt,
        rt.alloc(),
        &l,
        "RateLimiter { interval: 3, capacity: 19, prev: 7 }",
    )
}
