// Vectors of the rate limiter.
use crate::asked::{answers, holds};
use limiter::RateLimiter;
use refusal::Refusal;
use std::test::Fail;

const MAX: u64 = u64::MAX;

#[test]
fn rate_zero_is_refused(rt: HostRuntime) -> Result<(), Fail> {
    let refused = RateLimiter::new(0, MAX).err();
    assert_eq!(rt; refused.map(Refusal::number), Some(3));
    Ok(())
}

#[test]
fn burst_and_edges(rt: HostRuntime) -> Result<(), Fail> {
    let mut l = RateLimiter::new(20, 1_000_000_000)?;
    holds(
        &rt,
        rt.alloc(),
        &l,
        "RateLimiter { interval: 50, capacity: 20, prev: 1000000000 }",
    )?;
    answers(
        &rt,
        &mut l,
        &[
            (1_000_000_000, 20, true),
            (1_000_000_000, 1, false),
            (1_049_999_999, 1, false),
        ],
    );
    answers(
        &rt,
        &mut l,
        &[
            (1_050_000_000, 1, true),
            (1_099_999_999, 1, false),
            (1_100_000_000, 1, true),
        ],
    );
    answers(
        &rt,
        &mut l,
        &[(1_199_999_999, 1, true), (1_199_999_999, 1, false)],
    );
    holds(
        &rt,
        rt.alloc(),
        &l,
        "RateLimiter { interval: 50, capacity: 0, prev: 1150000000 }",
    )?;
    answers(
        &rt,
        &mut l,
        &[(1_250_000_000, 2, true), (1_250_000_000, 1, false)],
    );
    Ok(())
}

#[test]
fn clock_gone_back(rt: HostRuntime) -> Result<(), Fail> {
    let mut l = RateLimiter::new(10, 5_000_000_000)?;
    answers(&rt, &mut l, &[(4_999_999_999, 1, false), (0, 1, false)]);
    holds(
        &rt,
        rt.alloc(),
        &l,
        "RateLimiter { interval: 100, capacity: 20, prev: 5000000000 }",
    )?;
    answers(
        &rt,
        &mut l,
        &[(5_250_000_000, 1, true), (5_199_999_999, 1, false)],
    );
    holds(
        &rt,
        rt.alloc(),
        &l,
        "RateLimiter { interval: 100, capacity: 20, prev: 5200000000 }",
    )?;
    answers(
        &rt,
        &mut l,
        &[(5_200_000_000, 20, true), (5_200_000_000, 1, false)],
    );
    Ok(())
}

#[test]
fn long_pause_earns_one_burst(rt: HostRuntime) -> Result<(), Fail> {
    let mut l = RateLimiter::new(20, 0)?;
    answers(&rt, &mut l, &[(3_600_000_000_000, 1, true)]);
    holds(
        &rt,
        rt.alloc(),
        &l,
        "RateLimiter { interval: 50, capacity: 20, prev: 3600000000000 }",
    )?;
    answers(
        &rt,
        &mut l,
        &[(3_600_000_000_000, 20, true), (3_600_000_000_000, 1, false)],
    );
    Ok(())
}

#[test]
fn last_reading(rt: HostRuntime) -> Result<(), Fail> {
    let mut l = RateLimiter::new(1, 0)?;
    answers(&rt, &mut l, &[(MAX, 1, true)]);
    holds(
        &rt,
        rt.alloc(),
        &l,
        "RateLimiter { interval: 1000, capacity: 20, prev: 18446744073000000000 }",
    )?;
    answers(
        &rt,
        &mut l,
        &[(MAX, 20, true), (MAX, 1, false), (MAX - 1, 1, false)],
    );
    let mut made_last = RateLimiter::new(255, MAX)?;
    answers(
        &rt,
        &mut made_last,
        &[(MAX, 20, true), (MAX, 1, false), (0, 1, false)],
    );
    holds(
        &rt,
        rt.alloc(),
        &made_last,
        "RateLimiter { interval: 3, capacity: 0, prev: 18446744073709551615 }",
    )
}

#[test]
fn every_rate(rt: HostRuntime) -> Result<(), Fail> {
    for rate in 1..=255u8 {
        let interval = 1000 / u64::from(rate) * 1_000_000;
        let mut l = RateLimiter::new(rate, 0)?;
        answers(
            &rt,
            &mut l,
            &[(0, 20, true), (0, 1, false), (interval - 1, 1, false)],
        );
        answers(
            &rt,
            &mut l,
            &[
                (interval, 1, true),
                (3 * interval, 2, true),
                (3 * interval, 1, false),
            ],
        );
    }
    Ok(())
}
