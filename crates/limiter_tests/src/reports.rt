// Vectors of the position and its limiter.
use crate::asked::{answers, holds};
use limiter::AtomicPosition;
use std::test::Fail;

const MAX: u64 = u64::MAX;

#[test]
fn burst_and_edges(rt: HostRuntime) -> Result<(), Fail> {
    let mut p = AtomicPosition::new(1_000_000_000);
    answers(&rt, &mut p, &[(999_999_999, 1, false), (0, 1, false)]);
    holds(
        &rt,
        rt.alloc(),
        &p,
        "AtomicPosition { pos: 0, capacity: 10, prev: 0, start: 1000000000 }",
    )?;
    answers(
        &rt,
        &mut p,
        &[
            (1_000_000_000, 10, true),
            (1_000_000_000, 1, false),
            (1_000_999_999, 1, false),
        ],
    );
    answers(
        &rt,
        &mut p,
        &[
            (1_001_000_000, 1, true),
            (1_001_000_000, 1, false),
            (1_002_999_999, 1, true),
        ],
    );
    holds(
        &rt,
        rt.alloc(),
        &p,
        "AtomicPosition { pos: 0, capacity: 0, prev: 2000000, start: 1000000000 }",
    )?;
    answers(
        &rt,
        &mut p,
        &[(1_003_000_000, 1, true), (1_003_000_000, 1, false)],
    );
    Ok(())
}

#[test]
fn clock_gone_back(rt: HostRuntime) -> Result<(), Fail> {
    let mut p = AtomicPosition::new(0);
    answers(&rt, &mut p, &[(5_000_000, 1, true)]);
    holds(
        &rt,
        rt.alloc(),
        &p,
        "AtomicPosition { pos: 0, capacity: 10, prev: 5000000, start: 0 }",
    )?;
    answers(&rt, &mut p, &[(2_000_000, 1, true)]);
    holds(
        &rt,
        rt.alloc(),
        &p,
        "AtomicPosition { pos: 0, capacity: 9, prev: 2000000, start: 0 }",
    )?;
    answers(
        &rt,
        &mut p,
        &[
            (2_000_000, 9, true),
            (2_000_000, 1, false),
            (1_000_000, 1, false),
        ],
    );
    answers(&rt, &mut p, &[(2_999_999, 1, false), (3_000_000, 1, true)]);
    Ok(())
}

#[test]
fn reset_keeps_capacity(rt: HostRuntime) -> Result<(), Fail> {
    let mut p = AtomicPosition::new(1_000_000_000);
    p.set(42);
    assert_eq!(rt; p.get(), 42);
    answers(&rt, &mut p, &[(1_000_000_000, 10, true)]);
    p.reset(1_007_500_000);
    holds(
        &rt,
        rt.alloc(),
        &p,
        "AtomicPosition { pos: 0, capacity: 0, prev: 7500000, start: 1000000000 }",
    )?;
    answers(
        &rt,
        &mut p,
        &[
            (1_007_500_000, 1, false),
            (1_008_499_999, 1, false),
            (1_008_500_000, 1, true),
        ],
    );
    p.reset(999_999_999);
    holds(
        &rt,
        rt.alloc(),
        &p,
        "AtomicPosition { pos: 0, capacity: 0, prev: 0, start: 1000000000 }",
    )
}

#[test]
fn last_reading(rt: HostRuntime) -> Result<(), Fail> {
    let mut p = AtomicPosition::new(0);
    p.set(MAX);
    answers(&rt, &mut p, &[(MAX, 1, true)]);
    holds(
        &rt,
        rt.alloc(),
        &p,
        "AtomicPosition { pos: 18446744073709551615, capacity: 10, prev: 18446744073709000000, start: 0 }",
    )?;
    p.reset(MAX);
    holds(
        &rt,
        rt.alloc(),
        &p,
        "AtomicPosition { pos: 0, capacity: 10, prev: 18446744073709551615, start: 0 }",
    )?;
    assert_eq!(rt; p.get(), 0);
    Ok(())
}
