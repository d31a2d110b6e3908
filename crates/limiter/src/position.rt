// A bar's position, and the limiter of its reports: one each millisecond, and a burst above it.
ghost use Rattle.std.specs.Prelude.{◌≡◌, ℕ, ◌≤◌};
ghost use Rattle.limiter.specs.Standing.{fresh, placed, restarted};
ghost use Rattle.limiter.specs.Course.{Polled, Course, Paced};

use crate::capacity::{Capacity, NANOS_PER_MILLI};
use std::marker::Model;

const INTERVAL: u64 = NANOS_PER_MILLI;

const MAX_BURST: u8 = 10;

#[derive(Debug, Drop)]
pub struct AtomicPosition {
    pos: u64,
    capacity: Capacity<MAX_BURST>,
    // nanoseconds from `start`, up to which milliseconds were counted
    prev: u64,
    start: u64,
}

impl Model for AtomicPosition {
    ghost use Rattle.limiter.specs.Standing.{Placed};

    ghost Value = { Placed };

    ghost view = { λ p. record {
      standing = record { pos = p.pos; capacity = p.capacity.held; prev = p.prev; start = p.start };
      few = p.capacity.few;
    } };
}

impl AtomicPosition {
    // At position 0, for a bar that starts at the reading `start`.
    pub fn new(start: u64) -> AtomicPosition
        ensures { result.standing ≡ fresh start }
    {
        AtomicPosition {
            pos: 0,
            capacity: Capacity::full(),
            prev: 0,
            start,
        }
    }

    // Whether the position may be reported at the reading `now`.
    pub fn allow(&mut self, now: u64) -> bool
        ensures polled { Polled self.old.standing now result self.new.standing }
        ensures paced { (start last yeses : ℕ) → last ≤ now → Course start last yeses self.old.standing → Paced start last yeses now result self.new.standing }
        ensures few { (self.old.standing.capacity ≤ 10) × (self.new.standing.capacity ≤ 10) }
    {
        let Some(elapsed) = now.checked_sub(self.start) else {
            return false;
        };
        // where the clock has gone back, nothing is earned
        let since = elapsed.saturating_sub(self.prev);
        let Some(rest) = self.capacity.spend(since, INTERVAL) else {
            return false;
        };
        self.prev = elapsed - rest;
        true
    }

    // Starts again at the reading `now`, with the capacity that is held.
    pub fn reset(&mut self, now: u64)
        ensures again { self.new.standing ≡ restarted self.old.standing now }
        ensures few { (self.old.standing.capacity ≤ 10) × (self.new.standing.capacity ≤ 10) }
    {
        self.set(0);
        self.prev = now.saturating_sub(self.start);
    }

    pub fn set(&mut self, pos: u64)
        ensures placed { self.new.standing ≡ placed self.old.standing pos }
        ensures few { (self.old.standing.capacity ≤ 10) × (self.new.standing.capacity ≤ 10) }
    {
        self.pos = pos;
    }

    pub fn get(&self) -> u64
        ensures value { result ≡ self.now.standing.pos }
        ensures few { self.now.standing.capacity ≤ 10 }
    {
        self.pos
    }
}
