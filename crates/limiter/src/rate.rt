// The limiter of drawing: so many draws a second, and a burst above it.
ghost use Rattle.std.specs.Prelude.{◌≡◌, ℕ, ◌<◌, ◌≤◌, List, [], IfOk, MatchResult};
ghost use Rattle.refusal.specs.declared.Refusal.TheVariants.{Rate};
ghost use Rattle.limiter.specs.History.{Sound, Asked, Run, Rationed};
ghost use Rattle.limiter.specs.Ration.{Ration, fresh, nanos};

use crate::capacity::{Capacity, NANOS_PER_MILLI};
use refusal::Refusal;
use std::marker::Model;

const MAX_BURST: u8 = 20;

#[derive(Debug, Drop)]
pub struct RateLimiter {
    // in milliseconds
    interval: u16,
    capacity: Capacity<MAX_BURST>,
    // the reading up to which intervals were counted
    prev: u64,
    ghost some: { 0 < interval },
    ghost most: { interval ≤ 1000 },
}

impl Model for RateLimiter {
    ghost use Rattle.limiter.specs.History.{Limited};

    ghost Value = { Limited };

    ghost view = { λ l. record {
      ration = record { interval = l.interval; capacity = l.capacity.held; prev = l.prev };
      sound = record { some = l.some; most = l.most; few = l.capacity.few };
    } };
}

impl RateLimiter {
    // A limiter of at least `rate` yes answers a second.
    #[tactic(auto, using(crate::specs::History::begin))]
    pub fn new(rate: u8, now: u64) -> Result<RateLimiter, Refusal>
        ensures made { MatchResult result (λ l. (0 < rate) × (l.ration ≡ fresh rate now)) (λ e. (rate ≡ 0) × (e ≡ Rate)) }
        ensures begun { IfOk result (λ l. Run (fresh rate now) [] 0 l.ration) }
    {
        if rate == 0 {
            return Err(Refusal::Rate);
        }
        Ok(RateLimiter {
            interval: 1000 / u16::from(rate),
            capacity: Capacity::full(),
            prev: now,
        })
    }

    // Whether a draw may be made at the reading `now`.
    pub fn allow(&mut self, now: u64) -> bool
        ensures asked { Asked self.old.ration now result self.new.ration }
        ensures rationed { (start : Ration) (readings : List ℕ) (yeses : ℕ) → Run start readings yeses self.old.ration → Rationed start readings yeses now result self.new.ration }
        ensures sound { Sound self.old.ration × Sound self.new.ration }
    {
        let Some(elapsed) = now.checked_sub(self.prev) else {
            return false;
        };
        let interval = self.nanos();
        let Some(rest) = self.capacity.spend(elapsed, interval) else {
            return false;
        };
        self.prev = now - rest;
        true
    }

    // The interval in nanoseconds.
    fn nanos(&self) -> u64
        ensures { result ≡ nanos self.now.ration }
    {
        u64::from(self.interval) * NANOS_PER_MILLI
    }
}
