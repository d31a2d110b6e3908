// How often a display may be drawn, and how often a bar may report its position.
#![tactic(auto)]

mod capacity;
mod figures;
mod position;
mod rate;

pub use figures::figures_hold;
pub use position::AtomicPosition;
pub use rate::RateLimiter;
