// Terminals: what they show, what their operations do and cost, and the trait that every implementation meets.
#![tactic(auto)]

pub mod lent;
pub mod operation;
pub mod term_like;
