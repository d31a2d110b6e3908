// What a replay writes: answers, and the trace of a run.
#![tactic(auto)]

pub mod answer;
pub mod put;
