// Text and its measure: which text may be written, how wide its characters are, and how many rows a line takes.
#![tactic(auto)]

pub mod admission;
pub mod characters;
pub mod line;
pub mod measure;
pub mod metrics;
mod scan;
pub mod width;
