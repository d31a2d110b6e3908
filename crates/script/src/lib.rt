// What a replay script is made of: lines, words, numbers and escaped text.
#![tactic(auto)]

pub mod escape;
pub mod lines;
pub mod number;
