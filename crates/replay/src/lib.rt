// The commands of replay scripts: a line as a command, and a command as its canonical line.
#![tactic(auto)]

mod arguments;
pub mod command;
pub mod parse;
pub mod render;
mod words;
