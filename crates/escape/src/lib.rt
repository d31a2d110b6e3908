// Colour sequences by ECMA-48: the reader that tells them from plain text, and the pieces of a line.
#![tactic(auto)]

pub mod piece;
pub mod pieces;
pub mod reader;
pub mod sequence;
