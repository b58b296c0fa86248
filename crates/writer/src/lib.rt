// Writes the lines of an answer into a lent buffer.
#![tactic(auto)]

mod hex;
pub mod lines;
pub mod put;
pub mod text;
