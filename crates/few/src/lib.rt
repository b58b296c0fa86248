// A list of bounded length that lies in place.
#![tactic(auto)]

pub mod few;
