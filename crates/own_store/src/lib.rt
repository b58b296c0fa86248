// A worked example of a store of one's own: a kind of key, and a store that holds one entry.
#![tactic(auto)]

pub mod number;
pub mod single;
