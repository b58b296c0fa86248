// Checks the texts of a depot: cuts an input into pieces, and reports on each.
#![tactic(auto)]

pub mod pieces;
pub mod reports;
