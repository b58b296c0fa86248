// Two makes of store over cells that the caller lends.
#![tactic(auto)]

mod cells;
pub mod key_row;
pub mod loose_row;
