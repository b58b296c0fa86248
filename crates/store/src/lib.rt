// What a store of entries means, for every make of store and every kind of key.
#![tactic(auto)]

pub mod entry;
pub mod key;
pub mod store;
pub mod walk;
