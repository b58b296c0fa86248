// The identities that a depot's texts name, and how each is written.
#![tactic(auto)]

pub mod access;
mod class;
pub mod decimal;
pub mod number;
pub mod numbers;
pub mod slice;
pub mod snssai;
pub mod subscriber;
pub mod supi;
pub mod value;
pub mod word;
