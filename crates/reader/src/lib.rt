// Reads the texts of a depot: settings and requests, line by line.
#![tactic(auto)]

mod items;
mod lines;
pub mod request;
pub mod requests;
pub mod settings;
pub mod tables;
pub mod words;
