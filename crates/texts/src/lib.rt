// Examples of every text that is read, refused or written.
#![tactic(auto)]

#[cfg(test)]
mod identities;
#[cfg(test)]
mod outputs;
#[cfg(test)]
mod refused;
#[cfg(test)]
mod requests;
#[cfg(test)]
mod settings;
