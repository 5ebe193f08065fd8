//! Tests of lawful logs, and of the plain program that computes what the definitions say of them.
#![tactic(auto)]

#[cfg(test)]
mod lawful;
#[cfg(test)]
mod reads;
#[cfg(test)]
mod store;
