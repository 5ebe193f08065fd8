//! Laws of the row store that a replica's theorems cite: of reads, refusals and rows, of the sets of
//! applied entries, of longer logs, digests and committed values. Each function does nothing when it
//! runs, and its contract is a law; of every lawful log, where nothing else is said.
#![tactic(auto)]

pub mod laws;
