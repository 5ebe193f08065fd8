//! When the files of a replica are right: what a segment has of a row, how much of the log it must
//! have, what a collection may leave out, and the laws of what flushes, merges, splits and applies
//! do to it. The definitions stand in `specs`; `docs/MODEL.md` tells them in prose.
#![tactic(auto)]

pub mod laws;
