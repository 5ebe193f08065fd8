//! Tests of a region and of the regions' file.
#![tactic(auto)]

#[cfg(test)]
mod files;
#[cfg(test)]
mod region;
