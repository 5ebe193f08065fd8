//! Tests of the codecs: of keys and records, of a log's frames, of rows, and of the data files' lists, packs and stable files.
#![tactic(auto)]

#[cfg(test)]
mod blocks;
#[cfg(test)]
mod frames;
#[cfg(test)]
mod keys;
#[cfg(test)]
mod lists;
#[cfg(test)]
mod packs;
#[cfg(test)]
mod rows;
#[cfg(test)]
mod stable;
