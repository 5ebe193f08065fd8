//! What every crate stands on: lists and shared bytes that contracts see as lists of their items,
//! and the words for readers that go over bytes step by step (`specs/Steps.antt`).
#![tactic(auto)]

mod fields;
mod items;
mod shared;

pub use fields::{u8_or, u16_or, u32_or, u64_or};
pub use items::{Bytes, Items};
pub use shared::SharedBytes;

#[cfg(test)]
mod tests;
