//! What writers of formats share: numbers and bytes are added, big-endian, behind what was written,
//! and want of memory leaves a part of them there at most, as `specs/Appending.antt` says.
#![tactic(auto)]

mod put;

pub use put::{put_bytes, put_i64, put_u8, put_u16, put_u32, put_u64};
