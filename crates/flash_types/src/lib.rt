//! The types that the layers share: handles and their ranges, regions and epochs, what a read asks
//! and why it is refused.
#![tactic(auto)]

mod ask;
mod range;
mod refusal;
mod settings;

pub use ask::{Ask, AskError, AskRegion};
pub use range::{Handle, HandleRange};
pub use refusal::{Cut, Refusal, Wants};
pub use settings::Settings;

/// A commit or start timestamp, as the timestamp oracle of the cluster gives it.
pub type Ts = u64;

/// The number of a region.
pub type RegionId = u32;

/// The number of a segment.
pub type SegId = u32;

/// The epoch of a region, as TiKV keeps it: it changes with the region's peers and its range.
#[derive(Clone, Copy, Debug, PartialEq, Eq)]
pub struct Epoch {
    /// Rises with each change of peers, and with a prepared merge.
    pub conf_ver: u64,
    /// Rises with each split, prepared merge and committed merge.
    pub version: u64,
}

#[cfg(test)]
mod tests;
