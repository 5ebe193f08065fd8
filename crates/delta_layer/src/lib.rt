//! The delta of a segment: its files in order with the index over them, snapshots of it, and the
//! versions that are present in a segment.
#![tactic(auto)]

mod building;
mod built;
mod laws;
mod layer;
mod merge;
mod newest;
mod presence;
mod slots;
mod stable;
mod sweep;
mod view;

pub use building::present_for_build;
pub use built::{BuildError, Built, Job, Piece, stable_piece};
pub use laws::{
    attached_pieces_are_read, blocks_become_one, pieces_are_read_again,
    present_versions_are_unique, present_versions_suit, repacked_layers_show_the_same,
    stable_files_suit,
};
pub use layer::DeltaLayer;
pub use presence::{present, present_above};
pub use stable::add_pack;
pub use view::{DeltaView, SegmentView};

/// Memory ran out.
#[derive(Clone, Copy, Debug, PartialEq, Eq)]
pub struct Memory;
