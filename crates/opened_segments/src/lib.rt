//! The segments of a store that is opened, as the files hold them that its state names. It knows no
//! log.
#![tactic(auto)]

mod data;
mod delta;
mod fault;
mod laws;
mod segments;
mod slot;
mod stable;
mod tail;

pub use data::data_of;
pub use fault::OpenFault;
pub use laws::{
    opened_segments_are_read, read_segments_have_no_fault, readable_segments_are_there,
};
pub use segments::opened_segments;
