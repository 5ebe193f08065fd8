//! The regions of a replica, as the entries that it has applied leave them: where each is, and what
//! the default and the lock family have of its handles. A checkpoint writes them to a file, and one is
//! opened over the log that it is of.
#![tactic(auto)]

mod agree;
mod apply;
mod counting;
mod effect;
mod examples;
mod fault;
mod file;
mod judge;
mod laws;
mod live;
mod opening;
mod positions;
mod ready;
mod same;
mod step;
mod table;

pub use effect::Effect;
pub use examples::faults_are_told;
pub use fault::ApplyError;
pub use laws::{
    done_is_applied, early_is_behind, empty_tables_agree, faults_tell_ready,
    one_more_counts_one_more, states_are_the_sets, tables_tell_their_set,
    written_tables_are_read_again,
};
pub use opening::OpenFault;
pub use table::{Counted, RegionTable};
