//! The committed log of one table, and what a reader of the replica's theorems must believe: which
//! logs are lawful, what they leave in TiKV's column families and regions, what a read is shown, and
//! when it is refused. `docs/MODEL.md` tells the definitions in prose; `specs/Lib.antt` lists them
//! first, and behind them those of admission's look-up tables, on which none of them rests.
#![tactic(auto)]

mod admit_head;
mod admit_ops;
mod admit_regions;
mod chains;
mod change;
mod clearing;
mod digest;
mod families;
pub mod laws;
mod logs;
mod lookups;
mod lows;
mod nexts;
mod op;
mod region;
mod rows;
mod sizes;
mod store;
mod tables;
mod unlawful;

pub use admit_head::{Regions, range_of_region, region_of};
pub use admit_regions::step_regions;
pub use change::{ChangeError, change_of};
pub use digest::{begun, extended};
pub use logs::Logs;
pub use op::{FamilyOp, LastCommit, OpFault};
pub use region::{Descriptor, Region};
pub use rows::check_row;
pub use store::{Commit, Lock};
pub use unlawful::{RegionState, RowFault, Unlawful};
