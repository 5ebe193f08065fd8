//! A crate of laws: what the calls on a region of the replica do is what the entries of the log do to
//! the row store on that region's handles. Each law is a function that does nothing when it runs and
//! whose contract is the law. `specs/Steps.antt` says what the log has of a region.
#![tactic(auto)]

mod families;
mod regions;

pub use families::{installs_are_folded, writes_are_folded};
pub use regions::{
    commits_join, empties_fold_nothing, only_ops_add, opens_are_born, others_stay,
    prepares_prepare, removes_remove, splits_part,
};
