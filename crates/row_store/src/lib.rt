//! For tests: examples of the row store's definitions, computed, and a plain and slow program over
//! lists alone whose contracts are the definitions.
#![tactic(auto)]

mod entries;
mod examples;
mod log;
mod outside;
mod positions;
mod reads;
mod regions;
mod sorted;
mod store;

/// Why the program stops.
#[derive(Clone, Copy, Debug, PartialEq, Eq)]
pub enum Stop {
    /// Memory ran out.
    Memory,
    /// A number of an epoch would pass 64 bits.
    Number,
}

pub use entries::store_of;
pub use examples::{
    bounds_keep, commits_rise, deletes_hide, empty_log_has_nothing, extremes_are_in_order,
    file_is_read, generated_is_shown, installs_begin_anew, locks_are_in_the_way,
    long_value_is_found, merges_join, merges_wait, other_records_commit_nothing,
    prefixes_are_closed, put_is_shown, read_indexes_miss_nothing, reads_wait, splits_raise_epochs,
    strange_rows_are_refused,
};
pub use log::SmallLog;
pub use positions::{applied, is_settled, next, next_of, place, state};
pub use reads::{first_lock, shown};
pub use regions::{acts_on, index_of, range_of, region};
pub use sorted::{drop_entry, entry_at, put_entry};
pub use store::Store;
