//! Laws of the row store, which callers may use: each function does nothing when it runs, and its
//! contract is a law.
mod logs;
mod reads;
mod sets;

pub use logs::{
    entries_are_local, handles_have_one_owner, longer_logs_agree, maps_are_sorted,
    numbers_stay_in_range, places_are_last,
};
pub use reads::{
    commits_rise, first_locks_are_local, reads_are_answered, reads_past_a_read_index_agree,
    rows_are_by_the_rule,
};
pub use sets::{
    applied_sets_grow, first_is_ready, indexes_tell_a_set, next_is_by_index, prefixes_are_closed,
    ready_entries_extend, ready_is_closed, regions_tell_ready, states_are_by_index, tables_go_on,
    touches_are_closed,
};
