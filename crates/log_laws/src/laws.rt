//! The laws, by subject.
mod between;
mod chains;
mod longer;
mod reads;
mod refusals;
mod rows;
mod sets;
mod values;

pub use between::replies_stay_right_between;
pub use chains::{chains_are_extended, chains_go_on};
pub use longer::{
    longer_logs_answer_the_same, longer_logs_give_the_same_rows, longer_logs_have_the_regions,
};
pub use reads::{cuts_are_settled, reads_are_allowed};
pub use refusals::{gone_regions_are_refused, refusals_are_so};
pub use rows::{found_rows_are_the_rows, rules_determine_rows};
pub use sets::{
    ended_regions_are_gone, made_regions_are_born, prefixes_have_the_regions, regions_are_apart,
};
pub use values::committed_values_are_rows;
