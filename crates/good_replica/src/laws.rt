//! Laws of good replicas, which callers may use: each function does nothing when it runs, and its
//! contract is a law.
mod check;
mod files;
mod handles;
mod reads;
mod replicas;
mod segments;

pub use check::check_tells_goodness;
pub use files::{
    blocks_become_one, delta_merges_collect, kept_blocks_are_collected, merged_segments_join,
    split_halves_part, stable_parts_take_files,
};
pub use handles::{
    collections_are_untold, front_goes_down, lone_deletes_go, mark_goes_up,
    packing_anew_shows_same, safe_point_goes_up,
};
pub use reads::{
    good_handles_give_the_rows, settled_regions_show_rows, untouched_rows_stay,
    versions_show_one_row,
};
pub use replicas::{
    added_versions_suit, applied_entries_are_absorbed, empty_segments_are_good,
    fronts_follow_touches, installs_keep_replicas_good, longer_logs_serve,
    marks_and_safe_points_rise, segments_give_way,
};
pub use segments::{
    clipped_files_say_nothing, segments_go_on_to_cover, segments_join, segments_merge_deltas,
    segments_pack_blocks, segments_split,
};
