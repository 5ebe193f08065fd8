//! What an image of a disk stands for: a log, the entries of it that are applied, and a safe point.
//! And which disks are sound for a log, so that an opening may be given them. The functions do
//! nothing when they run; each function's contract is a law, which callers may use.
#![tactic(auto)]

mod images;
mod small;
mod sound;

pub use images::{
    commits_leave_old_or_new, images_stand_for_one_set, longer_logs_are_stood_for,
    new_images_stand_for_nothing, new_stores_stand_for_nothing, promises_are_lowered,
    segments_cover_all_handles, unnamed_files_do_not_matter,
};
pub use small::small_images_stand;
pub use sound::{
    commits_keep_sound, crashes_keep_sound, creations_keep_sound, fewer_images_keep_sound,
    longer_logs_keep_sound, opened_images_read_alike, runs_leave_standing_images,
    unnamed_files_keep_sound,
};
