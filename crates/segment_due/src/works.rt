// Which work on segments is due.
ghost use Rattle.std.specs.Prelude.{◌≡◌, map};
ghost use Rattle.segment_due.specs.Infos.{info_of};
ghost use Rattle.segment_due.specs.Works.{can_join, due_of, first_of, works_on};

use crate::info::{SegInfo, info_of, total_at};
use delta_layer::Job;
use flash_types::{SegId, Settings};
use segment_list::{SegmentList, Slot};

/// A work on a segment that is due.
#[derive(Clone, Copy, Debug, PartialEq, Eq)]
pub enum Due {
    /// The segment's versions in memory are to be written to files.
    Flush(SegId),
    /// This job is to be done.
    Work(Job),
}

// Whether so many versions and those of the next segment are at most so many.
fn can_join(most: u64, total: u64, next: Option<u64>) -> bool
    ensures { result ≡ can_join most total next }
{
    match next {
        None => false,
        Some(next) => total <= most && next <= most - total,
    }
}

// The first work that is due on a segment, where the next one has so many versions.
fn due_on(settings: &Settings, info: SegInfo, next: Option<u64>) -> Option<Due>
    ensures { result ≡ first_of (works_on settings.now info next) }
{
    if u64::from(settings.mem_rows) <= info.mem {
        return Some(Due::Flush(info.id));
    }
    if u64::from(settings.tiny_files.max(2)) <= info.tiny_run {
        return Some(Due::Work(Job::Compact(info.id)));
    }
    if u64::from(settings.delta_rows) <= info.delta {
        return Some(Due::Work(Job::MergeDelta(info.id)));
    }
    if u64::from(settings.split_rows) < info.total {
        return Some(Due::Work(Job::Split(info.id)));
    }
    if can_join(u64::from(settings.join_rows), info.total, next) {
        return Some(Due::Work(Job::Merge(info.id)));
    }
    None
}

// The first work that is due on slots.
fn due_in<G: Drop>(slots: &[Slot<G>], settings: &Settings) -> Option<Due>
    ensures { result ≡ due_of settings.now (map info_of slots.now) }
{
    for i in 0..slots.len() {
        let next = total_at(slots, i + 1);
        let due = due_on(settings, info_of(&slots[i]), next);
        if due.is_some() {
            return due;
        }
    }
    None
}

/// The first work that is due, segments in rising order of their handles, and on one segment in
/// this order: a flush from `mem_rows` versions in memory on; a compaction from as many tiny files side
/// by side on as the greater of `tiny_files` and 2; a delta merge from `delta_rows` versions in the
/// delta on; a split above `split_rows` versions; a merge with the next segment where both have at
/// most `join_rows` versions together. None where none is due.
///
/// Versions are counted as [`SegInfo`] tells them. Where a total is told as 2^64 less one, the
/// answer is that of the exact one, since no size is that large. It looks at each segment once, and
/// takes no memory.
pub fn first_due<G: Drop>(list: &SegmentList<G>, settings: &Settings) -> Option<Due>
    ensures { result ≡ due_of settings.now (map info_of list.now) }
{
    due_in(list.slots(), settings)
}
