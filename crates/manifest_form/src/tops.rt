// The greatest number in each segment.
ghost use Rattle.std.specs.Prelude.{◌≡◌, ◌≢◌, ◌<◌, ℕ, true, OnOk, is_some};
ghost use Rattle.std.specs.BTreeMap.{get};
ghost use Rattle.manifest_form.specs.Counting.{larger, top_cmp, top_from, top_of, top_of_file, top_of_name};

use crate::slots::{Slots, place_of};
use crate::state::{StoredFile, StoredSegment, StoredSegments};
use flash_io::FileId;
use flash_types::SegId;
use std::alloc::AllocError;
use std::collections::BTreeMap;

/// The greatest number in each segment, with the segment's id.
pub type Tops = BTreeMap<(u32, SegId), ()>;

fn larger(one: u32, other: u32) -> u32
    ensures { result ≡ larger one other }
{
    if one < other { other } else { one }
}

fn top_of_name(name: Option<FileId>) -> u32
    ensures { result ≡ top_of_name name }
{
    match name {
        None => 0,
        Some(file) => file,
    }
}

fn top_of_file(file: &StoredFile) -> u32
    ensures { result ≡ top_of_file file.now }
{
    match file {
        StoredFile::Tiny { file } => *file,
        StoredFile::DeleteRange { .. } => 0,
    }
}

fn top_from(least: u32, files: &[StoredFile]) -> u32
    ensures { result ≡ top_from least files.now }
{
    let mut top = least;
    for file in files {
        top = larger(top, top_of_file(file));
    }
    top
}

/// The greatest number in a segment: its id, or that of a file.
pub fn top_of(segment: &StoredSegment) -> u32
    ensures { result ≡ top_of segment.now }
{
    let least = larger(segment.id, top_of_name(segment.stable));
    top_from(least, segment.delta.as_slice())
}

/// Notes the greatest number in a segment.
pub fn add_top(tops: &mut Tops, top: u32, id: SegId) -> Result<(), AllocError>
    ensures there { OnOk result (is_some (get top_cmp tops.new (top, id)) ≡ true) }
    ensures kept { OnOk result ((q : ℕ × ℕ) → is_some (get top_cmp tops.old q) ≡ true → is_some (get top_cmp tops.new q) ≡ true) }
{
    match tops.insert((top, id), ()) {
        Ok(_) => Ok(()),
        Err(_) => Err(AllocError),
    }
}

/// Forgets what was noted of the segment with this id.
pub fn forget_top(tops: &mut Tops, top: Option<u32>, id: SegId)
    ensures { (q : ℕ × ℕ) → q.1 ≢ id → is_some (get top_cmp tops.old q) ≡ true → is_some (get top_cmp tops.new q) ≡ true }
{
    match top {
        None => {}
        Some(top) => {
            let _ = tops.remove(&(top, id));
        }
    }
}

/// Whether all numbers that were noted are below this one.
pub fn tops_below(tops: &Tops, next: u32) -> bool
    ensures { result ≡ true → (q : ℕ × ℕ) → is_some (get top_cmp tops.now q) ≡ true → q.0 < next }
{
    match tops.last_key_value() {
        None => true,
        Some((last, _)) => last.0 < next,
    }
}

fn top_at(slots: &Slots, id: SegId) -> Option<u32> {
    let place = place_of(&slots.ids, id)?;
    match slots.places.get(&place) {
        Some(Some(segment)) => Some(top_of(segment)),
        Some(None) => None,
        None => None,
    }
}

impl StoredSegments {
    /// The greatest number in the segment with this id. No proof rests on it, but the time of an
    /// opening does.
    pub(crate) fn top_at(&self, id: SegId) -> Option<u32> {
        top_at(&self.slots, id)
    }
}
