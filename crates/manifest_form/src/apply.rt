// How edits change a state.
ghost use Rattle.std.specs.Prelude.{◌≡◌, OnOk, Some, ◌&&◌};
ghost use Rattle.std.specs.List.{list_any, list_all};
ghost use Rattle.manifest_form.specs.States.{placed, without, cover_from, name_below, file_below, segment_below, all_below, is_formed, is_high, is_safe_point};
ghost use Rattle.manifest_form.specs.Slots.{present, slot_below, end_of};

use crate::slots::{Places, forget, put, take_out};
use crate::state::{Edit, State, StoredFile, StoredSegment, StoredSegments};
use flash_io::FileId;
use flash_types::SegId;
use std::alloc::AllocError;

impl StoredSegments {
    /// Takes a segment out, if there is one with this id.
    pub(crate) fn remove(&mut self, id: SegId)
        ensures { self.new ≡ without id self.old }
    {
        take_out(&mut self.slots, id);
        forget(&mut self.slots, id);
    }

    /// Puts a segment in place of the one with its id.
    pub(crate) fn put(&mut self, segment: StoredSegment) -> Result<(), AllocError>
        ensures { OnOk result (self.new ≡ placed segment (without segment.id self.old)) }
    {
        put(&mut self.slots, segment)
    }
}

fn is_high(edit: &Edit) -> bool
    ensures { result ≡ is_high edit.now }
{
    match edit {
        Edit::High { .. } => true,
        _ => false,
    }
}

fn is_safe_point(edit: &Edit) -> bool
    ensures { result ≡ is_safe_point edit.now }
{
    match edit {
        Edit::SafePoint { .. } => true,
        _ => false,
    }
}

fn any_high(edits: &[Edit]) -> bool
    ensures { result ≡ list_any is_high edits.now }
{
    edits.iter().any(|edit| is_high(edit))
}

fn any_safe_point(edits: &[Edit]) -> bool
    ensures { result ≡ list_any is_safe_point edits.now }
{
    edits.iter().any(|edit| is_safe_point(edit))
}

/// Whether the edits set High and the safe point.
pub fn sets_marks(edits: &[Edit]) -> bool
    ensures { result ≡ (list_any is_high edits.now && list_any is_safe_point edits.now) }
{
    any_high(edits) && any_safe_point(edits)
}

pub fn name_below(next: u32, name: Option<FileId>) -> bool
    ensures { result ≡ name_below next name }
{
    match name {
        None => true,
        Some(file) => file < next,
    }
}

fn file_below(next: u32, file: &StoredFile) -> bool
    ensures { result ≡ file_below next file.now }
{
    match file {
        StoredFile::Tiny { file } => *file < next,
        StoredFile::DeleteRange { .. } => true,
    }
}

fn files_below(next: u32, files: &[StoredFile]) -> bool
    ensures { result ≡ list_all (file_below next) files.now }
{
    files.iter().all(|file| file_below(next, file))
}

fn segment_below(next: u32, segment: &StoredSegment) -> bool
    ensures { result ≡ segment_below next segment.now }
{
    segment.id < next
        && name_below(next, segment.stable)
        && files_below(next, segment.delta.as_slice())
}

fn slot_below(next: u32, slot: &Option<StoredSegment>) -> bool
    ensures { result ≡ slot_below next slot.now }
{
    match slot {
        None => true,
        Some(segment) => segment_below(next, segment),
    }
}

fn segments_below(next: u32, places: &Places) -> bool
    ensures { result ≡ list_all (segment_below next) (present places.now.entries) }
{
    for slot in places.values() {
        if !slot_below(next, slot) {
            return false;
        }
    }
    true
}

// Whether all numbers in use are below this one.
fn all_below(next: u32, file: FileId, state: &State) -> bool
    ensures { result ≡ all_below next file state.now }
{
    let segments = &state.segments;
    file < next && name_below(next, state.regions) && segments_below(next, &segments.slots.places)
}

// Where the ranges go on behind a slot, if they went on there; the first None is a gap.
fn end_of(from: Option<i64>, slot: &Option<StoredSegment>) -> Option<Option<i64>>
    ensures { result ≡ end_of from slot.now }
{
    let Some(segment) = slot else {
        return Some(from);
    };
    let Some(low) = from else {
        return None;
    };
    if segment.range.low != low || segment.range.is_empty() {
        return None;
    }
    Some(segment.range.high)
}

fn covers(least: i64, places: &Places) -> bool
    ensures { result ≡ cover_from (Some least) (present places.now.entries) }
{
    let mut from = Some(least);
    for slot in places.values() {
        let Some(next) = end_of(from, slot) else {
            return false;
        };
        from = next;
    }
    from.is_none()
}

/// Whether the segments hold every handle once, and all numbers, that of the manifest's file too,
/// are below Next.
pub fn is_formed(file: FileId, state: &State) -> bool
    ensures { result ≡ is_formed file state.now }
{
    let segments = &state.segments;
    all_below(state.next, file, state) && covers(i64::MIN, &segments.slots.places)
}
