// Which files the manifest names for slots.
ghost use Rattle.std.specs.Prelude.{◌≡◌, ◌≤◌, length, take};
ghost use Rattle.std.specs.List.{list_any};
ghost use Rattle.segment_list.specs.Lists.{is_file_in, is_file_of, is_number, is_tiny_file};

use crate::slot::Slot;
use column_file::ColumnFile;
use delta_layer::DeltaLayer;
use flash_io::FileId;

fn is_number(file: FileId, number: Option<FileId>) -> bool
    ensures { result ≡ is_number file number }
{
    match number {
        None => false,
        Some(other) => other == file,
    }
}

fn is_tiny_file(file: FileId, one: &ColumnFile) -> bool
    ensures { result ≡ is_tiny_file file one.now }
{
    match one {
        ColumnFile::Mem { .. } => false,
        ColumnFile::Tiny { file: other, .. } => *other == file,
        ColumnFile::DeleteRange { .. } => false,
    }
}

// Whether it is one of the first files of a layer.
fn is_among(file: FileId, layer: &DeltaLayer, end: usize) -> bool
    requires { end ≤ length layer.now }
    ensures { result ≡ list_any (is_tiny_file file) (take end layer.now) }
{
    for i in 0..end {
        if is_tiny_file(file, layer.file(i)) {
            return true;
        }
    }
    false
}

// How many files of a slot's delta are named.
fn named_in<G: Drop>(slot: &Slot<G>) -> usize
    ensures within { result ≤ length slot.now.files }
    ensures front { take result slot.now.files ≡ take slot.now.named slot.now.files }
{
    let files = slot.layer().files();
    if files < slot.named() {
        return files;
    }
    slot.named()
}

// Whether it is a file of this slot.
fn is_file_of<G: Drop>(file: FileId, slot: &Slot<G>) -> bool
    ensures { result ≡ is_file_of file slot.now }
{
    is_number(file, slot.stable_number()) || is_among(file, slot.layer(), named_in(slot))
}

/// Whether it is a file of one of the slots.
pub fn is_file_in<G: Drop>(slots: &[Slot<G>], file: FileId) -> bool
    ensures { result ≡ is_file_in file slots.now }
{
    for i in 0..slots.len() {
        if is_file_of(file, &slots[i]) {
            return true;
        }
    }
    false
}
