// What a slot is in a manifest, with the files that are named alone.
ghost use Rattle.std.specs.Prelude.{◌≡◌, ◌≤◌, ◌++◌, ◌∷◌, [], IfOk, OnOk, length, take};
ghost use Rattle.std.specs.List.{filter_map};
ghost use Rattle.segment_flush.specs.Names.{name_of, stored_of};

use column_file::ColumnFile;
use delta_layer::DeltaLayer;
use flash_list::Items;
use manifest_form::{StoredFile, StoredFiles, StoredSegment};
use segment_list::{Memory, Slot};
use std::alloc::Global;

// A file of a delta as a manifest names it; none for a block in memory.
fn name_of(file: &ColumnFile) -> Option<StoredFile>
    ensures { result ≡ name_of file.now }
{
    match file {
        ColumnFile::Mem { .. } => None,
        ColumnFile::Tiny { file, .. } => Some(StoredFile::Tiny { file: *file }),
        ColumnFile::DeleteRange { range } => Some(StoredFile::DeleteRange { range: *range }),
    }
}

// Adds the name of a file, if it has one.
fn append_name(names: &mut StoredFiles, file: &ColumnFile) -> Result<(), Memory>
    ensures { OnOk result (names.new ≡ names.old ++ filter_map name_of (file.now ∷ [])) }
{
    let Some(name) = name_of(file) else {
        return Ok(());
    };
    match names.push(name) {
        Ok(()) => Ok(()),
        Err(_) => Err(Memory),
    }
}

// The names of the first files of a layer.
fn first_names(layer: &DeltaLayer, end: usize, alloc: Global) -> Result<StoredFiles, Memory>
    requires { end ≤ length layer.now }
    ensures { IfOk result (λ names. names ≡ filter_map name_of (take end layer.now)) }
{
    let mut names = Items::new(alloc);
    for i in 0..end {
        append_name(&mut names, layer.file(i))?;
    }
    Ok(names)
}

// How many files of a slot's delta are named.
fn named_in<G: Drop>(slot: &Slot<G>) -> usize
    ensures within { result ≤ length slot.now.files }
    ensures front { take result slot.now.files ≡ take slot.now.named slot.now.files }
{
    let files = slot.layer().files();
    if files < slot.named() {
        return files;
    }
    slot.named()
}

/// A slot's segment as a manifest names it, with those files of its delta that are named.
pub fn stored_named<G: Drop>(slot: &Slot<G>, alloc: Global) -> Result<StoredSegment, Memory>
    ensures { IfOk result (λ segment. segment ≡ stored_of slot.now) }
{
    let delta = first_names(slot.layer(), named_in(slot), alloc)?;
    Ok(StoredSegment {
        id: slot.id(),
        range: slot.range(),
        stable: slot.stable_number(),
        delta,
    })
}
