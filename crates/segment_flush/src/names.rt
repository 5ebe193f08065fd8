// What a slot's segment is in a manifest.
ghost use Rattle.std.specs.Prelude.{◌≡◌, ◌++◌, ◌∷◌, [], OnOk, IfOk};
ghost use Rattle.std.specs.List.{filter_map};
ghost use Rattle.segment_flush.specs.Names.{name_of};

use column_file::ColumnFile;
use delta_layer::DeltaLayer;
use flash_list::Items;
use manifest_form::{StoredFile, StoredFiles, StoredSegment};
use segment_list::{Memory, Slot};
use std::alloc::Global;

// A file of a delta as a manifest names it; none for a block in memory.
fn name_of(file: &ColumnFile) -> Option<StoredFile>
    ensures { result ≡ name_of file.now }
{
    match file {
        ColumnFile::Mem { .. } => None,
        ColumnFile::Tiny { file, .. } => Some(StoredFile::Tiny { file: *file }),
        ColumnFile::DeleteRange { range } => Some(StoredFile::DeleteRange { range: *range }),
    }
}

// Adds the name of a file, if it has one.
fn append_name(names: &mut StoredFiles, file: &ColumnFile) -> Result<(), Memory>
    ensures { OnOk result (names.new ≡ names.old ++ filter_map name_of (file.now ∷ [])) }
{
    let Some(name) = name_of(file) else {
        return Ok(());
    };
    match names.push(name) {
        Ok(()) => Ok(()),
        Err(_) => Err(Memory),
    }
}

// The names of a delta's files.
fn names_of(layer: &DeltaLayer, alloc: Global) -> Result<StoredFiles, Memory>
    ensures { IfOk result (λ names. names ≡ filter_map name_of layer.now) }
{
    let mut names = Items::new(alloc);
    for i in 0..layer.files() {
        append_name(&mut names, layer.file(i))?;
    }
    Ok(names)
}

/// A slot's segment as a manifest names it, where its delta has these files.
pub fn stored<G: Drop>(
    slot: &Slot<G>,
    layer: &DeltaLayer,
    alloc: Global,
) -> Result<StoredSegment, Memory>
    ensures { IfOk result (λ segment. segment ≡ record { id = slot.now.id; range = slot.now.range; stable = slot.now.stable_number; delta = filter_map name_of layer.now }) }
{
    let delta = names_of(layer, alloc)?;
    Ok(StoredSegment {
        id: slot.id(),
        range: slot.range(),
        stable: slot.stable_number(),
        delta,
    })
}
