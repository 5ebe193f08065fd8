// The delta of a segment, as its files hold it.
ghost use Rattle.std.specs.Prelude.{◌≡◌, ◌<◌, ◌↔◌, ◌++◌, ◌∷◌, [], ℕ, List, length, slice_get, Some, OnOk, IfOk, IfErr, IsErrOf, Contains};
ghost use Rattle.std.specs.List.{AllByRecursion, flat_map};
ghost use Rattle.std.specs.List.Sorted.{IsStrictlyIncreasing};
ghost use Rattle.delta_layer.specs.Files.{HasNoMem};
ghost use Rattle.segment_list.specs.Slots.{clip_file};
ghost use Rattle.column_file.specs.Tiny.{tiny_at};
ghost use Rattle.flash_io.specs.Faults.{Rose};
ghost use Rattle.flash_io.specs.Image.{IsThere};
ghost use Rattle.flash_io.specs.Runs.{Counted, Untouched};
ghost use Rattle.opened_segments.specs.Faults.{Judges, part_faults, reading_faults};
ghost use Rattle.opened_segments.specs.Opened.{AreParts, IsPart, IsPartIn, IsTinyOf};
ghost use Rattle.opened_segments.specs.Errors.{form_fault};
ghost use Rattle.segment_flush.specs.Names.{name_of};

use crate::data::data_of;
use crate::fault::OpenFault;
use column_block::Schema;
use column_file::{ColumnFile, FormError, open_tiny, tiny_files_suit};
use delta_layer::DeltaLayer;
use flash_io::{Disk, FileId};
use flash_types::HandleRange;
use manifest_form::StoredFile;
use segment_list::clipped;
use std::alloc::Global;

// A file, kept to a range.
fn kept_to(range: HandleRange, file: &ColumnFile) -> Result<ColumnFile, OpenFault>
    ensures ok { IfOk result (λ part. part ≡ clip_file range file.now) }
    ensures memory { IfErr result (λ e. e ≡ OpenFault.Memory) }
{
    match clipped(range, file) {
        Ok(part) => Ok(part),
        Err(_) => Err(OpenFault::Memory),
    }
}

// The fault of a file whose bytes have this one.
fn fault_of(file: FileId, error: FormError) -> OpenFault
    ensures { result ≡ form_fault file error }
{
    match error {
        FormError::Damaged { at } => OpenFault::Damaged { file, at },
        FormError::Memory => OpenFault::Memory,
    }
}

// The tiny file that the bytes are, with those of its versions that lie in the range.
fn tiny_of(
    file: FileId,
    bytes: &[u8],
    range: HandleRange,
    schema: &Schema,
    alloc: Global,
) -> Result<ColumnFile, OpenFault>
    ensures exact { Judges (reading_faults file (tiny_at schema.now bytes.now)) result }
    ensures tiny { IfOk result (IsTinyOf schema.now range file bytes.now) }
    ensures never { IsErrOf result OpenFault.Device → ⊥ }
{
    match open_tiny(alloc, file, bytes, schema) {
        Ok(whole) => kept_to(range, &whole),
        Err(error) => Err(fault_of(file, error)),
    }
}

// A tiny file of a delta, with those of its versions that lie in the range.
fn tiny_part<D: Disk>(
    disk: &mut D,
    own: FileId,
    list: &[FileId],
    file: FileId,
    range: HandleRange,
    schema: &Schema,
    alloc: Global,
) -> Result<ColumnFile, OpenFault>
    requires rising { IsStrictlyIncreasing list.now }
    requires each { D.tells → (f : ℕ) → Contains list.now f ↔ IsThere (D.files disk.old) f }
    ensures exact { D.tells → Judges (part_faults own (D.files disk.old) schema.now (StoredFile.Tiny file)) result }
    ensures read { D.tells → IfOk result (IsPartIn own (D.files disk.old) schema.now range) }
    ensures tiny { IfOk result (λ f. (bytes : List ℕ) × IsTinyOf schema.now range file bytes f) }
    ensures untouched { Untouched D.files D.may_leave D.moment D.left_since disk.old disk.new }
    ensures counted { Counted D.fault_count D.reader_fault_count D.never_fails disk.old disk.new }
    ensures device { IsErrOf result OpenFault.Device → Rose (D.fault_count disk.old) (D.fault_count disk.new) }
{
    let bytes = data_of(disk, own, list, file, alloc)?;
    tiny_of(file, bytes.as_slice(), range, schema, alloc)
}

// A file of a delta, with those of its versions that lie in the range.
fn part_of<D: Disk>(
    disk: &mut D,
    own: FileId,
    list: &[FileId],
    stored: StoredFile,
    range: HandleRange,
    schema: &Schema,
    alloc: Global,
) -> Result<ColumnFile, OpenFault>
    requires rising { IsStrictlyIncreasing list.now }
    requires each { D.tells → (f : ℕ) → Contains list.now f ↔ IsThere (D.files disk.old) f }
    ensures exact { D.tells → Judges (part_faults own (D.files disk.old) schema.now stored) result }
    ensures read { D.tells → IfOk result (IsPartIn own (D.files disk.old) schema.now range) }
    ensures name { IfOk result (λ f. name_of f ≡ Some stored) }
    ensures part { IfOk result (IsPart schema.now range) }
    ensures untouched { Untouched D.files D.may_leave D.moment D.left_since disk.old disk.new }
    ensures counted { Counted D.fault_count D.reader_fault_count D.never_fails disk.old disk.new }
    ensures device { IsErrOf result OpenFault.Device → Rose (D.fault_count disk.old) (D.fault_count disk.new) }
{
    tiny_files_suit();
    match stored {
        StoredFile::Tiny { file } => tiny_part(disk, own, list, file, range, schema, alloc),
        StoredFile::DeleteRange { range: cleared } => {
            Ok(ColumnFile::DeleteRange { range: cleared })
        }
    }
}

// Adds a file that is stored behind others that are.
fn add(layer: &mut DeltaLayer, file: ColumnFile) -> Result<(), OpenFault>
    requires { HasNoMem layer.old }
    ensures ok { OnOk result (layer.new ≡ layer.old ++ file ∷ []) }
    ensures memory { IfErr result (λ e. e ≡ OpenFault.Memory) }
{
    match layer.append(file) {
        Ok(()) => Ok(()),
        Err(_) => Err(OpenFault::Memory),
    }
}

fn part_at(stored: &[StoredFile], i: usize) -> StoredFile
    requires { i < length stored.now }
    ensures { slice_get stored.now i ≡ Some result }
{
    stored[i]
}

/// The files of a delta, in order, each with those of its versions that lie in the range.
pub fn delta_of<D: Disk>(
    disk: &mut D,
    own: FileId,
    list: &[FileId],
    stored: &[StoredFile],
    range: HandleRange,
    schema: &Schema,
    alloc: Global,
) -> Result<DeltaLayer, OpenFault>
    requires rising { IsStrictlyIncreasing list.now }
    requires each { D.tells → (f : ℕ) → Contains list.now f ↔ IsThere (D.files disk.old) f }
    ensures exact { D.tells → Judges (flat_map (part_faults own (D.files disk.old) schema.now) stored.now) result }
    ensures read { D.tells → IfOk result (AllByRecursion (IsPartIn own (D.files disk.old) schema.now range)) }
    ensures parts { IfOk result (AreParts schema.now range stored.now) }
    ensures untouched { Untouched D.files D.may_leave D.moment D.left_since disk.old disk.new }
    ensures counted { Counted D.fault_count D.reader_fault_count D.never_fails disk.old disk.new }
    ensures device { IsErrOf result OpenFault.Device → Rose (D.fault_count disk.old) (D.fault_count disk.new) }
{
    let mut layer = DeltaLayer::new(alloc);
    for i in 0..stored.len() {
        let part = part_at(stored, i);
        let file = part_of(disk, own, list, part, range, schema, alloc)?;
        add(&mut layer, file)?;
    }
    Ok(layer)
}
