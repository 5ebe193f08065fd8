// The blocks in memory of one delta, written as tiny files.
ghost use Rattle.std.specs.Prelude.{◌≡◌, ◌<◌, ◌≤◌, ◌^◌, OnOk, IfOk, IsErrOf};
ghost use Rattle.std.specs.List.{AllByRecursion};
ghost use Rattle.flash_io.specs.Crash.{Elsewhere};
ghost use Rattle.flash_io.specs.Image.{Image};
ghost use Rattle.column_block.specs.Suiting.{Suits};
ghost use Rattle.column_file.specs.Tiny.{tiny};
ghost use Rattle.column_file.specs.declared.file.ColumnFile.TheVariants.{Tiny};
ghost use Rattle.delta_layer.specs.Files.{FileHas, FilesHave, file_of, files_of};
ghost use Rattle.manifest.specs.Stores.{Beneath};
ghost use Rattle.pack_codec.specs.Spelling.{PackFits};
ghost use Rattle.replica_store.specs.Store.{Counted, HasFailed, LeavesAlways, NamesNothing};
ghost use Rattle.segment_list.specs.Flushes.{after_file, after_files, flushed_file, flushed_files};
ghost use Rattle.segment_staging.specs.Staging.{AreBelow, AreWritten, IsFileBelow, IsWritten};

use column_block::{Block, Schema};
use column_file::{ColumnFile, encode_tiny, tiny_files_are_read_again};
use delta_layer::DeltaLayer;
use flash_io::{Disk, FileId};
use manifest::CommitError;
use replica_store::Store;
use std::alloc::Global;

// The bytes of a block as a tiny file.
fn encoded(block: &Block, schema: &Schema, alloc: Global) -> Result<Vec<u8>, CommitError>
    ensures bytes { IfOk result (λ bytes. bytes.items ≡ tiny schema.now block.now) }
    ensures fits { OnOk result (PackFits schema.now block.now) }
    ensures memory { IsErrOf result CommitError.Device → ⊥ }
{
    let mut bytes = Vec::new(alloc);
    match encode_tiny(alloc, block, schema, &mut bytes) {
        Ok(()) => Ok(bytes),
        Err(_) => Err(CommitError::Memory),
    }
}

// Writes a block as the tiny file of a number.
fn stage_block<D: Disk>(
    store: &mut Store<D>,
    schema: &Schema,
    number: FileId,
    block: &Block,
    alloc: Global,
) -> Result<(), CommitError>
    requires fresh { store.old.manifest.state.next ≤ number }
    requires suits { AllByRecursion (Suits schema.now) block.now }
    ensures named { NamesNothing D.Disk store.old store.new }
    ensures written { OnOk result ((c : Image) → D.may_leave store.new.disk c → IsWritten schema.now store.old.manifest.state.next c (Tiny number block.now)) }
    ensures any_moment { LeavesAlways D.Disk store.old store.new (Elsewhere number (D.may_leave store.old.disk)) }
    ensures counted { Counted D.Disk store.old store.new }
    ensures device { IsErrOf result CommitError.Device → HasFailed D.Disk store.old store.new }
{
    tiny_files_are_read_again();
    let _lawful = schema.columns();
    let bytes = encoded(block, schema, alloc)?;
    store.stage(number, bytes.as_slice())?;
    Ok(())
}

// Writes a block in memory as the tiny file of a number; of other files nothing is written.
fn stage_file<D: Disk>(
    store: &mut Store<D>,
    schema: &Schema,
    number: FileId,
    file: &ColumnFile,
    alloc: Global,
) -> Result<(), CommitError>
    requires fresh { store.old.manifest.state.next ≤ number }
    requires suits { FileHas (Suits schema.now) (file_of file.now) }
    requires below { IsFileBelow store.old.manifest.state.next file.now }
    ensures named { NamesNothing D.Disk store.old store.new }
    ensures written { OnOk result ((c : Image) → D.may_leave store.new.disk c → IsWritten schema.now store.old.manifest.state.next c (flushed_file number file.now)) }
    ensures any_moment { LeavesAlways D.Disk store.old store.new (Elsewhere number (D.may_leave store.old.disk)) }
    ensures counted { Counted D.Disk store.old store.new }
    ensures device { IsErrOf result CommitError.Device → HasFailed D.Disk store.old store.new }
{
    match file {
        ColumnFile::Mem { block } => {
            stage_block(store, schema, number, block, alloc)?;
            Ok(())
        }
        ColumnFile::Tiny { .. } => Ok(()),
        ColumnFile::DeleteRange { .. } => Ok(()),
    }
}

// The number for the next block.
fn number_after(file: &ColumnFile, number: FileId) -> FileId
    requires { after_file number file.now < 2 ^ 32 }
    ensures { result ≡ after_file number file.now }
{
    match file {
        ColumnFile::Mem { .. } => number + 1,
        ColumnFile::Tiny { .. } => number,
        ColumnFile::DeleteRange { .. } => number,
    }
}

/// Writes the blocks in memory of a delta as tiny files, with numbers from this one on, which isn't
/// below Next. Whatever it answers, files below that number are as they were in each image, at each
/// moment. `Memory` and `Device` are as a `stage` of the store gives them.
pub fn stage_layer<D: Disk>(
    store: &mut Store<D>,
    schema: &Schema,
    from: FileId,
    layer: &DeltaLayer,
    alloc: Global,
) -> Result<(), CommitError>
    requires fresh { store.old.manifest.state.next ≤ from }
    requires suits { FilesHave (Suits schema.now) (files_of layer.now) }
    requires below { AreBelow store.old.manifest.state.next layer.now }
    requires room { after_files from layer.now < 2 ^ 32 }
    ensures named { NamesNothing D.Disk store.old store.new }
    ensures written { OnOk result ((c : Image) → D.may_leave store.new.disk c → AreWritten schema.now store.old.manifest.state.next c (flushed_files from layer.now)) }
    ensures any_moment { LeavesAlways D.Disk store.old store.new (Beneath from (D.may_leave store.old.disk)) }
    ensures counted { Counted D.Disk store.old store.new }
    ensures device { IsErrOf result CommitError.Device → HasFailed D.Disk store.old store.new }
{
    let mut number = from;
    for i in 0..layer.files() {
        let file = layer.file(i);
        stage_file(store, schema, number, file, alloc)?;
        number = number_after(file, number);
    }
    Ok(())
}
