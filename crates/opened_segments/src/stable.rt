// The stable part of a segment, as its file's footer tells it.
ghost use Rattle.std.specs.Prelude.{◌≡◌, ◌↔◌, ℕ, List, Some, Ok, length, IfOk, IsErrOf, Contains};
ghost use Rattle.std.specs.List.Sorted.{IsStrictlyIncreasing};
ghost use Rattle.flash_io.specs.Faults.{Rose};
ghost use Rattle.flash_io.specs.Image.{Holds, IsThere};
ghost use Rattle.flash_io.specs.Runs.{Counted, Untouched};
ghost use Rattle.stable_file.specs.Footer.{tail_at};
ghost use Rattle.stable_file.specs.Opened.{IsTailOf, grip_of, packs_of, schema_of};
ghost use Rattle.opened_segments.specs.Faults.{Judges, reading_faults, stable_faults};
ghost use Rattle.opened_segments.specs.Opened.{IsHeld, IsStableIn, IsStablePart};
ghost use Rattle.opened_segments.specs.Tails.{IsTail, OfContent};

use crate::data::is_data;
use crate::fault::OpenFault;
use crate::tail::tail_of;
use column_block::Schema;
use flash_io::{Disk, FileId, Gripped, Reader};
use stable_file::{ReadError, StableFile, attach, tails_tell_the_whole};
use std::alloc::Global;

// The stable file of which these are the last bytes.
fn attached<G: Gripped>(
    file: FileId,
    grip: G,
    len: u64,
    tail: &[u8],
    schema: &Schema,
    alloc: Global,
) -> Result<StableFile<G>, OpenFault>
    requires tail { IsTail len tail.now }
    ensures exact { Judges (reading_faults file (tail_at len schema.now tail.now)) result }
    ensures packs { IfOk result (λ part. tail_at len schema.now tail.now ≡ Ok (packs_of part)) }
    ensures schema { IfOk result (λ part. schema_of part ≡ schema.now) }
    ensures grip { IfOk result (λ part. grip_of part ≡ grip) }
    ensures never { IsErrOf result OpenFault.Device → ⊥ }
{
    match attach(alloc, grip, len, tail, schema) {
        Ok(part) => Ok(part),
        Err(ReadError::Damaged { at }) => Err(OpenFault::Damaged { file, at }),
        Err(ReadError::Device) => Err(OpenFault::Device),
        Err(ReadError::Memory) => Err(OpenFault::Memory),
    }
}

// The stable file of this number and length, held, of which these are the last bytes.
fn held<D: Disk>(
    disk: &mut D,
    file: FileId,
    len: u64,
    tail: &[u8],
    schema: &Schema,
    alloc: Global,
) -> Result<StableFile<<D::Reader as Reader>::Grip>, OpenFault>
    requires there { D.tells → IsThere (D.files disk.old) file }
    requires tail { IsTail len tail.now }
    requires told { D.tells → OfContent (D.files disk.old) file len (IsTailOf len tail.now) }
    ensures exact { D.tells → OfContent (D.files disk.old) file len (λ content. Judges (reading_faults file (tail_at len schema.now content)) result) }
    ensures held { D.tells → IfOk result (λ part. OfContent (D.files disk.old) file len (IsHeld D.Reader.Grip.bytes schema.now part)) }
    ensures schema { IfOk result (λ part. schema_of part ≡ schema.now) }
    ensures untouched { Untouched D.files D.may_leave D.moment D.left_since disk.old disk.new }
    ensures counted { Counted D.fault_count D.reader_fault_count D.never_fails disk.old disk.new }
    ensures device { IsErrOf result OpenFault.Device → Rose (D.fault_count disk.old) (D.fault_count disk.new) }
{
    tails_tell_the_whole();
    let grip = disk.grip(file)?;
    attached(file, grip, len, tail, schema, alloc)
}

// The stable file of this number.
fn file_of<D: Disk>(
    disk: &mut D,
    file: FileId,
    schema: &Schema,
    alloc: Global,
) -> Result<StableFile<<D::Reader as Reader>::Grip>, OpenFault>
    requires there { D.tells → IsThere (D.files disk.old) file }
    ensures exact { D.tells → (content : List ℕ) → Holds (D.files disk.old) file content → Judges (reading_faults file (tail_at (length content) schema.now content)) result }
    ensures held { D.tells → IfOk result (λ part. (content : List ℕ) → Holds (D.files disk.old) file content → IsHeld D.Reader.Grip.bytes schema.now part content) }
    ensures schema { IfOk result (λ part. schema_of part ≡ schema.now) }
    ensures untouched { Untouched D.files D.may_leave D.moment D.left_since disk.old disk.new }
    ensures counted { Counted D.fault_count D.reader_fault_count D.never_fails disk.old disk.new }
    ensures device { IsErrOf result OpenFault.Device → Rose (D.fault_count disk.old) (D.fault_count disk.new) }
{
    let len = disk.len(file)?;
    let tail = tail_of(disk, file, len, alloc)?;
    held(disk, file, len, tail.as_slice(), schema, alloc)
}

// The stable part that a file has.
fn some_part<D: Disk>(
    disk: &mut D,
    own: FileId,
    list: &[FileId],
    file: FileId,
    schema: &Schema,
    alloc: Global,
) -> Result<Option<StableFile<<D::Reader as Reader>::Grip>>, OpenFault>
    requires rising { IsStrictlyIncreasing list.now }
    requires each { D.tells → (f : ℕ) → Contains list.now f ↔ IsThere (D.files disk.old) f }
    ensures exact { D.tells → Judges (stable_faults own (D.files disk.old) schema.now (Some file)) result }
    ensures read { D.tells → IfOk result (IsStableIn D.Reader.Grip.bytes own (D.files disk.old) schema.now (Some file)) }
    ensures part { IfOk result (IsStablePart schema.now (Some file)) }
    ensures untouched { Untouched D.files D.may_leave D.moment D.left_since disk.old disk.new }
    ensures counted { Counted D.fault_count D.reader_fault_count D.never_fails disk.old disk.new }
    ensures device { IsErrOf result OpenFault.Device → Rose (D.fault_count disk.old) (D.fault_count disk.new) }
{
    if !is_data(own, list, file) {
        return Err(OpenFault::Damaged { file, at: 0 });
    }
    match file_of(disk, file, schema, alloc) {
        Ok(part) => Ok(Some(part)),
        Err(fault) => Err(fault),
    }
}

/// A segment's stable part, where there is a file of it. Of the file it reads the footer alone.
pub fn stable_of<D: Disk>(
    disk: &mut D,
    own: FileId,
    list: &[FileId],
    file: Option<FileId>,
    schema: &Schema,
    alloc: Global,
) -> Result<Option<StableFile<<D::Reader as Reader>::Grip>>, OpenFault>
    requires rising { IsStrictlyIncreasing list.now }
    requires each { D.tells → (f : ℕ) → Contains list.now f ↔ IsThere (D.files disk.old) f }
    ensures exact { D.tells → Judges (stable_faults own (D.files disk.old) schema.now file) result }
    ensures read { D.tells → IfOk result (IsStableIn D.Reader.Grip.bytes own (D.files disk.old) schema.now file) }
    ensures part { IfOk result (IsStablePart schema.now file) }
    ensures untouched { Untouched D.files D.may_leave D.moment D.left_since disk.old disk.new }
    ensures counted { Counted D.fault_count D.reader_fault_count D.never_fails disk.old disk.new }
    ensures device { IsErrOf result OpenFault.Device → Rose (D.fault_count disk.old) (D.fault_count disk.new) }
{
    match file {
        None => Ok(None),
        Some(file) => some_part(disk, own, list, file, schema, alloc),
    }
}
