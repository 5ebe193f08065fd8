// Making a store.
ghost use Rattle.std.specs.Prelude.{◌≡◌, ◌≢◌, ◌∷◌, [], ℕ, ◌<◌, length, true, Some, None, Ok, OnOk, OnErr, IfOk, IsErrOf};
ghost use Rattle.flash_io.specs.Crash.{Durable, LeavesOnly};
ghost use Rattle.flash_io.specs.Faults.{Rose};
ghost use Rattle.column_block.specs.Schemas.{IsSchema};
ghost use Rattle.manifest_form.specs.declared.recover.Recovered.{Recovered};
ghost use Rattle.manifest_form.specs.declared.state.State.{State};
ghost use Rattle.manifest_form.specs.States.{after_record};
ghost use Rattle.manifest_form.specs.Takes.{IsManifest, Closes};
ghost use Rattle.manifest_form.specs.Walk.{manifest_of};
ghost use Rattle.manifest.specs.Gated.{with_record, IsSteady};
ghost use Rattle.manifest.specs.Made.{first_edits, store_of, new_store, IsFresh, IsUnmade, OldOrNone, OldOrMade};
ghost use Rattle.flash_io.specs.Runs.{Counted};
ghost use Rattle.manifest.specs.Stores.{IsNew, IsKept, has_of};

use crate::committing::spelled;
use crate::durable::stage;
use crate::fault::CommitError;
use crate::gated::{commit, put_record};
use crate::reading::recovered;
use crate::ready::ready;
use crate::store::Manifest;
use column_block::{Column, Schema};
use flash_io::{Disk, DiskFault};
use flash_put::put_u8;
use flash_types::HandleRange;
use manifest_form::{Edit, RootEnd, StoredFiles, StoredSegment, put_header};
use std::alloc::{AllocError, Global};

fn first_edits(alloc: Global, chain: [u8; 32]) -> Result<Vec<Edit>, AllocError>
    ensures { IfOk result (λ edits. edits.items ≡ first_edits chain) }
{
    let segment = StoredSegment {
        id: 0,
        range: HandleRange {
            low: i64::MIN,
            high: None,
        },
        stable: None,
        delta: StoredFiles::new(alloc),
    };
    let mut edits = Vec::new(alloc);
    edits.push(Edit::Next { file: 2 })?;
    edits.push(Edit::Segment { segment })?;
    edits.push(Edit::High { entries: 0, chain })?;
    edits.push(Edit::SafePoint { ts: 0 })?;
    Ok(edits)
}

/// The whole file of a new manifest, whose first record has these edits.
pub fn file_bytes(
    alloc: Global,
    table: i64,
    columns: &[Column],
    edits: &[Edit],
) -> Result<Vec<u8>, AllocError>
    requires lawful { IsSchema columns.now }
    ensures { IfOk result (λ bytes. (file : ℕ) (state : State) → after_record file None edits.now ≡ Some state → manifest_of file bytes.items ≡ Ok (store_of table columns.now state)) }
{
    let record = spelled(alloc, edits)?;
    let mut bytes = Vec::new(alloc);
    put_header(table, columns, &mut bytes)?;
    put_u8(1, &mut bytes)?;
    put_record(record.as_slice(), &mut bytes)?;
    Ok(bytes)
}

// The whole file of the manifest of a new store.
fn first_bytes(
    alloc: Global,
    table: i64,
    columns: &[Column],
    chain: [u8; 32],
) -> Result<Vec<u8>, AllocError>
    requires lawful { IsSchema columns.now }
    ensures { IfOk result (λ bytes. manifest_of 1 bytes.items ≡ Ok (new_store table columns.now chain)) }
{
    let edits = first_edits(alloc, chain)?;
    let bytes = file_bytes(alloc, table, columns, edits.as_slice())?;
    Ok(bytes)
}

/// The manifest of these bytes of its file.
pub fn read_back(alloc: Global, name: RootEnd, bytes: &[u8]) -> Result<Manifest, CommitError>
    requires apart { 0 < name.file }
    requires named { 0 < name.at }
    ensures made { IfOk result (λ m. (m.file ≡ name.file) × (m.root_at ≡ name.at) × (m.steadied ≡ true) × (manifest_of name.file bytes.now ≡ Ok (has_of m)) × Closes (IsManifest name.file (has_of m)) m.at bytes.now) }
    ensures device { IsErrOf result CommitError.Device → ⊥ }
{
    match recovered(alloc, name, bytes) {
        Ok(manifest) => Ok(settled(manifest)),
        Err(_) => Err(CommitError::Memory),
    }
}

// The same manifest, which is on the disk.
fn settled(mut manifest: Manifest) -> Manifest
    ensures { result ≡ record manifest { steadied = true } }
{
    manifest.steadied = true;
    manifest
}

// A root with a closed gate, and file 1 with these bytes.
fn lay<D: Disk>(alloc: Global, disk: &mut D, bytes: &[u8]) -> Result<(), DiskFault>
    ensures root { OnOk result (IsSteady 0 [] (D.may_leave disk.new)) }
    ensures staged { OnOk result (Durable 1 bytes.now (D.may_leave disk.new)) }
    ensures any_moment { IsUnmade (D.files disk.old) (D.may_leave disk.old) → LeavesOnly D.moment D.left_since disk.old disk.new (OldOrNone (D.may_leave disk.old)) }
    ensures unmade { IsUnmade (D.files disk.old) (D.may_leave disk.old) → IsUnmade (D.files disk.new) (D.may_leave disk.new) }
    ensures others { (file : ℕ) → file ≢ 0 → file ≢ 1 → D.files disk.new file ≡ D.files disk.old file }
    ensures counted { Counted D.fault_count D.reader_fault_count D.never_fails disk.old disk.new }
    ensures failed { IsErrOf result DiskFault.Failed → Rose (D.fault_count disk.old) (D.fault_count disk.new) }
{
    ready(alloc, disk)?;
    stage(disk, 1, bytes)
}

// Makes file 1 with these bytes the manifest's file.
fn establish<D: Disk>(alloc: Global, disk: &mut D, bytes: &[u8]) -> Result<(), CommitError>
    ensures root { OnOk result (IsSteady 0 (with_record [] (0 ∷ 0 ∷ 0 ∷ 1 ∷ [])) (D.may_leave disk.new)) }
    ensures staged { OnOk result (Durable 1 bytes.now (D.may_leave disk.new)) }
    ensures any_moment { (has : Recovered) → manifest_of 1 bytes.now ≡ Ok has → IsUnmade (D.files disk.old) (D.may_leave disk.old) → LeavesOnly D.moment D.left_since disk.old disk.new (OldOrMade (D.may_leave disk.old) has) }
    ensures unmade { IsUnmade (D.files disk.old) (D.may_leave disk.old) → IsUnmade (D.files disk.new) (D.may_leave disk.new) }
    ensures others { (file : ℕ) → file ≢ 0 → file ≢ 1 → D.files disk.new file ≡ D.files disk.old file }
    ensures counted { Counted D.fault_count D.reader_fault_count D.never_fails disk.old disk.new }
    ensures device { IsErrOf result CommitError.Device → Rose (D.fault_count disk.old) (D.fault_count disk.new) }
{
    lay(alloc, disk, bytes)?;
    commit(alloc, disk, 0, 0, &[0, 0, 0, 1])
}

/// Makes a store of this table and these columns in files 0 and 1; `chain` is the chain value of
/// no entries. Nothing was ever committed on the disk, where it tells its content; a half-made
/// root, with what stands behind its closed gate, and other files don't matter. A disk that has a
/// committed root all the same is left as it is, and the answer is `Memory`.
///
/// What is asked of the images that the disk may leave (`IsUnmade`) holds of a disk with one image,
/// in which nothing was committed, and still holds after a failed try.
///
/// File 0 is made with a closed gate, or one is written over a root of no byte or of the one byte
/// 1, and synced; file 1 is made and synced; then its number is committed to the root.
pub fn create<D: Disk>(
    alloc: Global,
    disk: &mut D,
    table: i64,
    schema: &Schema,
    chain: [u8; 32],
) -> Result<Manifest, CommitError>
    requires new { D.tells → IsNew (D.files disk.old) }
    ensures made { IfOk result (IsFresh table schema.now chain) }
    ensures kept { IfOk result (IsKept (D.may_leave disk.new)) }

    // A crash at each moment of the call leaves an old image, or one in which nothing was committed or the new store is whole.
    ensures any_moment { IsUnmade (D.files disk.old) (D.may_leave disk.old) → LeavesOnly D.moment D.left_since disk.old disk.new (OldOrMade (D.may_leave disk.old) (new_store table schema.now chain)) }

    // So it is of a second try on the disk that a failed one left.
    ensures unmade { IsUnmade (D.files disk.old) (D.may_leave disk.old) → OnErr result (IsUnmade (D.files disk.new) (D.may_leave disk.new)) }
    ensures others { (file : ℕ) → file ≢ 0 → file ≢ 1 → D.files disk.new file ≡ D.files disk.old file }
    ensures counted { Counted D.fault_count D.reader_fault_count D.never_fails disk.old disk.new }
    ensures device { IsErrOf result CommitError.Device → Rose (D.fault_count disk.old) (D.fault_count disk.new) }
{
    let bytes = first_bytes(alloc, table, schema.columns(), chain)?;
    let manifest = read_back(alloc, RootEnd { file: 1, at: 13 }, bytes.as_slice())?;
    establish(alloc, disk, bytes.as_slice())?;
    Ok(manifest)
}
