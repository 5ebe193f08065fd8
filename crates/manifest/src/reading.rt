// Opening a store.
ghost use Rattle.std.specs.Prelude.{◌≡◌, ◌<◌, ◌+◌, ◌^◌, ◌↔◌, [], ℕ, List, length, Some, None, Ok, true, false, OnOk, IfOk, IfSome, IsErrOf, Contains};
ghost use Rattle.flash_io.specs.Image.{IsThere, Holds};
ghost use Rattle.flash_io.specs.Faults.{Rose};
ghost use Rattle.manifest_form.specs.Takes.{IsRoot, IsManifest, Closes};
ghost use Rattle.manifest_form.specs.Walk.{root_of};
ghost use Rattle.column_block.specs.Schemas.{IsSchema};
ghost use Rattle.manifest_form.specs.States.{is_formed};
ghost use Rattle.manifest_form.specs.Whole.{IdsDiffer};
ghost use Rattle.manifest.specs.Stores.{OpensAs, IsRead, has_of};
ghost use Rattle.manifest.specs.Found.{refusal_of, RootAnswers, Finds, FindsAll};
ghost use Rattle.flash_io.specs.Runs.{Untouched, Counted};

use crate::fault::ManifestError;
use crate::store::Manifest;
use flash_io::{Disk, FileId, read_file};
use manifest_form::{Fault, Header, Recovered, RootEnd, manifest_of, named};
use std::alloc::Global;

// The refusal of a file that has this fault.
fn refusal(file: FileId, fault: Fault) -> ManifestError
    ensures { result ≡ refusal_of file fault }
{
    match fault {
        Fault::At { at } => ManifestError::Damaged { file, at },
        Fault::Version { found } => ManifestError::Version { found },
        Fault::Memory => ManifestError::Memory,
    }
}

// The manifest of what was found. Its gate stands at `at`.
fn made(alloc: Global, name: RootEnd, has: Recovered, at: u64) -> Manifest
    requires apart { 0 < name.file }
    requires named { 0 < name.at }
    requires formed { is_formed name.file has.state ≡ true }
    requires lawful { IsSchema has.header.columns }
    requires differ { IdsDiffer has.state.segments }
    requires within { at + 1 < 2 ^ 64 }
    ensures { (result.file ≡ name.file) × (result.root_at ≡ name.at) × (result.steadied ≡ false) × (has_of result ≡ has) × (result.at ≡ at) }
{
    let Recovered { header, state } = has;
    let Header { table, columns } = header;
    Manifest {
        alloc,
        file: name.file,
        at,
        root_at: name.at,
        table,
        columns,
        state,
        steadied: false,
    }
}

// The manifest that these bytes of its file make.
pub fn recovered(alloc: Global, name: RootEnd, bytes: &[u8]) -> Result<Manifest, ManifestError>
    requires apart { 0 < name.file }
    requires named { 0 < name.at }
    ensures found { Finds name.file name.at bytes.now result }
{
    match manifest_of(alloc, name.file, bytes) {
        Ok((has, at)) => Ok(made(alloc, name, has, at)),
        Err(fault) => Err(refusal(name.file, fault)),
    }
}

// The manifest that the root names.
fn open_named<D: Disk>(
    alloc: Global,
    disk: &mut D,
    list: &[FileId],
    name: RootEnd,
) -> Result<Manifest, ManifestError>
    requires named { 0 < name.at }
    requires each { D.tells → (file : ℕ) → Contains list.now file ↔ IsThere (D.files disk.old) file }
    ensures found { D.tells → FindsAll (D.files disk.old) name.file result }
    ensures read { IfOk result (λ m. (m.file ≡ name.file) × (m.root_at ≡ name.at) × (m.steadied ≡ false) × ((content : List ℕ) × (D.tells → Holds (D.files disk.old) m.file content) × Closes (IsManifest m.file (has_of m)) m.at content)) }
    ensures untouched { Untouched D.files D.may_leave D.moment D.left_since disk.old disk.new }
    ensures counted { Counted D.fault_count D.reader_fault_count D.never_fails disk.old disk.new }
    ensures device { IsErrOf result ManifestError.Device → Rose (D.fault_count disk.old) (D.fault_count disk.new) }
{
    let file = name.file;
    if file == 0 {
        return Err(ManifestError::Damaged { file, at: 0 });
    }
    if !lists(list, file) {
        return Err(ManifestError::Damaged { file, at: 0 });
    }
    let bytes = read_file(alloc, disk, file)?;
    recovered(alloc, name, bytes.as_slice())
}

// What the root names.
fn open_root(bytes: &[u8]) -> Result<Option<RootEnd>, ManifestError>
    ensures { RootAnswers bytes.now result }
{
    match named(bytes) {
        Ok(name) => Ok(name),
        Err(fault) => Err(refusal(0, fault)),
    }
}

// The store whose root is there.
fn open_store<D: Disk>(
    alloc: Global,
    disk: &mut D,
    list: &[FileId],
) -> Result<Option<Manifest>, ManifestError>
    requires root { D.tells → IsThere (D.files disk.old) 0 }
    requires each { D.tells → (file : ℕ) → Contains list.now file ↔ IsThere (D.files disk.old) file }
    ensures opened { D.tells → OpensAs (D.files disk.old) result }
    ensures read { IfOk result (λ found. IfSome found (λ m. IsRead D.tells (D.files disk.old) m × (m.steadied ≡ false))) }
    ensures untouched { Untouched D.files D.may_leave D.moment D.left_since disk.old disk.new }
    ensures counted { Counted D.fault_count D.reader_fault_count D.never_fails disk.old disk.new }
    ensures device { IsErrOf result ManifestError.Device → Rose (D.fault_count disk.old) (D.fault_count disk.new) }
{
    let root = read_file(alloc, disk, 0)?;
    let Some(name) = open_root(root.as_slice())? else {
        return Ok(None);
    };
    let manifest = open_named(alloc, disk, list, name)?;
    Ok(Some(manifest))
}

/// Opens the store that the disk has; None exactly where nothing was ever committed.
///
/// `NotAStore` exactly where file 0 isn't there and another file is. `Damaged` names the file and
/// the place from which on it isn't of the form; at 0 the named manifest may also not be there.
/// `Version` where the manifest's version isn't 1. The disk is left as it was.
pub fn open<D: Disk>(alloc: Global, disk: &mut D) -> Result<Option<Manifest>, ManifestError>
    ensures opened { D.tells → OpensAs (D.files disk.old) result }

    // What was opened is as the disk reads. What a crash leaves may still be older.
    ensures read { IfOk result (λ found. IfSome found (λ m. IsRead D.tells (D.files disk.old) m × (m.steadied ≡ false))) }
    ensures untouched { Untouched D.files D.may_leave D.moment D.left_since disk.old disk.new }
    ensures counted { Counted D.fault_count D.reader_fault_count D.never_fails disk.old disk.new }
    ensures device { IsErrOf result ManifestError.Device → Rose (D.fault_count disk.old) (D.fault_count disk.new) }
{
    let list = disk.list(alloc)?;
    if lists_none(list.as_slice()) {
        return Ok(None);
    }
    if !lists(list.as_slice(), 0) {
        return Err(ManifestError::NotAStore);
    }
    open_store(alloc, disk, list.as_slice())
}

// Whether this file is one of these.
pub fn lists(list: &[FileId], file: FileId) -> bool
    ensures there { result ≡ true → Contains list.now file }
    ensures absent { result ≡ false → Contains list.now file → ⊥ }
{
    for listed in list {
        if *listed == file {
            return true;
        }
    }
    false
}

// Whether there is no file.
fn lists_none(list: &[FileId]) -> bool
    ensures none { result ≡ true → (file : ℕ) → Contains list.now file → ⊥ }
    ensures some { result ≡ false → (file : ℕ) × Contains list.now file }
{
    list.is_empty()
}
