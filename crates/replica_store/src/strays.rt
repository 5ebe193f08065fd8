// The files of a disk that nothing needs.
ghost use Rattle.std.specs.Prelude.{◌≡◌, ◌↔◌, ◌||◌, ◌==◌, ℕ, Bool, true, not, map, OnOk, IfOk, IsErrOf, Contains};
ghost use Rattle.std.specs.List.{filter, list_any};
ghost use Rattle.std.specs.List.Sorted.{IsStrictlyIncreasing};
ghost use Rattle.std.specs.BTreeSet.{contains};
ghost use Rattle.std.specs.Ordering.{nat_cmp};
ghost use Rattle.flash_io.specs.Image.{IsThere};
ghost use Rattle.replica_store.specs.Naming.{is_among, is_file_of, is_known, is_number, is_stray, is_tiny_file};
ghost use Rattle.replica_store.specs.Store.{Counted, HasFailed, NamesNothing, Untouched};

use crate::store::Store;
use flash_io::{Disk, FileId};
use manifest::CommitError;
use manifest_form::{State, StoredFile, StoredSegment};
use std::alloc::{AllocError, Global};
use std::collections::BTreeSet;

fn note(known: &mut BTreeSet<FileId>, file: FileId) -> Result<(), AllocError>
    ensures { OnOk result ((f : ℕ) → contains nat_cmp known.new f ≡ (file == f || contains nat_cmp known.old f)) }
{
    let _is_new = known.insert(file)?;
    Ok(())
}

// Notes the number, if there is one.
fn note_number(known: &mut BTreeSet<FileId>, file: Option<FileId>) -> Result<(), AllocError>
    ensures { OnOk result ((f : ℕ) → contains nat_cmp known.new f ≡ (is_number f file || contains nat_cmp known.old f)) }
{
    match file {
        Some(file) => note(known, file),
        None => Ok(()),
    }
}

fn note_all(known: &mut BTreeSet<FileId>, files: &[FileId]) -> Result<(), AllocError>
    ensures { OnOk result ((f : ℕ) → contains nat_cmp known.new f ≡ (is_among files.now f || contains nat_cmp known.old f)) }
{
    for file in files {
        note(known, *file)?;
    }
    Ok(())
}

fn note_part(known: &mut BTreeSet<FileId>, part: &StoredFile) -> Result<(), AllocError>
    ensures { OnOk result ((f : ℕ) → contains nat_cmp known.new f ≡ (is_tiny_file f part.now || contains nat_cmp known.old f)) }
{
    match part {
        StoredFile::Tiny { file } => note(known, *file),
        StoredFile::DeleteRange { .. } => Ok(()),
    }
}

fn note_parts(known: &mut BTreeSet<FileId>, parts: &[StoredFile]) -> Result<(), AllocError>
    ensures { OnOk result ((f : ℕ) → contains nat_cmp known.new f ≡ (list_any (is_tiny_file f) parts.now || contains nat_cmp known.old f)) }
{
    for part in parts {
        note_part(known, part)?;
    }
    Ok(())
}

fn note_segment(known: &mut BTreeSet<FileId>, segment: &StoredSegment) -> Result<(), AllocError>
    ensures { OnOk result ((f : ℕ) → contains nat_cmp known.new f ≡ (is_file_of f segment.now || contains nat_cmp known.old f)) }
{
    note_parts(known, segment.delta.as_slice())?;
    note_number(known, segment.stable)
}

fn note_segments(
    known: &mut BTreeSet<FileId>,
    segments: &[&StoredSegment],
) -> Result<(), AllocError>
    ensures { OnOk result ((f : ℕ) → contains nat_cmp known.new f
        ≡ (list_any (is_file_of f) (map (λ segment. segment.now) segments.now) || contains nat_cmp known.old f)) }
{
    for segment in segments {
        note_segment(known, segment)?;
    }
    Ok(())
}

// The numbers of the root, the manifest's file, those that the state names and these.
fn known_files(
    alloc: Global,
    own: FileId,
    state: &State,
    retired: &[FileId],
) -> Result<BTreeSet<FileId>, AllocError>
    ensures { IfOk result (λ known. (f : ℕ) → contains nat_cmp known f ≡ is_known own state.now retired.now f) }
{
    let mut known = BTreeSet::new(alloc);
    note_all(&mut known, retired)?;
    let segments = state.segments.list(alloc)?;
    note_segments(&mut known, segments.as_slice())?;
    note_number(&mut known, state.regions)?;
    note(&mut known, own)?;
    note(&mut known, 0)?;
    Ok(known)
}

fn keep_others(list: &mut Vec<FileId>, known: &BTreeSet<FileId>)
    ensures { (test : ℕ → Bool) → ((f : ℕ) → contains nat_cmp known.now f ≡ test f) → list.new.items ≡ filter (λ f. not (test f)) list.old.items }
{
    list.retain(|file| !known.contains(file));
}

// Those of the list that nothing needs.
fn strays_of(
    alloc: Global,
    own: FileId,
    state: &State,
    retired: &[FileId],
    mut list: Vec<FileId>,
) -> Result<Vec<FileId>, AllocError>
    ensures { IfOk result (λ strays. strays.items ≡ filter (is_stray own state.now retired.now) list.items) }
{
    let known = known_files(alloc, own, state, retired)?;
    keep_others(&mut list, &known);
    Ok(list)
}

impl<D: Disk> Store<D> {
    /// The strays, each once, in rising order: the files of the disk that are neither the root, the
    /// manifest's, one that the state names, nor one of these retired ones. A call that met want of
    /// memory after a `stage` leaves one, and so does a crash before the commit. They may be removed.
    ///
    /// It takes time n log n in the numbers of the files that are listed, named and retired.
    pub fn strays(&mut self, alloc: Global, retired: &[FileId]) -> Result<Vec<FileId>, CommitError>
        ensures named { NamesNothing D.Disk self.old self.new }
        ensures rising { IfOk result (λ strays. IsStrictlyIncreasing strays.items) }
        ensures each { D.tells → IfOk result (λ strays. (file : ℕ) → Contains strays.items file
            ↔ (IsThere (D.files self.old.disk) file × (is_stray self.old.manifest.file self.old.manifest.state retired.now file ≡ true))) }
        ensures stray { IfOk result (λ strays. (file : ℕ) → Contains strays.items file → is_stray self.old.manifest.file self.old.manifest.state retired.now file ≡ true) }
        ensures untouched { Untouched D.Disk self.old self.new }
        ensures counted { Counted D.Disk self.old self.new }
        ensures device { IsErrOf result CommitError.Device → HasFailed D.Disk self.old self.new }
    {
        let list = self.list(alloc)?;
        let strays = strays_of(alloc, self.file(), self.state(), retired, list)?;
        Ok(strays)
    }
}
