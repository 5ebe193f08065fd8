// The record of moments: the calls of a disk, from which each moment can be told.
ghost use Rattle.std.specs.Prelude.{◌≡◌, ◌⊎◌, ◌≤◌, ◌+◌, ◌++◌, [], ◌∷◌, false, true, OnOk, OnErr, IfOk, None, ◌≢◌, ◌<◌, ◌↔◌, Contains, ℕ, vec_len};
ghost use Rattle.std.specs.Vec.{vec_capacity};
ghost use Rattle.std.specs.Ordering.{nat_cmp};
ghost use Rattle.std.specs.BTreeMap.{btree_map_len, keys};
ghost use Rattle.std.specs.BTreeSet.{btree_set_len, contains};
ghost use Rattle.std.specs.List.Sorted.{IsStrictlySortedBy};
ghost use Rattle.flash_io.specs.Image.{IsThere};
ghost use Rattle.flash_mem.specs.declared.history.Call.TheVariants.{Create, Write, Sync, Remove};
ghost use Rattle.flash_mem.specs.Files.{bytes_of, image_of, set_file};
ghost use Rattle.flash_mem.specs.History.{IsKept, IsNoted};

use crate::contents::{Files, change_file};
use flash_io::FileId;
use std::alloc::{AllocError, Global};
use std::collections::BTreeSet;
use std::sync::Arc;

/// A call that changed the disk.
#[derive(Drop)]
pub enum Call {
    Create {
        file: FileId,
        bytes: Vec<u8>,
    },
    Write {
        file: FileId,
        at: u64,
        bytes: Vec<u8>,
    },
    Sync {
        file: FileId,
    },
    Remove {
        file: FileId,
    },
}

/// Makes room in the record for a call on this file, and marks the file as unsynced.
fn make_room(
    files: &Files,
    calls: &mut Vec<Call>,
    unsynced: &mut BTreeSet<FileId>,
    file: FileId,
) -> Result<(), AllocError>
    requires room { vec_len calls.old + btree_map_len files.now + btree_set_len unsynced.old ≤ vec_capacity calls.old }
    ensures room { vec_len calls.new + btree_map_len files.now + btree_set_len unsynced.new ≤ vec_capacity calls.new }
    ensures more { OnOk result (vec_len calls.new + btree_map_len files.now + btree_set_len unsynced.new + 2 ≤ vec_capacity calls.new) }
    ensures calls { calls.new.items ≡ calls.old.items }
    ensures marked { OnOk result (contains nat_cmp unsynced.new file ≡ true) }
    ensures others { (f : ℕ) → contains nat_cmp unsynced.new f ≡ false → contains nat_cmp unsynced.old f ≡ false }
{
    let Some(both) = files.len().checked_add(unsynced.len()) else {
        return Err(AllocError);
    };
    let Some(needed) = both.checked_add(3) else {
        return Err(AllocError);
    };
    calls.reserve(needed)?;
    let _added = unsynced.insert(file)?;
    Ok(())
}

// There is room for this.
fn note(calls: &mut Vec<Call>, call: Call)
    requires { vec_len calls.old < vec_capacity calls.old }
    ensures calls { calls.new.items ≡ calls.old.items ++ call ∷ [] }
    ensures len { vec_len calls.new ≡ vec_len calls.old + 1 }
    ensures capacity { vec_capacity calls.old ≤ vec_capacity calls.new }
{
    let _ = calls.push(call);
}

/// Makes the file with this content, and notes it.
pub fn put(
    files: &mut Files,
    calls: &mut Vec<Call>,
    unsynced: &mut BTreeSet<FileId>,
    file: FileId,
    content: Arc<Vec<u8>>,
    kept: Vec<u8>,
) -> Result<(), AllocError>
    requires room { vec_len calls.old + btree_map_len files.old + btree_set_len unsynced.old ≤ vec_capacity calls.old }
    requires same { bytes_of content ≡ kept.items }
    ensures room { vec_len calls.new + btree_map_len files.new + btree_set_len unsynced.new ≤ vec_capacity calls.new }
    ensures noted { OnOk result (IsNoted (Create file kept) file calls.old.items calls.new.items (image_of files.old) (image_of files.new) (contains nat_cmp unsynced.new)) }
    ensures either { IsKept calls.old.items calls.new.items (image_of files.old) (image_of files.new) ⊎ IsNoted (Create file kept) file calls.old.items calls.new.items (image_of files.old) (image_of files.new) (contains nat_cmp unsynced.new) }
    ensures kept { OnErr result (IsKept calls.old.items calls.new.items (image_of files.old) (image_of files.new)) }
    ensures others { (f : ℕ) → contains nat_cmp unsynced.new f ≡ false → contains nat_cmp unsynced.old f ≡ false }
{
    make_room(files, calls, unsynced, file)?;
    let _old = files.insert(file, content)?;
    note(calls, Call::Create { file, bytes: kept });
    Ok(())
}

/// Writes over a part of the file, or past its end, and notes it.
pub fn put_over(
    alloc: Global,
    files: &mut Files,
    calls: &mut Vec<Call>,
    unsynced: &mut BTreeSet<FileId>,
    file: FileId,
    at: u64,
    kept: Vec<u8>,
) -> Result<(), AllocError>
    requires room { vec_len calls.old + btree_map_len files.old + btree_set_len unsynced.old ≤ vec_capacity calls.old }
    ensures room { vec_len calls.new + btree_map_len files.new + btree_set_len unsynced.new ≤ vec_capacity calls.new }
    ensures noted { OnOk result (IsNoted (Write file at kept) file calls.old.items calls.new.items (image_of files.old) (image_of files.new) (contains nat_cmp unsynced.new)) }
    ensures either { IsKept calls.old.items calls.new.items (image_of files.old) (image_of files.new) ⊎ IsNoted (Write file at kept) file calls.old.items calls.new.items (image_of files.old) (image_of files.new) (contains nat_cmp unsynced.new) }
    ensures kept { OnErr result (IsKept calls.old.items calls.new.items (image_of files.old) (image_of files.new)) }
    ensures others { (f : ℕ) → contains nat_cmp unsynced.new f ≡ false → contains nat_cmp unsynced.old f ≡ false }
{
    make_room(files, calls, unsynced, file)?;
    change_file(alloc, files, file, at, &kept)?;
    note(
        calls,
        Call::Write {
            file,
            at,
            bytes: kept,
        },
    );
    Ok(())
}

/// Notes a sync of a file that has changed since the last one.
pub fn settle(files: &Files, calls: &mut Vec<Call>, unsynced: &mut BTreeSet<FileId>, file: FileId)
    requires room { vec_len calls.old + btree_map_len files.now + btree_set_len unsynced.old ≤ vec_capacity calls.old }
    ensures room { vec_len calls.new + btree_map_len files.now + btree_set_len unsynced.new ≤ vec_capacity calls.new }
    ensures calls { (contains nat_cmp unsynced.old file ≡ true) → calls.new.items ≡ calls.old.items ++ Sync file ∷ [] }
    ensures same { (contains nat_cmp unsynced.old file ≡ false) → calls.new.items ≡ calls.old.items }
    ensures others { (f : ℕ) → f ≢ file → contains nat_cmp unsynced.new f ≡ contains nat_cmp unsynced.old f }
{
    if unsynced.remove(&file) {
        note(calls, Call::Sync { file });
    }
}

/// Takes the file away, and notes it.
pub fn take(files: &mut Files, calls: &mut Vec<Call>, unsynced: &mut BTreeSet<FileId>, file: FileId)
    requires room { vec_len calls.old + btree_map_len files.old + btree_set_len unsynced.old ≤ vec_capacity calls.old }
    requires there { IsThere (image_of files.old) file }
    ensures room { vec_len calls.new + btree_map_len files.new + btree_set_len unsynced.new ≤ vec_capacity calls.new }
    ensures calls { calls.new.items ≡ calls.old.items ++ Remove file ∷ [] }
    ensures files { (f : ℕ) → image_of files.new f ≡ set_file file None (image_of files.old) f }
    ensures others { (f : ℕ) → f ≢ file → contains nat_cmp unsynced.new f ≡ contains nat_cmp unsynced.old f }
{
    if let Some(_) = files.remove(&file) {
        unsynced.remove(&file);
        note(calls, Call::Remove { file });
    }
}

/// The numbers of the files, rising.
pub fn numbers(alloc: Global, files: &Files) -> Result<Vec<FileId>, AllocError>
    ensures keys { IfOk result (λ list. list.items ≡ keys files.now) }
    ensures rising { IfOk result (λ list. IsStrictlySortedBy nat_cmp list.items) }
    ensures each { (f : ℕ) → IfOk result (λ list. Contains list.items f ↔ IsThere (image_of files.now) f) }
{
    let mut list = Vec::new(alloc);
    for file in files.keys() {
        list.push(*file)?;
    }
    Ok(list)
}
