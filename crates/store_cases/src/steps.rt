// The steps of a script: `point TS` commits a safe point, `stage N TEXT` stages these bytes as the
// file with the number Next + N, `name N` commits that file as the region file and raises Next past
// it, and `clear` removes the first file that nothing needs.
ghost use Rattle.std.specs.Prelude.{◌≡◌, ◌≤◌, ◌<◌, ◌^◌, ◌-◌, true, IfOk, IfSome, Contains};
ghost use Rattle.manifest_form.specs.States.{all_done, is_formed};

use flash_io::{Disk, FileId};
use manifest::CommitError;
use manifest_form::Edit;
use replica_store::Store;
use std::alloc::Global;

/// Why a step isn't done.
#[derive(Clone, Copy, Debug, PartialEq, Eq)]
pub enum Undone {
    /// The disk failed.
    Device,
    /// Memory ran out.
    Memory,
    /// There is no such step, or it can't be done now.
    NoStep,
}

impl From<CommitError> for Undone {
    fn from(error: CommitError) -> Undone {
        match error {
            CommitError::Device => Undone::Device,
            CommitError::Memory => Undone::Memory,
        }
    }
}

/// Does the step that these words say.
pub fn do_step<D: Disk>(alloc: Global, store: &mut Store<D>, words: &[&str]) -> Result<(), Undone> {
    match *words {
        ["point", ts] => match ts.parse::<u64>() {
            Ok(ts) => point(store, ts),
            Err(_) => Err(Undone::NoStep),
        },
        ["stage", ahead, text] => stage(store, ahead, text.as_bytes()),
        ["name", ahead] => name(store, ahead),
        ["clear"] => clear(alloc, store),
        _ => Err(Undone::NoStep),
    }
}

// Commits, where the disk hasn't failed.
fn commit<D: Disk>(store: &mut Store<D>, edits: &[Edit]) -> Result<(), Undone>
    requires formed { is_formed store.old.manifest.file (all_done store.old.manifest.state edits.now) ≡ true }
{
    store.told();
    if store.wrecked().is_some() {
        return Err(Undone::Device);
    }
    store.commit(edits)?;
    Ok(())
}

/// Commits a safe point.
pub fn point<D: Disk>(store: &mut Store<D>, ts: u64) -> Result<(), Undone> {
    commit(store, &[Edit::SafePoint { ts }])
}

// The number that stands so many after Next, which leaves room for one more.
fn number(next: u32, ahead: &str) -> Result<u32, Undone>
    ensures { IfOk result (λ file. (next ≤ file) × (file < 2 ^ 32 - 1)) }
{
    let Ok(ahead) = ahead.parse::<u32>() else {
        return Err(Undone::NoStep);
    };
    match next.checked_add(ahead) {
        Some(file) if file < u32::MAX => Ok(file),
        _ => Err(Undone::NoStep),
    }
}

fn stage<D: Disk>(store: &mut Store<D>, ahead: &str, bytes: &[u8]) -> Result<(), Undone> {
    let file = number(store.next(), ahead)?;
    store.stage(file, bytes)?;
    Ok(())
}

fn name<D: Disk>(store: &mut Store<D>, ahead: &str) -> Result<(), Undone> {
    let file = number(store.next(), ahead)?;
    commit(
        store,
        &[Edit::Next { file: file + 1 }, Edit::Regions { file }],
    )
}

fn first_of(files: &[FileId]) -> Option<FileId>
    ensures { IfSome result (Contains files.now) }
{
    files.first().copied()
}

fn clear<D: Disk>(alloc: Global, store: &mut Store<D>) -> Result<(), Undone> {
    let strays = store.strays(alloc, &[])?;
    let Some(stray) = first_of(strays.as_slice()) else {
        return Err(Undone::NoStep);
    };
    match store.remove(stray) {
        Ok(()) => Ok(()),
        Err(_) => Err(Undone::Device),
    }
}
