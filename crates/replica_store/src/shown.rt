// What a store shows.
ghost use Rattle.std.specs.Prelude.{◌≡◌, ◌+◌, nat_le};
ghost use Rattle.replica_store.specs.Store.{most_next};

use crate::store::{MOST_NEXT, Store};
use column_block::Column;
use flash_io::{Disk, FileId};
use manifest_form::State;

impl<D: Disk> Store<D> {
    /// What the store has named.
    pub fn state(&self) -> &State
        ensures { result.now ≡ self.now.manifest.state }
    {
        self.manifest.state()
    }

    /// The table whose rows the store has.
    pub fn table(&self) -> i64
        ensures { result ≡ self.now.manifest.table }
    {
        self.manifest.table()
    }

    /// The columns that the store's files have.
    pub fn columns(&self) -> &[Column]
        ensures { result.now ≡ self.now.manifest.columns }
    {
        self.manifest.columns()
    }

    /// The number of the manifest's file.
    pub fn file(&self) -> FileId
        ensures { result ≡ self.now.manifest.file }
    {
        self.manifest.file()
    }

    /// The size in bytes of the manifest's file, up to its closed gate and with it.
    pub fn len(&self) -> u64
        ensures { result ≡ self.now.manifest.at + 1 }
    {
        self.manifest.len()
    }

    /// The committed Next: files and new segments are numbered from it on.
    pub fn next(&self) -> FileId
        ensures { result ≡ self.now.manifest.state.next }
    {
        self.manifest.state().next
    }

    /// Whether there are numbers left for a step: Next is at most `MOST_NEXT`.
    pub fn has_room(&self) -> bool
        ensures { result ≡ nat_le self.now.manifest.state.next most_next }
    {
        self.manifest.state().next <= MOST_NEXT
    }
}
