// What a manifest shows.
ghost use Rattle.std.specs.Prelude.{◌≡◌, ◌+◌};

use crate::store::Manifest;
use column_block::Column;
use flash_io::FileId;
use manifest_form::State;

impl Manifest {
    /// The number of the manifest's file.
    pub fn file(&self) -> FileId
        ensures { result ≡ self.now.file }
    {
        self.file
    }

    /// The size in bytes of the manifest's file, up to the closed gate behind its records and with
    /// it. What a crash may have left behind that gate doesn't count: the next commit writes over
    /// it.
    pub fn len(&self) -> u64
        ensures { result ≡ self.now.at + 1 }
    {
        self.at + 1
    }

    /// What the store has named.
    pub fn state(&self) -> &State
        ensures { result.now ≡ self.now.state }
    {
        &self.state
    }

    /// The table whose rows the store has.
    pub fn table(&self) -> i64
        ensures { result ≡ self.now.table }
    {
        self.table
    }

    /// The columns that the store's files have.
    pub fn columns(&self) -> &[Column]
        ensures { result.now ≡ self.now.columns }
    {
        self.columns.as_slice()
    }

    /// Whether every image of the disk has this manifest's state. A manifest from `open` is not
    /// steadied until `steady`; only then may files that it doesn't name be removed.
    pub fn steadied(&self) -> bool
        ensures { result ≡ self.now.steadied }
    {
        self.steadied
    }
}
