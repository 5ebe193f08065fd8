// The manifest of a store.
ghost use Rattle.std.specs.Prelude.{◌≡◌, ◌<◌, ◌+◌, ◌^◌, true};
ghost use Rattle.column_block.specs.Schemas.{IsSchema};
ghost use Rattle.manifest_form.specs.States.{is_formed};
ghost use Rattle.manifest_form.specs.Whole.{IdsDiffer, IdsDiffer-prop};

use flash_io::FileId;
use manifest_form::{Columns, State};
use std::alloc::Global;

/// A store's journal: what the store is of, and what it has named. Only `commit` and `roll` change
/// it, on the disk and here.
#[derive(Drop)]
pub struct Manifest {
    pub(crate) alloc: Global,
    pub(crate) file: FileId,
    pub(crate) at: u64,
    pub(crate) root_at: u64,
    pub(crate) table: i64,
    pub(crate) columns: Columns,
    pub(crate) state: State,
    pub(crate) steadied: bool,

    // The root is a file of its own.
    ghost apart: { 0 < file },

    // The segments hold every handle once, and all numbers, that of the file too, are below Next.
    ghost formed: { is_formed file state ≡ true },

    // The columns make a schema.
    ghost lawful: { IsSchema columns },

    // No two segments have the same id.
    ghost differ: { IdsDiffer state.segments } by { IdsDiffer-prop state.segments },

    // The root has a record.
    ghost named: { 0 < root_at },

    // The closed gate stands within a file.
    ghost within: { at + 1 < 2 ^ 64 },
}
