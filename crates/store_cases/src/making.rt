// Stores that are made.
ghost use Rattle.std.specs.Prelude.{IfOk};
ghost use Rattle.manifest.specs.Stores.{IsNew};

use column_block::{Column, Kind, Schema};
use flash_io::Disk;
use flash_mem::MemDisk;
use manifest::create;
use replica_store::Store;
use std::alloc::{AllocError, Global};

/// The columns of the stores that are made.
pub fn schema(alloc: Global) -> Result<Schema, AllocError> {
    let column = Column {
        id: 1,
        kind: Kind::Int,
    };
    let columns = Vec::from_slice(alloc, &[column])?;
    match Schema::new(columns) {
        Ok(schema) => Ok(schema),
        Err(_) => Err(AllocError),
    }
}

/// A disk without files, of which this call fails.
pub fn failing_at(alloc: Global, call: u64) -> Result<MemDisk, AllocError>
    ensures { IfOk result (λ disk. IsNew (⟦<MemDisk as Disk>⟧.files disk)) }
{
    let failing = Vec::from_slice(alloc, &[call])?;
    let mut disk = MemDisk::new(alloc);
    disk.set_failing(failing);
    Ok(disk)
}

/// A new store on this disk, or the disk where making it failed.
pub fn make<D: Disk>(alloc: Global, mut disk: D) -> Result<Store<D>, D>
    requires new { D.tells → IsNew (D.files disk) }
{
    let Ok(schema) = schema(alloc) else {
        return Err(disk);
    };
    match create(alloc, &mut disk, 9, &schema, [3; 32]) {
        Ok(manifest) => Ok(Store::made(disk, manifest)),
        Err(_) => Err(disk),
    }
}
