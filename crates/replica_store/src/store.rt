// A disk with the manifest of its store.
ghost use Rattle.std.specs.Prelude.{◌≡◌, true, IsNone, IfSome};
ghost use Rattle.flash_io.specs.Faults.{Rose};
ghost use Rattle.manifest.specs.Stores.{IsKept};
ghost use Rattle.replica_store.specs.Store.{IsStore, IsWhole};

use flash_io::Disk;
use manifest::Manifest;
use std::marker::Model;

/// The greatest Next with which there is room for the files and segments that a step may number.
pub const MOST_NEXT: u32 = 2_147_483_000;

/// A disk with the manifest of its store, and the count of the disk's faults when it was opened. A
/// store whose disk has failed since is wrecked, and isn't written again.
#[derive(Drop)]
pub struct Store<D: Disk> {
    pub(crate) disk: D,
    pub(crate) manifest: Manifest,
    pub(crate) opened_faults: u64,
}

impl<D: Disk> Model for Store<D> {
    ghost use Rattle.replica_store.specs.Store.{Stored, IsStore};

    // A manifest has no code of itself, so its row is named.
    ghost use Rattle.manifest.specs.contracts.store.Manifest as journal;
    ghost use Rattle.std.specs.Coded.{codes};

    ghost Value = { Stored D };

    ghost coded = { Prim.hlevel (codes, journal.the_row.coded) };

    ghost view = { λ s. record { disk = s.disk; manifest = s.manifest; opened_faults = s.opened_faults } };

    ghost invariant = { λ s. IsStore D.Disk (record { disk = s.disk; manifest = s.manifest; opened_faults = s.opened_faults }) };
}

impl<D: Disk> Store<D> {
    /// The store of this disk and its manifest, which is steadied. The disk's count of faults is
    /// kept: the store is wrecked once it rises.
    pub fn made(disk: D, manifest: Manifest) -> Store<D>
        requires steadied { manifest.steadied ≡ true }
        requires kept { IsKept (D.may_leave disk) manifest }
        ensures { result ≡ record { disk = disk; manifest = manifest; opened_faults = D.fault_count disk } }
    {
        let opened_faults = disk.faults();
        Store {
            disk,
            manifest,
            opened_faults,
        }
    }

    /// The count of the disk's faults, where the disk has failed since it was opened. What readers
    /// met doesn't count: they read what is gripped, and nothing is written after what they read.
    pub fn wrecked(&self) -> Option<u64>
        ensures whole { IsNone result → IsWhole D.Disk self.now }
        ensures count { IfSome result (λ n. n ≡ D.fault_count self.now.disk) }
        ensures rose { IfSome result (Rose self.now.opened_faults) }
    {
        let faults = self.disk.faults();
        if faults > self.opened_faults {
            return Some(faults);
        }
        if faults == u64::MAX {
            return Some(faults);
        }
        None
    }

    /// Tells that the manifest is steadied and that each image has what it has, while the disk is
    /// whole. It does nothing.
    pub fn told(&self)
        ensures { IsStore D.Disk self.now }
    {
        let _ = &self.opened_faults;
    }

    /// The disk.
    pub fn disk(&self) -> &D
        ensures { result.now ≡ self.now.disk }
    {
        &self.disk
    }

    /// The disk, which outlives the store.
    pub fn into_disk(self) -> D
        ensures { result ≡ self.disk }
    {
        let Store { disk, .. } = self;
        disk
    }
}
