// A replica of one table.
ghost use Rattle.std.specs.Prelude.{◌≡◌, [], OnOk, OnErr, IfOk, IfErr, IsErrOf, IsNone, IfSome};
ghost use Rattle.flash_io.specs.Faults.{Rose};
ghost use Rattle.replica_state.specs.Changes.{with_safe_point};
ghost use Rattle.manifest.specs.Stores.{has_of};
ghost use Rattle.raft_apply.specs.Entries.{IsParsed};
ghost use Rattle.region_table.specs.Applying.{IsCause};
ghost use Rattle.replica_state.specs.Applying.{HasApplied, IsOf};
ghost use Rattle.replica_store.specs.Store.{Counted, HasFailed, IsWhole};
ghost use Rattle.replica.specs.Errors.{IfLower};
ghost use Rattle.replica.specs.Follows.{Follows};
ghost use Rattle.replica.specs.Learner.{IsLearner, SameState};
ghost use Rattle.replica.specs.Names.{Names};

use crate::fault::SafeError;
use crate::retired::Retired;
use flash_io::{Disk, Reader};
use flash_types::Ts;
use manifest_form::Edit;
use raft_apply::Parsed;
use region_table::ApplyError;
use replica_state::{Applied, State};
use replica_store::Store;
use std::alloc::Global;
use std::marker::Model;

/// A replica of one table: what it has in memory, the store that it commits to, and the files that
/// went out of use and still stand on the disk.
#[derive(Drop)]
pub struct Replica<D: Disk> {
    pub(crate) store: Store<D>,
    pub(crate) state: State<<D::Reader as Reader>::Grip>,
    pub(crate) retired: Vec<Retired>,
}

impl<D: Disk> Model for Replica<D> {
    ghost use Rattle.replica.specs.Learner.{Learner, IsLearner};

    // A manifest has no code of itself, so its row is named.
    ghost use Rattle.manifest.specs.contracts.store.Manifest as journal;
    ghost use Rattle.std.specs.Coded.{codes};

    ghost Value = { Learner D D.Reader.Grip };

    ghost coded = { Prim.hlevel (codes, journal.the_row.coded) };

    ghost view = { λ r. record { store = r.store; core = r.state; retired = r.retired.items } };

    ghost invariant = { λ r. IsLearner (record { store = r.store; core = r.state; retired = r.retired.items }) };
}

impl<D: Disk> Replica<D> {
    /// The replica of this store and what is in memory, which the store's manifest names. No file
    /// went out of use. It takes no memory.
    pub fn made(
        store: Store<D>,
        state: State<<D::Reader as Reader>::Grip>,
        alloc: Global,
    ) -> Replica<D>
        requires { Names (has_of store.manifest) state }
        ensures { result ≡ record { store = store; core = state; retired = [] } }
    {
        Replica {
            store,
            state,
            retired: Vec::new(alloc),
        }
    }

    /// Tells that the manifest names what is in memory. It does nothing.
    pub fn told(&self)
        ensures { IsLearner self.now }
    {
        let _ = &self.retired;
    }

    /// What is in memory.
    pub fn state(&self) -> &State<<D::Reader as Reader>::Grip>
        ensures { result.now ≡ self.now.core }
    {
        &self.state
    }

    /// The count of the disk's faults, where the disk has failed since the opening.
    pub fn wrecked(&self) -> Option<u64>
        ensures whole { IsNone result → IsWhole D.Disk self.now.store }
        ensures count { IfSome result (λ n. n ≡ D.fault_count self.now.store.disk) }
        ensures rose { IfSome result (Rose self.now.store.opened_faults) }
    {
        self.store.wrecked()
    }

    /// Applies an entry of the log. It calls no device. `Done` exactly where the entry is applied,
    /// `Early` exactly where something that it waits for isn't; `Memory` where it could be applied and
    /// memory runs out. After an error the replica is as before.
    pub fn apply(&mut self, parsed: &Parsed) -> Result<Applied, ApplyError>
        requires parsed { IsParsed self.old.core.log parsed.now }
        ensures follows { Follows D.Disk D.Reader.Grip.bytes self.new self.old }
        ensures applied { IfOk result (IsOf parsed.now) }
        ensures state { OnOk result (HasApplied self.old.core parsed.now.position self.new.core) }
        ensures cause { IfErr result (IsCause self.old.core.log self.old.core.table parsed.now.position) }
        ensures refused { OnErr result (self.new ≡ self.old) }
        ensures store { self.new.store ≡ self.old.store }
    {
        self.state.told();
        let applied = self.state.apply(parsed)?;
        Ok(applied)
    }

    /// Raises the safe point, on the disk and here. `Lower` exactly where it is higher already. After
    /// an error it is as it was here; after `Device` the disk may have either.
    pub fn set_safe_point(&mut self, ts: Ts, alloc: Global) -> Result<(), SafeError>
        requires whole { IsWhole D.Disk self.old.store }
        ensures follows { Follows D.Disk D.Reader.Grip.bytes self.new self.old }
        ensures done { OnOk result (self.new.core ≡ with_safe_point ts self.old.core) }
        ensures lower { IfLower ts self.old.core.numbers.safe_point result }
        ensures refused { OnErr result (SameState self.new self.old) }
        ensures counted { Counted D.Disk self.old.store self.new.store }
        ensures device { IsErrOf result SafeError.Device → HasFailed D.Disk self.old.store self.new.store }
    {
        let current = self.state.safe_point();
        if ts < current {
            return Err(SafeError::Lower { current });
        }
        self.state.told();
        self.store.told();
        let mut edits = Vec::new(alloc);
        edits.push(Edit::SafePoint { ts })?;
        self.store.commit(edits.as_slice())?;
        self.state.set_safe_point(ts);
        Ok(())
    }
}
