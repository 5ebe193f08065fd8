// A replica with a bound, as a turn holds it.
ghost use Rattle.std.specs.Prelude.{◌≡◌, ◌≤◌, ◌<◌, ◌+◌, ◌^◌, OnOk, OnErr};
ghost use Rattle.raft_apply.specs.Entries.{IsParsed};
ghost use Rattle.shared_replica.specs.Replies.{IsApplyReply};
ghost use Rattle.shared_replica.specs.Turns.{TurnFollows};

use flash_io::{Disk, Reader};
use raft_apply::Parsed;
use region_table::ApplyError;
use replica::Replica;
use replica_state::Applied;
use turnstile::Held;

/// A replica, and the position below which entries may be applied.
pub struct Turned<D: Disk> {
    pub replica: Replica<D>,
    pub bound: u64,
    pub ghost kept: { replica.core.numbers.kept_from ≤ replica.core.numbers.generation },
}

impl<D: Disk> Held for Turned<D> {
    ghost use Rattle.shared_replica.specs.Turns.{TurnFollows};
    ghost use Rattle.shared_replica.specs.Following.{turn_itself, turn_on};

    ghost counted = { λ t. t.replica.core.count };

    ghost aged = { λ t. t.replica.core.numbers.generation };

    ghost kept_from = { λ t. t.replica.core.numbers.kept_from };

    ghost follows = { λ x y. TurnFollows D.Disk D.Reader.Grip.bytes x.bound x.replica y.bound y.replica };

    fn count(&self) -> u64 {
        let state = self.replica.state();
        state.told();
        state.count()
    }

    fn generation(&self) -> u64 {
        self.replica.state().generation()
    }

    ghost follows_itself = { λ x. turn_itself {d = record { tells = D.Disk.tells; files = D.Disk.files; may_leave = D.Disk.may_leave; moment = D.Disk.moment; left_since = D.Disk.left_since; fault_count = D.Disk.fault_count; never_fails = D.Disk.never_fails; reader_fault_count = D.Disk.reader_fault_count }} {bytes = D.Reader.Grip.bytes} D.Disk.only_now x.bound x.replica };

    ghost follows_on = { λ x y z a b. turn_on a b };

    ghost kept_below = { λ x. x.kept };
}

impl<D: Disk> Turned<D> {
    // That its generation can be pinned. It does nothing when it runs.
    pub(crate) fn can_be_pinned(&self)
        ensures { self.now.replica.core.numbers.generation < 2 ^ 63 }
    {
        let state = self.replica.state();
        state.told();
        let _next = state.next();
    }

    // Applies an entry below the bound.
    pub(crate) fn apply(&mut self, parsed: &Parsed) -> Result<Applied, ApplyError>
        requires parsed { IsParsed self.old.replica.core.log parsed.now }
        requires below { parsed.now.position < self.old.bound }
        ensures follows { TurnFollows D.Disk D.Reader.Grip.bytes self.new.bound self.new.replica self.old.bound self.old.replica }
        ensures kept { self.new.replica.core.numbers.kept_from ≡ self.old.replica.core.numbers.kept_from }
        ensures counted { OnOk result (self.new.replica.core.count ≡ self.old.replica.core.count + 1) }
        ensures uncounted { OnErr result (self.new.replica.core.count ≡ self.old.replica.core.count) }
        ensures is { IsApplyReply parsed.now self.new.replica.core result }
    {
        let applied = self.replica.apply(parsed)?;
        Ok(applied)
    }
}
