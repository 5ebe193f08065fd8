// The calls of appliers and scanners.
ghost use Rattle.std.specs.Prelude.{◌≡◌, ◌≤◌, ◌<◌, ◌+◌, ◌∷◌, [], None, Some, All, IfOk, IfErr, IfSome, IfNone};
ghost use Rattle.raft_apply.specs.Entries.{IsParsed};
ghost use Rattle.region_table.specs.Applying.{next_ready};
ghost use Rattle.replica.specs.Follows.{Follows};
ghost use Rattle.replica_state.specs.Core.{full};
ghost use Rattle.turnstile.specs.Numbers.{total, bit};
ghost use Rattle.turnstile.specs.Seats.{counting, joining, parted, parting, pinning_at};
ghost use Rattle.turn_hold.specs.Saw.{IsSameSeat, Saw};
ghost use Rattle.shared_replica.specs.Replies.{IsApplyReply, IsReadReply, applied_by, read_pin};
ghost use Rattle.shared_replica.specs.Turns.{TurnFollows};

use crate::turned::Turned;
use flash_io::{Disk, Reader};
use flash_types::Ask;
use learner_read::Snapshot;
use raft_apply::Parsed;
use region_table::ApplyError;
use replica::Replica;
use replica_state::{Applied, ReadRefusal};
use std::alloc::Global;
use std::sync::Wait;
use turn_hold::{give_same, pin_same};
use turnstile::{Held, Seat, Turn};

/// The right to take the turn of a shared replica, and what its owner has seen of it.
pub type ReplicaSeat<D> = Seat<Turned<D>>;

/// A replica that several threads share, one step at a time.
pub struct Shared<D: Disk> {
    pub(crate) turn: Turn<Turned<D>>,
}

impl<D: Disk> Shared<D> {
    /// Shares a replica among 1 to 16 seats, and makes the first, which has all numbers. Entries at
    /// the bound or above it aren't applied through this turn. Hands the replica back for want of
    /// memory.
    pub fn new(
        alloc: Global,
        replica: Replica<D>,
        bound: u64,
        seats: u32,
    ) -> Result<(Shared<D>, ReplicaSeat<D>), Replica<D>>
        requires { (0 < seats) × (seats ≤ 16) }
        ensures start { IfOk result (λ t. (t.0.turn.start.replica ≡ replica) × (t.0.turn.start.bound ≡ bound) × (t.0.turn.seats ≡ seats)) }
        ensures seat { IfOk result (λ t. (t.1.place ≡ t.0.turn.place) × (t.1.held ≡ None) × (t.1.pin ≡ None) × (t.1.parts ≡ seats) × (t.1.own ≡ 0) × (t.1.seen ≡ t.0.turn.start ∷ [])) }
        ensures err { IfErr result (λ r. r ≡ replica) }
    {
        replica.state().told();
        match Turn::new(alloc, Turned { replica, bound }, seats) {
            Ok((turn, seat)) => Ok((Shared { turn }, seat)),
            Err(turned) => {
                let Turned { replica, bound: _ } = turned;
                Err(replica)
            }
        }
    }

    /// The least position below `below` whose entry can be applied and is of a region whose number
    /// modulo `parts` is `part`; where there is none, the least position below `below` whose entry can
    /// be applied. None exactly where every entry below `below` is applied.
    pub fn next<R: Wait>(
        &self,
        rt: &R,
        seat: &mut ReplicaSeat<D>,
        part: u32,
        parts: u32,
        below: u64,
    ) -> Option<u64>
        requires mine { seat.old.place ≡ self.now.turn.place }
        requires idle { seat.old.held ≡ None }
        requires parts { 1 ≤ parts }
        requires below { below ≤ self.now.turn.start.bound }
        ensures seat { IsSameSeat seat.new seat.old }
        ensures pin { seat.new.pin ≡ seat.old.pin }
        ensures own { seat.new.own ≡ seat.old.own }
        ensures saw { Saw ⟦<Turned<D> as Held>⟧.counted ⟦<Turned<D> as Held>⟧.kept_from ⟦<Turned<D> as Held>⟧.follows self.now.turn.start seat.new seat.old
            (λ x. result ≡ next_ready x.replica.core.log (full x.replica.core) part parts below) }
    {
        let turned = self.turn.take(rt, seat);
        let found = turned.replica.state().next_ready(part, parts, below);
        give_same(&self.turn, seat, turned);
        found
    }

    /// Applies an entry of the log below the bound. `Done` exactly where the entry was applied
    /// already, `Early` exactly where something that it waits for wasn't, both in the replica that was
    /// held; `Memory` where it could be applied there and memory ran out. The seat's own count rises by
    /// one where the answer is Ok.
    pub fn apply_one<R: Wait>(
        &self,
        rt: &R,
        seat: &mut ReplicaSeat<D>,
        parsed: &Parsed,
    ) -> Result<Applied, ApplyError>
        requires mine { seat.old.place ≡ self.now.turn.place }
        requires idle { seat.old.held ≡ None }
        requires parsed { IsParsed self.now.turn.start.replica.core.log parsed.now }
        requires below { parsed.now.position < self.now.turn.start.bound }
        ensures seat { IsSameSeat seat.new seat.old }
        ensures pin { seat.new.pin ≡ seat.old.pin }
        ensures own { seat.new.own ≡ seat.old.own + applied_by result }
        ensures saw { Saw ⟦<Turned<D> as Held>⟧.counted ⟦<Turned<D> as Held>⟧.kept_from ⟦<Turned<D> as Held>⟧.follows self.now.turn.start seat.new seat.old
            (λ x. IsApplyReply parsed.now x.replica.core result) }
    {
        let mut turned = self.turn.take(rt, seat);
        let applied = turned.apply(parsed);
        self.turn.give(seat, turned);
        applied
    }

    /// What a read sees of the replica that was held. `Refused` exactly where and why the read is
    /// refused there, `Memory` where it isn't and memory ran out. An Ok pins the generation of the
    /// replica's files, so that they stay until the snapshot is released.
    pub fn pinned_read<R: Wait>(
        &self,
        rt: &R,
        seat: &mut ReplicaSeat<D>,
        ask: &Ask,
    ) -> Result<Snapshot<<D::Reader as Reader>::Grip>, ReadRefusal>
        requires mine { seat.old.place ≡ self.now.turn.place }
        requires idle { (seat.old.held ≡ None) × (seat.old.pin ≡ None) }
        ensures seat { IsSameSeat seat.new seat.old }
        ensures pin { seat.new.pin ≡ read_pin result }
        ensures own { seat.new.own ≡ seat.old.own }
        ensures saw { Saw ⟦<Turned<D> as Held>⟧.counted ⟦<Turned<D> as Held>⟧.kept_from ⟦<Turned<D> as Held>⟧.follows self.now.turn.start seat.new seat.old
            (λ x. IsReadReply D.Disk D.Reader.Grip.bytes ask.now x.replica result) }
    {
        let turned = self.turn.take(rt, seat);
        turned.can_be_pinned();
        match turned.replica.read(ask) {
            Ok(snapshot) => {
                pin_same(&self.turn, seat, turned);
                Ok(snapshot)
            }
            Err(why) => {
                give_same(&self.turn, seat, turned);
                Err(why)
            }
        }
    }

    /// Unpins what the seat's read pinned. It takes no turn.
    pub fn release(
        &self,
        seat: &mut ReplicaSeat<D>,
        snapshot: Snapshot<<D::Reader as Reader>::Grip>,
    )
        requires mine { seat.old.place ≡ self.now.turn.place }
        requires pinned { seat.old.pin ≡ Some snapshot.generation }
        ensures { seat.new ≡ pinning_at seat.old None }
    {
        self.turn.unpin(seat);
    }

    /// A new seat, which gets the least spare number and has seen the same. `None` where the seat has
    /// no spare number.
    pub fn split(&self, seat: &mut ReplicaSeat<D>) -> Option<ReplicaSeat<D>>
        requires mine { seat.old.place ≡ self.now.turn.place }
        ensures parts { seat.old.parts ≡ 1 + total bit seat.old.spare }
        ensures none { IfNone result ((seat.old.parts ≡ 1) × (seat.new ≡ seat.old)) }
        ensures some { IfSome result (λ s. (1 < seat.old.parts) × (seat.new ≡ parting seat.old) × (s ≡ parted seat.old)) }
    {
        self.turn.split(seat)
    }

    /// Joins the other seat, which neither holds the turn nor pins anything, to the first: it has then
    /// seen what both had seen, and the own counts are added.
    pub fn join(&self, seat: &mut ReplicaSeat<D>, other: ReplicaSeat<D>)
        requires mine { (seat.old.place ≡ self.now.turn.place) × (other.place ≡ self.now.turn.place) }
        requires idle { (other.held ≡ None) × (other.pin ≡ None) }
        ensures { seat.new ≡ joining seat.old other }
    {
        self.turn.join(seat, other);
    }

    /// How many entries are applied, which may have risen since. It takes no turn. No replica that the
    /// seat has seen had more.
    pub fn progress(&self, seat: &mut ReplicaSeat<D>) -> u64
        requires mine { seat.old.place ≡ self.now.turn.place }
        ensures count { seat.old.greatest ≤ result }
        ensures seen { All (λ x. x.replica.core.count ≤ result) seat.old.seen }
        ensures seat { seat.new ≡ counting seat.old result }
    {
        self.turn.progress(seat)
    }

    /// Ends the sharing, once every other seat was joined, and gives the replica back: it followed from
    /// the one that was shared and from all that the seat has seen, only entries below the bound were
    /// applied since, and as many as the seat's own count says.
    pub fn finish(self, seat: ReplicaSeat<D>) -> Replica<D>
        requires mine { seat.place ≡ self.turn.place }
        requires idle { (seat.held ≡ None) × (seat.pin ≡ None) }
        requires alone { seat.parts ≡ self.turn.seats }
        ensures from_start { TurnFollows D.Disk D.Reader.Grip.bytes self.turn.start.bound result self.turn.start.bound self.turn.start.replica }
        ensures seen { All (λ y. TurnFollows D.Disk D.Reader.Grip.bytes self.turn.start.bound result y.bound y.replica) seat.seen }
        ensures count { result.core.count ≡ self.turn.start.replica.core.count + seat.own }
    {
        let Shared { turn } = self;
        let Turned { replica, bound: _ } = turn.close(seat);
        replica
    }
}
