// The steps that write.
ghost use Rattle.std.specs.Prelude.{◌≡◌, None};
ghost use Rattle.turn_hold.specs.Saw.{IsSameSeat, Saw};
ghost use Rattle.shared_replica.specs.Steps.{IsFlushReply, WasHeld};
ghost use Rattle.shared_replica.specs.Turns.{TurnFollows};

use crate::fault::{SharedError, shared_error};
use crate::shared::{ReplicaSeat, Shared};
use crate::turned::Turned;
use flash_io::{Disk, Reader};
use flash_types::SegId;
use replica_store::MOST_NEXT;
use std::alloc::Global;
use std::sync::Wait;
use turnstile::Held;

impl<D: Disk> Turned<D> {
    // The store's Next.
    fn next(&self) -> u32
        ensures { result ≡ self.now.replica.store.manifest.state.next }
    {
        self.replica.told();
        self.replica.state().next()
    }

    // Flushes a segment, where the disk is whole and there is room.
    fn flush(&mut self, seg: SegId, alloc: Global) -> Result<u64, SharedError>
        ensures follows { TurnFollows D.Disk D.Reader.Grip.bytes self.new.bound self.new.replica self.old.bound self.old.replica }
        ensures kept { self.new.replica.core.numbers.kept_from ≡ self.old.replica.core.numbers.kept_from }
        ensures counted { self.new.replica.core.count ≡ self.old.replica.core.count }
        ensures is { IsFlushReply D.Disk seg self.old.replica self.new.replica result }
    {
        if let Some(count) = self.replica.wrecked() {
            return Err(SharedError::Stopped { count });
        }
        let next = self.next();
        if MOST_NEXT < next {
            return Err(SharedError::NoRoom { next });
        }
        match self.replica.flush(seg, alloc) {
            Ok(versions) => Ok(versions),
            Err(fault) => Err(shared_error(fault)),
        }
    }
}

impl<D: Disk> Shared<D> {
    /// Writes a segment's versions in memory to tiny files and names all of its delta, in one commit,
    /// and answers how many versions. `Stopped` exactly where the disk of the replica that was held has
    /// failed since the opening, with the count of its faults; then `NoRoom` exactly where its store has
    /// no room, with its Next; then `NoSegment` with this number exactly where no segment of it has that
    /// number. After an error what is in memory is as before; after `Device` the disk may have either
    /// state.
    pub fn flush<R: Wait>(
        &self,
        rt: &R,
        seat: &mut ReplicaSeat<D>,
        seg: SegId,
        alloc: Global,
    ) -> Result<u64, SharedError>
        requires mine { seat.old.place ≡ self.now.turn.place }
        requires idle { seat.old.held ≡ None }
        ensures seat { IsSameSeat seat.new seat.old }
        ensures pin { seat.new.pin ≡ seat.old.pin }
        ensures own { seat.new.own ≡ seat.old.own }
        ensures saw { Saw ⟦<Turned<D> as Held>⟧.counted ⟦<Turned<D> as Held>⟧.kept_from ⟦<Turned<D> as Held>⟧.follows self.now.turn.start seat.new seat.old
            (λ x. WasHeld ⟦<Turned<D> as Held>⟧.follows self.now.turn.start seat.old.seen x (λ held. IsFlushReply D.Disk seg held.replica x.replica result)) }
    {
        let mut turned = self.turn.take(rt, seat);
        let flushed = turned.flush(seg, alloc);
        self.turn.give(seat, turned);
        flushed
    }
}
