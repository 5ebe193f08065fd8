// The calls of background workers.
ghost use Rattle.std.specs.Prelude.{◌≡◌, None, Some};
ghost use Rattle.turnstile.specs.Seats.{pinning_at};
ghost use Rattle.turn_hold.specs.Saw.{IsSameSeat, Saw};
ghost use Rattle.shared_replica.specs.Replies.{IsDueReply, IsWorkReply, work_pin};

use crate::fault::WorkError;
use crate::shared::{ReplicaSeat, Shared};
use crate::turned::Turned;
use delta_layer::Job;
use flash_io::{Disk, Reader};
use replica_state::Task;
use segment_due::Due;
use std::sync::Wait;
use turn_hold::{give_same, pin_same};
use turnstile::Held;

impl<D: Disk> Shared<D> {
    /// The first work that is due on the replica that was held; none where none is, and where its disk
    /// has failed since the opening.
    pub fn due<R: Wait>(&self, rt: &R, seat: &mut ReplicaSeat<D>) -> Option<Due>
        requires mine { seat.old.place ≡ self.now.turn.place }
        requires idle { seat.old.held ≡ None }
        ensures seat { IsSameSeat seat.new seat.old }
        ensures pin { seat.new.pin ≡ seat.old.pin }
        ensures own { seat.new.own ≡ seat.old.own }
        ensures saw { Saw ⟦<Turned<D> as Held>⟧.counted ⟦<Turned<D> as Held>⟧.kept_from ⟦<Turned<D> as Held>⟧.follows self.now.turn.start seat.new seat.old
            (λ x. IsDueReply D.Disk x.replica result) }
    {
        let turned = self.turn.take(rt, seat);
        match turned.replica.wrecked() {
            Some(_count) => {
                give_same(&self.turn, seat, turned);
                None
            }
            None => {
                let due = turned.replica.state().due();
                give_same(&self.turn, seat, turned);
                due
            }
        }
    }

    /// Begins a job on the replica that was held; none exactly where it can't be begun there.
    /// `Stopped` exactly where that replica's disk has failed since the opening, with the count of its
    /// faults; `Memory` is want of memory. A work that is begun pins the generation of the replica's
    /// files, so that they stay until it is dropped or installed.
    pub fn work<R: Wait>(
        &self,
        rt: &R,
        seat: &mut ReplicaSeat<D>,
        job: Job,
    ) -> Result<Option<Task<<D::Reader as Reader>::Grip>>, WorkError>
        requires mine { seat.old.place ≡ self.now.turn.place }
        requires idle { (seat.old.held ≡ None) × (seat.old.pin ≡ None) }
        ensures seat { IsSameSeat seat.new seat.old }
        ensures pin { seat.new.pin ≡ work_pin result }
        ensures own { seat.new.own ≡ seat.old.own }
        ensures saw { Saw ⟦<Turned<D> as Held>⟧.counted ⟦<Turned<D> as Held>⟧.kept_from ⟦<Turned<D> as Held>⟧.follows self.now.turn.start seat.new seat.old
            (λ x. IsWorkReply D.Disk job x.replica result) }
    {
        let turned = self.turn.take(rt, seat);
        if let Some(count) = turned.replica.wrecked() {
            give_same(&self.turn, seat, turned);
            return Err(WorkError::Stopped { count });
        }
        turned.can_be_pinned();
        match turned.replica.state().begin_work(job) {
            Ok(Some(task)) => {
                pin_same(&self.turn, seat, turned);
                Ok(Some(task))
            }
            Ok(None) => {
                give_same(&self.turn, seat, turned);
                Ok(None)
            }
            Err(_) => {
                give_same(&self.turn, seat, turned);
                Err(WorkError::Memory)
            }
        }
    }

    /// Unpins what the seat's work pinned, which isn't installed. It takes no turn.
    pub fn drop_work(&self, seat: &mut ReplicaSeat<D>, task: Task<<D::Reader as Reader>::Grip>)
        requires mine { seat.old.place ≡ self.now.turn.place }
        requires pinned { seat.old.pin ≡ Some task.state.numbers.generation }
        ensures { seat.new ≡ pinning_at seat.old None }
    {
        self.turn.unpin(seat);
    }
}
