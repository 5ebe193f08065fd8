// Reads.
ghost use Rattle.std.specs.Prelude.{IfOk, IfErr};
ghost use Rattle.replica_state.specs.Asks.{IsReadCause, IsReadOf};
ghost use Rattle.replica_state.specs.Core.{full};
ghost use Rattle.segment_snapshot.specs.Rights.{IsRightScan};
ghost use Rattle.replica.specs.Learner.{Sound};

use crate::replica::Replica;
use flash_io::{Disk, Reader};
use flash_types::Ask;
use learner_read::Snapshot;
use replica_state::ReadRefusal;

impl<D: Disk> Replica<D> {
    /// What a read sees of the replica, which no later step changes. It calls no device. `Refused`
    /// exactly where and why the read is refused at this moment, `Memory` where it isn't and memory
    /// runs out. Where the replica is sound, a scan of the snapshot gives the rows that the log has
    /// for the read, as all that is applied now makes them.
    pub fn read(&self, ask: &Ask) -> Result<Snapshot<<D::Reader as Reader>::Grip>, ReadRefusal>
        ensures cause { IfErr result (IsReadCause self.now.core ask.now) }
        ensures snapshot { IfOk result (IsReadOf self.now.core ask.now) }
        ensures right { Sound D.Disk D.Reader.Grip.bytes self.now →
            IfOk result (IsRightScan D.Reader.Grip.bytes self.now.core.log (full self.now.core) ask.now) }
    {
        let state = self.state();
        state.told();
        state.read(ask)
    }
}
