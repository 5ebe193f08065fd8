// Installs of what was built: whether they are stale, their plans, and what they put into memory.
ghost use Rattle.std.specs.Prelude.{◌≡◌, ◌<◌, ◌≤◌, IfOk, length};
ghost use Rattle.segment_install.specs.Goodness.{slots_after};
ghost use Rattle.segment_install.specs.Plans.{CanInstall, CanPut, IsPlan};
ghost use Rattle.segment_install.specs.Stale.{first_fault};
ghost use Rattle.replica_state.specs.Changes.{with_install};
ghost use Rattle.replica_state.specs.Core.{AreSlots};
ghost use Rattle.replica_state.specs.Installs.{CanInstallOn};

use crate::Memory;
use crate::state::State;
use delta_layer::Built;
use flash_io::FileId;
use segment::Stale;
use segment_install::{Files, Install, plan, put, stale};

impl<G: Drop> State<G> {
    /// Why what was built can't be installed, where a segment of it is gone or at another epoch than
    /// it was built at: of a merge's two segments the left one is looked at first.
    pub fn stale(&self, built: &Built<G>) -> Option<Stale>
        ensures { result ≡ first_fault self.now.slots built.now.views }
    {
        stale(&self.segments, built)
    }

    /// Plans the install of what was built, with all memory that its putting needs. `files` are the
    /// open stable files of its pieces. Its numbers are those from Next on. `Memory` is want of
    /// memory, and comes too where a slot's rows can't be counted.
    pub fn plan_install(&self, built: &Built<G>, files: Files<G>) -> Result<Install<G>, Memory>
        requires { CanInstallOn built.now self.now }
        ensures can { CanInstall self.now.numbers.next built.now self.now.slots }
        ensures plan { IfOk result (λ install. IsPlan self.now.numbers.next files built.now self.now.slots install) }
    {
        self.told();
        match plan(&self.segments, built, files, self.numbers.next, self.alloc) {
            Ok(install) => Ok(install),
            Err(_) => Err(Memory),
        }
    }

    /// Puts a planned install, and this Next, High and generation. It takes no memory.
    pub fn put_install(&mut self, install: Install<G>, next: FileId, high: u64, generation: u64)
        requires can { CanPut install self.old.slots }
        requires slots { AreSlots self.old.log.schema next self.old.committed (length self.old.listed) (slots_after install self.old.slots) }
        requires no_lower { self.old.numbers.high ≤ high }
        requires in_log { high ≤ length self.old.log.entries }
        requires no_younger { self.old.numbers.generation ≤ generation }
        requires numbered { generation < next }
        ensures { self.new ≡ with_install install next high generation self.old }
    {
        put(&mut self.segments, install);
        self.numbers.next = next;
        self.numbers.high = high;
        self.numbers.generation = generation;
    }
}
