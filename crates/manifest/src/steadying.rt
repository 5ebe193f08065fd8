// Making sure of what was opened.
ghost use Rattle.std.specs.Prelude.{◌≡◌, true, OnOk, OnErr};
ghost use Rattle.flash_io.specs.Image.{IsThere};
ghost use Rattle.flash_io.specs.Crash.{LeavesOnly, NoNew, SyncedTo};
ghost use Rattle.flash_io.specs.Faults.{Rose};
ghost use Rattle.flash_io.specs.Runs.{Counted};
ghost use Rattle.manifest.specs.Stores.{IsRead, IsKept};

use crate::store::Manifest;
use flash_io::{Disk, Failed, FileId};

// Syncs two files.
fn sync_both<D: Disk>(disk: &mut D, one: FileId, two: FileId) -> Result<(), Failed>
    requires one { D.tells → IsThere (D.files disk.old) one }
    requires two { D.tells → IsThere (D.files disk.old) two }
    ensures one { OnOk result (SyncedTo one (D.files disk.old) (D.may_leave disk.new)) }
    ensures two { OnOk result (SyncedTo two (D.files disk.old) (D.may_leave disk.new)) }
    ensures files { D.files disk.new ≡ D.files disk.old }
    ensures none_new { NoNew (D.may_leave disk.old) (D.may_leave disk.new) }
    ensures any_moment { LeavesOnly D.moment D.left_since disk.old disk.new (D.may_leave disk.old) }
    ensures counted { Counted D.fault_count D.reader_fault_count D.never_fails disk.old disk.new }
    ensures device { OnErr result (Rose (D.fault_count disk.old) (D.fault_count disk.new)) }
{
    disk.sync(one)?;
    disk.sync(two)
}

impl Manifest {
    /// Syncs the root and the manifest's file, after which every image of the disk has this
    /// manifest's state. Without it a gate that was read as open could still be lost.
    pub fn steady<D: Disk>(&mut self, disk: &mut D) -> Result<(), Failed>
        requires read { IsRead D.tells (D.files disk.old) self.old }
        ensures kept { OnOk result (IsKept (D.may_leave disk.new) self.new) }
        ensures done { OnOk result (self.new ≡ record self.old { steadied = true }) }
        ensures refused { OnErr result (self.new ≡ self.old) }
        ensures files { D.files disk.new ≡ D.files disk.old }
        ensures none_new { NoNew (D.may_leave disk.old) (D.may_leave disk.new) }
        ensures any_moment { LeavesOnly D.moment D.left_since disk.old disk.new (D.may_leave disk.old) }
        ensures counted { Counted D.fault_count D.reader_fault_count D.never_fails disk.old disk.new }
        ensures device { OnErr result (Rose (D.fault_count disk.old) (D.fault_count disk.new)) }
    {
        sync_both(disk, 0, self.file)?;
        self.steadied = true;
        Ok(())
    }
}
