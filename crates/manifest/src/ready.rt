// The root before anything is committed.
ghost use Rattle.std.specs.Prelude.{◌≡◌, [], ◌∷◌, ℕ, List, true, false, None, IfOk, OnOk, IsErrOf};
ghost use Rattle.flash_io.specs.Image.{Image, Holds, SameBut, IsThere};
ghost use Rattle.flash_io.specs.Crash.{Durable, Torn, LeavesOnly};
ghost use Rattle.flash_io.specs.Faults.{Rose};
ghost use Rattle.manifest.specs.Gated.{IsSteady};
ghost use Rattle.manifest.specs.Gates.{GateIs};
ghost use Rattle.manifest.specs.Made.{LacksGate, MadeReady, IsUnmade};
ghost use Rattle.flash_io.specs.Runs.{Untouched, Counted};

use crate::durable::stage;
use crate::reading::lists;
use flash_io::{Disk, DiskFault, Failed, read_file};
use std::alloc::Global;

/// The first gate of a root.
#[derive(Clone, Copy)]
pub enum Gate {
    /// There is no byte, or the one byte 1.
    Missing,
    /// It isn't 1.
    Closed,
    /// It is 1, and more stands behind it.
    Open,
}

fn gate_of(root: &[u8]) -> Gate
    ensures { GateIs root.now result }
{
    match root {
        [] => Gate::Missing,
        [gate, rest @ ..] => {
            if *gate != 1 {
                Gate::Closed
            } else if rest.is_empty() {
                Gate::Missing
            } else {
                Gate::Open
            }
        }
    }
}

// Writes a closed gate at the front of a root without its first gate.
fn shut<D: Disk>(disk: &mut D) -> Result<(), DiskFault>
    requires short { D.tells → (root : List ℕ) × Holds (D.files disk.old) 0 root × LacksGate root }
    ensures durable { OnOk result (Durable 0 (0 ∷ []) (D.may_leave disk.new)) }
    ensures any_moment { LeavesOnly D.moment D.left_since disk.old disk.new (λ c. (d : Image) × D.may_leave disk.old d × Torn 0 0 1 d c) }
    ensures others { SameBut 0 (D.files disk.old) (D.files disk.new) }
    ensures counted { Counted D.fault_count D.reader_fault_count D.never_fails disk.old disk.new }
    ensures failed { IsErrOf result DiskFault.Failed → Rose (D.fault_count disk.old) (D.fault_count disk.new) }
{
    disk.write_at(0, 0, &[0])?;
    match disk.sync(0) {
        Ok(()) => Ok(()),
        Err(Failed) => Err(DiskFault::Failed),
    }
}

// Syncs a root that reads so.
fn settle<D: Disk>(disk: &mut D, root: &[u8]) -> Result<(), DiskFault>
    requires read { D.tells → Holds (D.files disk.old) 0 root.now }
    ensures durable { OnOk result (Durable 0 root.now (D.may_leave disk.new)) }
    ensures any_moment { LeavesOnly D.moment D.left_since disk.old disk.new (D.may_leave disk.old) }
    ensures others { D.files disk.new ≡ D.files disk.old }
    ensures counted { Counted D.fault_count D.reader_fault_count D.never_fails disk.old disk.new }
    ensures failed { IsErrOf result DiskFault.Failed → Rose (D.fault_count disk.old) (D.fault_count disk.new) }
{
    match disk.sync(0) {
        Ok(()) => Ok(()),
        Err(Failed) => Err(DiskFault::Failed),
    }
}

// Makes a root ready that is there. One that has a record, which only a disk that tells nothing
// may have, is left alone.
fn mend<D: Disk>(disk: &mut D, root: &[u8]) -> Result<(), DiskFault>
    requires read { D.tells → Holds (D.files disk.old) 0 root.now }
    ensures steady { OnOk result (IsSteady 0 [] (D.may_leave disk.new)) }
    ensures any_moment { LeavesOnly D.moment D.left_since disk.old disk.new (MadeReady (D.files disk.old) (D.may_leave disk.old)) }
    ensures unmade { IsUnmade (D.files disk.old) (D.may_leave disk.old) → IsUnmade (D.files disk.new) (D.may_leave disk.new) }
    ensures others { SameBut 0 (D.files disk.old) (D.files disk.new) }
    ensures counted { Counted D.fault_count D.reader_fault_count D.never_fails disk.old disk.new }
    ensures failed { IsErrOf result DiskFault.Failed → Rose (D.fault_count disk.old) (D.fault_count disk.new) }
{
    match gate_of(root) {
        Gate::Missing => shut(disk),
        Gate::Closed => settle(disk, root),
        Gate::Open => Err(DiskFault::Memory),
    }
}

fn ready_again<D: Disk>(alloc: Global, disk: &mut D) -> Result<(), DiskFault>
    requires there { D.tells → IsThere (D.files disk.old) 0 }
    ensures steady { OnOk result (IsSteady 0 [] (D.may_leave disk.new)) }
    ensures any_moment { LeavesOnly D.moment D.left_since disk.old disk.new (MadeReady (D.files disk.old) (D.may_leave disk.old)) }
    ensures unmade { IsUnmade (D.files disk.old) (D.may_leave disk.old) → IsUnmade (D.files disk.new) (D.may_leave disk.new) }
    ensures others { SameBut 0 (D.files disk.old) (D.files disk.new) }
    ensures counted { Counted D.fault_count D.reader_fault_count D.never_fails disk.old disk.new }
    ensures failed { IsErrOf result DiskFault.Failed → Rose (D.fault_count disk.old) (D.fault_count disk.new) }
{
    let root = read_file(alloc, disk, 0)?;
    mend(disk, root.as_slice())
}

fn has_root<D: Disk>(alloc: Global, disk: &mut D) -> Result<bool, DiskFault>
    ensures there { D.tells → IfOk result (λ has. has ≡ true → IsThere (D.files disk.old) 0) }
    ensures absent { D.tells → IfOk result (λ has. has ≡ false → D.files disk.old 0 ≡ None) }
    ensures untouched { Untouched D.files D.may_leave D.moment D.left_since disk.old disk.new }
    ensures counted { Counted D.fault_count D.reader_fault_count D.never_fails disk.old disk.new }
    ensures failed { IsErrOf result DiskFault.Failed → Rose (D.fault_count disk.old) (D.fault_count disk.new) }
{
    let list = disk.list(alloc)?;
    Ok(lists(list.as_slice(), 0))
}

/// Makes file 0 with a closed gate, or makes sure of one. After it the root is in each image.
pub fn ready<D: Disk>(alloc: Global, disk: &mut D) -> Result<(), DiskFault>
    ensures steady { OnOk result (IsSteady 0 [] (D.may_leave disk.new)) }
    ensures any_moment { LeavesOnly D.moment D.left_since disk.old disk.new (MadeReady (D.files disk.old) (D.may_leave disk.old)) }
    ensures unmade { IsUnmade (D.files disk.old) (D.may_leave disk.old) → IsUnmade (D.files disk.new) (D.may_leave disk.new) }
    ensures others { SameBut 0 (D.files disk.old) (D.files disk.new) }
    ensures counted { Counted D.fault_count D.reader_fault_count D.never_fails disk.old disk.new }
    ensures failed { IsErrOf result DiskFault.Failed → Rose (D.fault_count disk.old) (D.fault_count disk.new) }
{
    if has_root(alloc, disk)? {
        return ready_again(alloc, disk);
    }
    stage(disk, 0, &[0])
}
