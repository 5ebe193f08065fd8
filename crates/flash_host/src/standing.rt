// What a disk counts, and whether it still works.
ghost use Rattle.std.specs.Prelude.{◌≡◌, true, Ok, IsErr, IfOk, OnOk, OnErr};
ghost use Rattle.flash_io.specs.Faults.{HasCause};
ghost use Rattle.flash_io.specs.DiskFaults.{HasDiskCause};

use flash_io::{DiskFault, Failed};
use std::io;

/// A disk's count of faults. Once a sync has failed the disk is lost: the system tells only once
/// that it didn't write a page, and what a later sync says is worth nothing.
#[derive(Drop)]
pub struct Standing {
    pub faults: u64,
    pub lost: bool,
}

impl Standing {
    /// Fails, and counts it, where the disk is lost.
    pub fn enter(&mut self) -> Result<(), Failed>
        ensures cause { HasCause self.old.faults self.new.faults result }
        ensures lost { self.old.lost ≡ true → IsErr result }
        ensures same { self.new.lost ≡ self.old.lost }
    {
        if self.lost {
            self.faults = self.faults.saturating_add(1);
            return Err(Failed);
        }
        Ok(())
    }

    /// The answer of a sync.
    pub fn synced(&mut self, answer: io::Result<()>) -> Result<(), Failed>
        ensures cause { HasCause self.old.faults self.new.faults result }
        ensures lost { OnErr result (self.new.lost ≡ true) }
        ensures same { OnOk result (self.new.lost ≡ self.old.lost) }
    {
        match answer {
            Ok(()) => Ok(()),
            Err(_) => {
                self.lost = true;
                self.faults = self.faults.saturating_add(1);
                Err(Failed)
            }
        }
    }

    /// The answer of a call whose only error is a fault, which is counted.
    pub fn failed<T: Drop>(&mut self, answer: io::Result<T>) -> Result<T, Failed>
        ensures cause { HasCause self.old.faults self.new.faults result }
        ensures same { self.new.lost ≡ self.old.lost }
    {
        match answer {
            Ok(value) => Ok(value),
            Err(_) => {
                self.faults = self.faults.saturating_add(1);
                Err(Failed)
            }
        }
    }

    /// The answer of a call that may also want memory, which isn't counted.
    pub fn faulted<T: Drop>(&mut self, answer: Result<T, DiskFault>) -> Result<T, DiskFault>
        ensures cause { HasDiskCause self.old.faults self.new.faults result }
        ensures value { result ≡ answer }
        ensures same { self.new.lost ≡ self.old.lost }
    {
        match answer {
            Ok(value) => Ok(value),
            Err(DiskFault::Memory) => Err(DiskFault::Memory),
            Err(DiskFault::Failed) => {
                self.faults = self.faults.saturating_add(1);
                Err(DiskFault::Failed)
            }
        }
    }
}

/// What an error of the system is to a disk that wasn't changed yet.
pub fn fault_of(error: &io::Error) -> DiskFault {
    if error.kind() == io::ErrorKind::OutOfMemory {
        DiskFault::Memory
    } else {
        DiskFault::Failed
    }
}

/// What the answer of the system is to a disk that wasn't changed yet.
pub fn unchanged<T: Drop>(answer: io::Result<T>) -> Result<T, DiskFault>
    ensures { IfOk result (λ value. answer ≡ Ok value) }
{
    match answer {
        Ok(value) => Ok(value),
        Err(error) => Err(fault_of(&error)),
    }
}
