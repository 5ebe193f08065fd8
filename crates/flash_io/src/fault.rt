// Why a disk's call didn't do its work.
ghost use Rattle.std.specs.Prelude.{◌≡◌};
ghost use Rattle.flash_io.specs.declared.fault.DiskFault.TheVariants as faults;

use crate::stream::Failed;
use std::alloc::{AllocError, AllocFailed};

/// Why a disk's call didn't do its work.
#[derive(Clone, Copy, Debug, PartialEq, Eq)]
pub enum DiskFault {
    /// The device failed, and the count of faults rose.
    Failed,
    /// There wasn't memory. The device and its count of faults are unchanged.
    Memory,
}

impl From<AllocError> for DiskFault {
    ghost from_gives = { λ _ e. e ≡ faults.Memory };

    fn from(_error: AllocError) -> DiskFault {
        DiskFault::Memory
    }
}

impl<T: Drop> From<AllocFailed<T>> for DiskFault {
    ghost from_gives = { λ _ e. e ≡ faults.Memory };

    fn from(_error: AllocFailed<T>) -> DiskFault {
        DiskFault::Memory
    }
}

impl From<Failed> for DiskFault {
    ghost from_gives = { λ _ e. e ≡ faults.Failed };

    fn from(_error: Failed) -> DiskFault {
        DiskFault::Failed
    }
}
