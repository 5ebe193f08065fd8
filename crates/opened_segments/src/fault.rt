// Why the segments of a store aren't opened.
ghost use Rattle.std.specs.Prelude.{◌≡◌};
ghost use Rattle.opened_segments.specs.Errors.{open_fault};
ghost use Rattle.opened_segments.specs.declared.fault.OpenFault.TheVariants as faults;

use flash_io::{DiskFault, Failed, FileId};
use std::alloc::{AllocError, AllocFailed};

/// Why the segments of a store aren't opened.
#[derive(Clone, Copy, Debug, PartialEq, Eq)]
pub enum OpenFault {
    /// From this place on the file isn't of the form, or at 0 it isn't there.
    Damaged { file: FileId, at: u64 },
    /// The device failed, and the count of its faults rose.
    Device,
    /// Memory ran out.
    Memory,
}

impl From<AllocError> for OpenFault {
    ghost from_gives = { λ _ e. e ≡ faults.Memory };

    fn from(_error: AllocError) -> OpenFault {
        OpenFault::Memory
    }
}

impl<T: Drop> From<AllocFailed<T>> for OpenFault {
    ghost from_gives = { λ _ e. e ≡ faults.Memory };

    fn from(_error: AllocFailed<T>) -> OpenFault {
        OpenFault::Memory
    }
}

impl From<Failed> for OpenFault {
    ghost from_gives = { λ _ e. e ≡ faults.Device };

    fn from(_error: Failed) -> OpenFault {
        OpenFault::Device
    }
}

impl From<DiskFault> for OpenFault {
    ghost from_gives = { λ fault e. e ≡ open_fault fault };

    fn from(fault: DiskFault) -> OpenFault {
        match fault {
            DiskFault::Failed => OpenFault::Device,
            DiskFault::Memory => OpenFault::Memory,
        }
    }
}
