// Why a store is refused.
ghost use Rattle.std.specs.Prelude.{◌≡◌};
ghost use Rattle.manifest.specs.Gated.{commit_error, open_error};
ghost use Rattle.manifest.specs.declared.fault.CommitError.TheVariants as errors;
ghost use Rattle.manifest.specs.declared.fault.ManifestError.TheVariants as refusals;

use flash_io::{DiskFault, FileId};
use std::alloc::{AllocError, AllocFailed};

/// Why a store can't be opened.
#[derive(Clone, Copy, Debug, PartialEq, Eq)]
pub enum ManifestError {
    /// Files are there, but no root.
    NotAStore,
    /// The manifest has another version of the form.
    Version { found: u16 },
    /// From this place on the file isn't of the form, or at 0 it isn't there.
    Damaged { file: FileId, at: u64 },
    /// The device failed, and the count of its faults rose.
    Device,
    /// Memory ran out.
    Memory,
}

/// Why nothing, or not yet everything, was committed.
#[derive(Clone, Copy, Debug, PartialEq, Eq)]
pub enum CommitError {
    /// The device failed, and the count of its faults rose.
    Device,
    /// Memory ran out.
    Memory,
}

impl From<AllocError> for CommitError {
    ghost from_gives = { λ _ e. e ≡ errors.Memory };

    fn from(_error: AllocError) -> CommitError {
        CommitError::Memory
    }
}

impl<T: Drop> From<AllocFailed<T>> for CommitError {
    ghost from_gives = { λ _ e. e ≡ errors.Memory };

    fn from(_error: AllocFailed<T>) -> CommitError {
        CommitError::Memory
    }
}

impl From<DiskFault> for CommitError {
    ghost from_gives = { λ fault e. e ≡ commit_error fault };

    fn from(fault: DiskFault) -> CommitError {
        match fault {
            DiskFault::Failed => CommitError::Device,
            DiskFault::Memory => CommitError::Memory,
        }
    }
}

impl From<AllocError> for ManifestError {
    ghost from_gives = { λ _ e. e ≡ refusals.Memory };

    fn from(_error: AllocError) -> ManifestError {
        ManifestError::Memory
    }
}

impl From<DiskFault> for ManifestError {
    ghost from_gives = { λ fault e. e ≡ open_error fault };

    fn from(fault: DiskFault) -> ManifestError {
        match fault {
            DiskFault::Failed => ManifestError::Device,
            DiskFault::Memory => ManifestError::Memory,
        }
    }
}
