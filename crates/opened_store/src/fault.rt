// Why a disk isn't opened.
ghost use Rattle.std.specs.Prelude.{◌≡◌};
ghost use Rattle.opened_store.specs.Errors.{of_commit, of_disk, of_manifest, of_segments};
ghost use Rattle.opened_store.specs.declared.fault.OpenCause.TheVariants as causes;

use flash_io::{DiskFault, Failed, FileId};
use manifest::{CommitError, ManifestError};
use opened_segments::OpenFault;

/// Why a disk isn't opened for a log.
#[derive(Clone, Copy, Debug, PartialEq, Eq)]
pub enum OpenCause {
    /// Files are there, but no root.
    NotAStore,
    /// The manifest has another version of the form.
    Version { found: u16 },
    /// The store is of another log: of another table or other columns, or the log has fewer entries
    /// than the store may have rows of, or others. `entries` is how many these are.
    OtherLog { entries: u64 },
    /// From this place on the file isn't of the form, or at 0 it isn't there, or is a region file of
    /// regions that no entries of the log leave.
    Damaged { file: FileId, at: u64 },
    /// The device failed, and the count of its faults rose.
    Device,
    /// Memory ran out.
    Memory,
}

impl From<ManifestError> for OpenCause {
    ghost from_gives = { λ fault e. e ≡ of_manifest fault };

    fn from(fault: ManifestError) -> OpenCause {
        match fault {
            ManifestError::NotAStore => OpenCause::NotAStore,
            ManifestError::Version { found } => OpenCause::Version { found },
            ManifestError::Damaged { file, at } => OpenCause::Damaged { file, at },
            ManifestError::Device => OpenCause::Device,
            ManifestError::Memory => OpenCause::Memory,
        }
    }
}

impl From<CommitError> for OpenCause {
    ghost from_gives = { λ fault e. e ≡ of_commit fault };

    fn from(fault: CommitError) -> OpenCause {
        match fault {
            CommitError::Device => OpenCause::Device,
            CommitError::Memory => OpenCause::Memory,
        }
    }
}

impl From<OpenFault> for OpenCause {
    ghost from_gives = { λ fault e. e ≡ of_segments fault };

    fn from(fault: OpenFault) -> OpenCause {
        match fault {
            OpenFault::Damaged { file, at } => OpenCause::Damaged { file, at },
            OpenFault::Device => OpenCause::Device,
            OpenFault::Memory => OpenCause::Memory,
        }
    }
}

impl From<DiskFault> for OpenCause {
    ghost from_gives = { λ fault e. e ≡ of_disk fault };

    fn from(fault: DiskFault) -> OpenCause {
        match fault {
            DiskFault::Failed => OpenCause::Device,
            DiskFault::Memory => OpenCause::Memory,
        }
    }
}

impl From<Failed> for OpenCause {
    ghost from_gives = { λ _ e. e ≡ causes.Device };

    fn from(_fault: Failed) -> OpenCause {
        OpenCause::Device
    }
}
