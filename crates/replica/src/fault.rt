// Why a step wasn't done.
ghost use Rattle.std.specs.Prelude.{◌≡◌};
ghost use Rattle.replica.specs.Errors.{safe_error, step_error};
ghost use Rattle.replica.specs.declared.fault.SafeError.TheVariants as error;

use flash_types::{SegId, Ts};
use manifest::CommitError;
use std::alloc::AllocFailed;

/// Why the safe point wasn't raised.
#[derive(Clone, Copy, Debug, PartialEq, Eq)]
pub enum SafeError {
    /// It is higher already.
    Lower { current: Ts },
    /// The device failed, and the count of its faults rose.
    Device,
    /// Memory ran out.
    Memory,
}

impl From<CommitError> for SafeError {
    ghost from_gives = { λ fault e. e ≡ safe_error fault };

    fn from(fault: CommitError) -> SafeError {
        match fault {
            CommitError::Device => SafeError::Device,
            CommitError::Memory => SafeError::Memory,
        }
    }
}

impl<T: Drop> From<AllocFailed<T>> for SafeError {
    ghost from_gives = { λ _ e. e ≡ error.Memory };

    fn from(_error: AllocFailed<T>) -> SafeError {
        SafeError::Memory
    }
}

/// Why a step wasn't done.
#[derive(Clone, Copy, Debug, PartialEq, Eq)]
pub enum StepError {
    /// No segment has this number.
    NoSegment { seg: SegId },
    /// The device failed, and the count of its faults rose.
    Device,
    /// Memory ran out.
    Memory,
}

impl From<CommitError> for StepError {
    ghost from_gives = { λ fault e. e ≡ step_error fault };

    fn from(fault: CommitError) -> StepError {
        match fault {
            CommitError::Device => StepError::Device,
            CommitError::Memory => StepError::Memory,
        }
    }
}
