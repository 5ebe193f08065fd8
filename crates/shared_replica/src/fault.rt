// Why a work isn't begun, and why a step isn't done.
ghost use Rattle.std.specs.Prelude.{◌≡◌};
ghost use Rattle.shared_replica.specs.Errors.{shared_error};

use flash_io::FileId;
use flash_types::SegId;
use replica::StepError;

/// Why no work was begun.
#[derive(Clone, Copy, Debug, PartialEq, Eq)]
pub enum WorkError {
    /// The disk has failed since the opening, and this is the count of its faults.
    Stopped { count: u64 },
    /// Memory ran out.
    Memory,
}

/// Why a step that writes wasn't done.
#[derive(Clone, Copy, Debug, PartialEq, Eq)]
pub enum SharedError {
    /// The disk has failed since the opening, and this is the count of its faults.
    Stopped { count: u64 },
    /// The store has no numbers left for a step, and this is its Next.
    NoRoom { next: FileId },
    /// No segment has this number.
    NoSegment { seg: SegId },
    /// The device failed, and the count of its faults rose.
    Device,
    /// Memory ran out.
    Memory,
}

// The same error.
pub(crate) fn shared_error(fault: StepError) -> SharedError
    ensures { result ≡ shared_error fault }
{
    match fault {
        StepError::NoSegment { seg } => SharedError::NoSegment { seg },
        StepError::Device => SharedError::Device,
        StepError::Memory => SharedError::Memory,
    }
}
