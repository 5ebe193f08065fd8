// Why a step, or a case, can't go on.
use delta_layer::BuildError;
use stable_file::ReadError;
use std::alloc::{AllocError, AllocFailed};
use std::io;

/// Why a step can't go on.
#[derive(Clone, Copy, Debug)]
pub enum Trouble {
    /// A stable file wasn't read, for a cause other than memory. It is a step's answer.
    Read(ReadError),
    /// Nothing was built, for a cause other than memory. It is a step's answer.
    Build(BuildError),
    /// The words aren't those of a step.
    Word,
    /// Memory ran out.
    Memory,
    /// The cases weren't read, or nothing could be printed.
    Output,
}

impl From<io::Error> for Trouble {
    fn from(error: io::Error) -> Trouble {
        match error.kind() {
            io::ErrorKind::OutOfMemory => Trouble::Memory,
            _ => Trouble::Output,
        }
    }
}

impl From<AllocError> for Trouble {
    fn from(_error: AllocError) -> Trouble {
        Trouble::Memory
    }
}

impl<T: Drop> From<AllocFailed<T>> for Trouble {
    fn from(_error: AllocFailed<T>) -> Trouble {
        Trouble::Memory
    }
}

impl From<column_block::Memory> for Trouble {
    fn from(_error: column_block::Memory) -> Trouble {
        Trouble::Memory
    }
}

impl From<delta_index::Memory> for Trouble {
    fn from(_error: delta_index::Memory) -> Trouble {
        Trouble::Memory
    }
}

impl From<delta_layer::Memory> for Trouble {
    fn from(_error: delta_layer::Memory) -> Trouble {
        Trouble::Memory
    }
}

impl From<ReadError> for Trouble {
    fn from(error: ReadError) -> Trouble {
        match error {
            ReadError::Memory => Trouble::Memory,
            other => Trouble::Read(other),
        }
    }
}

impl From<BuildError> for Trouble {
    fn from(error: BuildError) -> Trouble {
        match error {
            BuildError::Memory => Trouble::Memory,
            other => Trouble::Build(other),
        }
    }
}
