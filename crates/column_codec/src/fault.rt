ghost use Rattle.std.specs.Prelude.{◌≡◌};
ghost use Rattle.column_codec.specs.declared.fault.CodecError.TheVariants.{Memory};

use std::alloc::AllocError;

/// Why bytes are no list of so many values, and where. Places are counted from 0.
#[derive(Clone, Copy, Debug, PartialEq, Eq)]
pub enum CodecError {
    /// The bytes end inside a part: their number.
    Short { at: u64 },
    /// This byte isn't allowed here; or it is the mode, at 0, and the other one was due.
    BadByte { at: u64 },
    /// The first byte behind the list.
    Long { at: u64 },
    Memory,
}

impl From<AllocError> for CodecError {
    ghost from_gives = { λ _ e. e ≡ Memory };

    fn from(_error: AllocError) -> CodecError {
        CodecError::Memory
    }
}
