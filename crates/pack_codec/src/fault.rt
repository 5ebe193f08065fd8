// Why bytes aren't of the form of a data file.
ghost use Rattle.std.specs.Prelude.{◌≡◌};
ghost use Rattle.pack_codec.specs.declared.fault.FormError.TheVariants as errors;

use column_block::Memory;
use std::alloc::AllocError;

/// Why bytes aren't of the form of a data file.
#[derive(Clone, Copy, Debug, PartialEq, Eq)]
pub enum FormError {
    /// What stands from this place of the file on isn't of the form.
    Damaged { at: u64 },
    Memory,
}

impl From<AllocError> for FormError {
    ghost from_gives = { λ _ e. e ≡ errors.Memory };

    fn from(_error: AllocError) -> FormError {
        FormError::Memory
    }
}

impl From<Memory> for FormError {
    ghost from_gives = { λ _ e. e ≡ errors.Memory };

    fn from(_error: Memory) -> FormError {
        FormError::Memory
    }
}
