// Why the bytes of a region file are refused.
ghost use Rattle.std.specs.Prelude.{◌≡◌};
ghost use Rattle.region_file.specs.declared.fault.TableError.TheVariants as errors;

use std::alloc::AllocError;

/// Why bytes aren't read as a table of regions.
#[derive(Clone, Copy, Debug, PartialEq, Eq)]
pub enum TableError {
    /// What stands from this place of the file on isn't of the form.
    Damaged { at: u64 },
    Memory,
}

impl From<AllocError> for TableError {
    ghost from_gives = { λ _ e. e ≡ errors.Memory };

    fn from(_error: AllocError) -> TableError {
        TableError::Memory
    }
}
