// Why the bytes of a file are refused.
ghost use Rattle.std.specs.Prelude.{◌≡◌};
ghost use Rattle.manifest_form.specs.declared.fault.Fault.TheVariants as faults;

use std::alloc::AllocError;

/// What is wrong with the bytes of one file.
#[derive(Clone, Copy, Debug, PartialEq, Eq)]
pub enum Fault {
    /// What stands from this place on isn't of the form.
    At { at: u64 },
    /// A version of the form that isn't known.
    Version { found: u16 },
    Memory,
}

impl From<AllocError> for Fault {
    ghost from_gives = { λ _ e. e ≡ faults.Memory };

    fn from(_error: AllocError) -> Fault {
        Fault::Memory
    }
}
