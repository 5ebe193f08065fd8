// Why a stable file can't be read.
ghost use Rattle.std.specs.Prelude.{◌≡◌};
ghost use Rattle.stable_file.specs.Faults.{read_error};

use pack_codec::FormError;

/// Why a stable file can't be read.
#[derive(Clone, Copy, Debug, PartialEq, Eq)]
pub enum ReadError {
    /// The device failed, and the count of the reader's faults rose.
    Device,
    /// What stands from this place of the file on isn't of the form.
    Damaged { at: u64 },
    /// Memory ran out.
    Memory,
}

impl From<FormError> for ReadError {
    ghost from_gives = { λ fault e. e ≡ read_error fault };

    fn from(fault: FormError) -> ReadError {
        match fault {
            FormError::Damaged { at } => ReadError::Damaged { at },
            FormError::Memory => ReadError::Memory,
        }
    }
}
