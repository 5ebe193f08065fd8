// Reading to the end, up to a limit.
ghost use Rattle.std.specs.Prelude.{◌≡◌, ◌≤◌, ◌<◌, ◌++◌, length, OnOk, OnErr, IsErrOf};
ghost use Rattle.flash_io.specs.Faults.{Rose};
ghost use Rattle.flash_io.specs.IntoFaults.{HasIntoCause};
ghost use Rattle.flash_io.specs.Streams.{ReadsAll, ReadsPast, ReadsWithin};
ghost use Rattle.flash_io.specs.declared.read.IntoError.TheVariants as errors;

use crate::stream::{Failed, Source};
use std::alloc::AllocError;

/// Why a source wasn't read to its end.
#[derive(Clone, Copy, Debug, PartialEq, Eq)]
pub enum IntoError {
    /// The source has more bytes than the limit.
    TooLong,
    /// A read failed.
    Failed,
    /// There wasn't memory for the bytes.
    Memory,
}

impl From<Failed> for IntoError {
    ghost from_gives = { λ _ e. e ≡ errors.Failed };

    fn from(_failed: Failed) -> IntoError {
        IntoError::Failed
    }
}

impl From<AllocError> for IntoError {
    ghost from_gives = { λ _ e. e ≡ errors.Memory };

    fn from(_error: AllocError) -> IntoError {
        IntoError::Memory
    }
}

/// Reads a source to its end, and appends what it gave. `TooLong` exactly where more bytes than
/// the limit were read; they are let go before memory is taken for them. An error leaves `into` as
/// it was.
pub fn read_to_limit<S: Source>(
    source: &mut S,
    limit: u64,
    into: &mut Vec<u8>,
) -> Result<(), IntoError>
    ensures all { OnOk result (ReadsAll limit (S.left source.old) (S.left source.new) into.old.items into.new.items) }
    ensures too_long { IsErrOf result IntoError.TooLong → ReadsPast limit (S.left source.old) (S.left source.new) }
    ensures failed { IsErrOf result IntoError.Failed → Rose (S.fault_count source.old) (S.fault_count source.new) × ReadsWithin limit (S.left source.old) (S.left source.new) }
    ensures memory { IsErrOf result IntoError.Memory → ReadsWithin limit (S.left source.old) (S.left source.new) }
    ensures kept { OnErr result (into.new.items ≡ into.old.items) }
    ensures cause { HasIntoCause (S.fault_count source.old) (S.fault_count source.new) result }
{
    let start = into.len();
    let mut piece = vec![in *into.allocator(); 0u8; PIECE]?;
    match fill(source, limit, &mut piece, into) {
        Ok(()) => Ok(()),
        Err(error) => {
            into.truncate(start);
            Err(error)
        }
    }
}

// The bytes that are asked for at a time.
const PIECE: usize = 65536;

// Appends what is left, by way of a piece of memory. An error leaves some bytes more.
fn fill<S: Source>(
    source: &mut S,
    limit: u64,
    piece: &mut Vec<u8>,
    into: &mut Vec<u8>,
) -> Result<(), IntoError>
    requires room { 0 < length piece.old.items }
    ensures all { OnOk result (ReadsAll limit (S.left source.old) (S.left source.new) into.old.items into.new.items) }
    ensures too_long { IsErrOf result IntoError.TooLong → ReadsPast limit (S.left source.old) (S.left source.new) }
    ensures failed { IsErrOf result IntoError.Failed → Rose (S.fault_count source.old) (S.fault_count source.new) × ReadsWithin limit (S.left source.old) (S.left source.new) }
    ensures memory { IsErrOf result IntoError.Memory → ReadsWithin limit (S.left source.old) (S.left source.new) }
    ensures front { (bytes : _) × (into.new.items ≡ into.old.items ++ bytes) }
    ensures cause { HasIntoCause (S.fault_count source.old) (S.fault_count source.new) result }
{
    let mut taken = 0u64;
    loop {
        let count = source.read(piece)?;
        if count == 0 {
            return Ok(());
        }
        if count as u64 > limit - taken {
            return Err(IntoError::TooLong);
        }
        into.extend_from_slice(&piece[..count])?;
        taken += count as u64;
    }
}
