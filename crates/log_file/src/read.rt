// Reading a log from a source.
ghost use Rattle.std.specs.Prelude.{IfOk, IfErr};
ghost use Rattle.log_file.specs.Passages.{source_passage};
ghost use Rattle.log_file.specs.Reads.{ReadsLog, IsErrorFrom};

use crate::log::{LogError, log_of};
use committed_log::Logs;
use flash_io::{IntoError, Source, read_to_limit};
use std::alloc::Global;

/// The most bytes that a log may have.
pub const MOST_LOG: u64 = 268_435_456;

/// Reads a source to its end, at most one byte above the limit, and then its bytes as a log. `Limit`
/// comes only where more bytes were read than a log may have, `Failed` only where the source's count
/// of faults rose; no more than the limit's bytes were read then. `Refused` says why a whole source
/// is no log.
pub fn read_log<S: Source>(alloc: Global, source: &mut S) -> Result<Logs, LogError>
    ensures read { IfOk result (ReadsLog (source_passage S.Source source.old source.new)) }
    ensures refused { IfErr result (IsErrorFrom (source_passage S.Source source.old source.new)) }
{
    let mut bytes = Vec::new(alloc);
    match read_to_limit(source, MOST_LOG, &mut bytes) {
        Ok(()) => log_of(alloc, &bytes),
        Err(IntoError::TooLong) => Err(LogError::Limit),
        Err(IntoError::Failed) => Err(LogError::Failed),
        Err(IntoError::Memory) => Err(LogError::Memory),
    }
}
