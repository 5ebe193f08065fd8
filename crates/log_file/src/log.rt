// Reading a log file into a lawful log.
ghost use Rattle.std.specs.Prelude.{◌≡◌, ◌+◌, ◌≤◌, ◌<◌, suc, length, IfOk, IfErr, Some};
ghost use Rattle.log_file.specs.Logs.{IsReadTo, IsLogFile, IsErrorOf, from_frame, from_entry};

use crate::cause::{Cause, Refusal};
use crate::value::schema_of;
use committed_log::{Logs, Unlawful};
use log_codec::{
    FrameError, frames_have_one_spelling, headers_have_one_spelling, read_frame, read_header,
};
use std::alloc::Global;

/// Why there is no log.
#[derive(Clone, Copy, Debug, PartialEq, Eq)]
pub enum LogError {
    /// More than 268,435,456 bytes were read.
    Limit,
    /// The header is refused, or a frame.
    Refused(Refusal),
    /// A read failed.
    Failed,
    /// Memory ran out.
    Memory,
}

/// The log that these bytes are the file of: its entries are admitted one after the other. Refused
/// is the header, or the first frame that can't be read or whose entry can't follow those before it.
pub fn log_of(alloc: Global, bytes: &[u8]) -> Result<Logs, LogError>
    ensures read { IfOk result (λ logs. IsLogFile bytes.now logs) }
    ensures refused { IfErr result (IsErrorOf bytes.now) }
{
    headers_have_one_spelling();
    let (header, from) = match read_header(alloc, bytes) {
        Ok(read) => read,
        Err(error) => return Err(frame_error(0, error)),
    };
    let Some(schema) = schema_of(alloc, header.columns.as_slice()) else {
        return Err(LogError::Memory);
    };
    let logs = Logs::empty(alloc, header.table, schema);
    logs.told_lawful();
    read_frames(alloc, bytes, from, logs)
}

fn read_frames(alloc: Global, bytes: &[u8], from: usize, logs: Logs) -> Result<Logs, LogError>
    requires within { from ≤ length bytes.now }
    requires begun { IsReadTo bytes.now logs from }
    requires none { length logs.entries ≡ 0 }
    ensures read { IfOk result (λ logs. IsLogFile bytes.now logs) }
    ensures refused { IfErr result (IsErrorOf bytes.now) }
{
    let mut logs = logs;
    let mut at = from;
    let mut number = 1;
    while at < bytes.len() {
        at = match read_next(alloc, bytes, at, number, &mut logs) {
            Ok(end) => end,
            Err(error) => return Err(error),
        };
        number += 1;
    }
    Ok(logs)
}

// Reads the frame at this place, the one of this number, and admits its entry.
fn read_next(
    alloc: Global,
    bytes: &[u8],
    at: usize,
    number: u64,
    logs: &mut Logs,
) -> Result<usize, LogError>
    requires before { IsReadTo bytes.now logs.old at }
    requires within { at < length bytes.now }
    requires number { number ≡ suc (length logs.old.entries) }
    ensures read { IfOk result (λ end. IsReadTo bytes.now logs.new end) }
    ensures one_more { IfOk result (λ end. length logs.new.entries ≡ suc (length logs.old.entries)) }
    ensures goes_on { IfOk result (λ end. (at < end) × (end ≤ length bytes.now)) }
    ensures refused { IfErr result (IsErrorOf bytes.now) }
{
    frames_have_one_spelling();
    let frame = match read_frame(alloc, bytes, at) {
        Ok(frame) => frame,
        Err(error) => return Err(frame_error(number, error)),
    };
    match logs.admit(frame.entry) {
        Ok(_) => {
            logs.told_lawful();
            Ok(frame.end)
        }
        Err(error) => Err(entry_error(number, error)),
    }
}

fn frame_error(frame: u64, error: FrameError) -> LogError
    ensures { result ≡ from_frame frame error }
{
    match error {
        FrameError::Memory => LogError::Memory,
        _ => LogError::Refused(Refusal {
            frame,
            cause: Cause::OfFrame(error),
        }),
    }
}

fn entry_error(frame: u64, error: Unlawful) -> LogError
    ensures { result ≡ from_entry frame error }
{
    match error {
        Unlawful::Memory => LogError::Memory,
        _ => LogError::Refused(Refusal {
            frame,
            cause: Cause::OfEntry(error),
        }),
    }
}
