// The log of a file.
ghost use Rattle.std.specs.Prelude.{◌<◌, length, IfSome};
ghost use Rattle.committed_log.specs.Lawful.{IsWritable};

use column_block::{Column, Kind, Schema};
use committed_log::Logs;
use log_codec::{ColumnSpec, Frame, frames_have_one_spelling, read_frame, read_header};
use std::alloc::Global;
use std::rt::Files;
use std::{fs, io};

/// The log that a file has; none where it isn't lawful.
pub fn read_log<R: Files + AllocGlobal>(rt: &R, file: &str) -> io::Result<Option<Logs>> {
    let bytes = fs::read(rt, file)?;
    Ok(log_of(rt.alloc(), bytes.as_slice()))
}

fn kind_of(byte: u8) -> Kind {
    match byte {
        1 => Kind::Int,
        2 => Kind::Uint,
        _ => Kind::Bytes,
    }
}

fn schema_of(alloc: Global, specs: &[ColumnSpec]) -> Option<Schema> {
    let mut columns = Vec::new(alloc);
    for spec in specs {
        let column = Column {
            id: spec.id,
            kind: kind_of(spec.kind),
        };
        columns.push(column).ok()?;
    }
    Schema::new(columns).ok()
}

fn frame_at(alloc: Global, bytes: &[u8], at: usize) -> Option<Frame>
    requires { at < length bytes.now }
    ensures { IfSome result (λ frame. IsWritable frame.entry) }
{
    frames_have_one_spelling();
    match read_frame(alloc, bytes, at) {
        Ok(frame) => Some(frame),
        Err(_) => None,
    }
}

// Admits the entry of the frame at this place, and answers where the next one begins.
fn admit_at(alloc: Global, bytes: &[u8], at: usize, logs: &mut Logs) -> Option<usize>
    requires { at < length bytes.now }
{
    match frame_at(alloc, bytes, at) {
        Some(frame) => match logs.admit(frame.entry) {
            Ok(_) => Some(frame.end),
            Err(_) => None,
        },
        None => None,
    }
}

fn log_of(alloc: Global, bytes: &[u8]) -> Option<Logs> {
    let Ok((header, from)) = read_header(alloc, bytes) else {
        return None;
    };
    let schema = schema_of(alloc, header.columns.as_slice())?;
    let mut logs = Logs::empty(alloc, header.table, schema);
    let mut at = from;
    for _ in 0..bytes.len() {
        if at >= bytes.len() {
            return Some(logs);
        }
        at = admit_at(alloc, bytes, at, &mut logs)?;
    }
    Some(logs)
}
