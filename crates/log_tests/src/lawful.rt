ghost use Rattle.std.specs.Prelude.{◌<◌, length};

use column_block::{Column, Kind, Schema};
use committed_log::{ChangeError, FamilyOp, begun, change_of, check_row, extended};
use flash_types::HandleRange;
use log_codec::{Body, Entry, FrameError, Op, read_frame};
use std::alloc::Global;
use std::test::*;

mod lines;
mod lookups;
mod ops;
mod refusals;

// A log with an Open and a Write of one row, as a file has it.
const LOG: [u8; 155] = [
    0x46, 0x4C, 0x41, 0x53, 0x48, 0x4C, 0x4F, 0x47, 0x00, 0x01, 0x00, 0x00, 0x00, 0x00, 0x00, 0x00,
    0x00, 0x01, 0x00, 0x02, 0x00, 0x00, 0x00, 0x01, 0x01, 0x00, 0x00, 0x00, 0x02, 0x03, 0x00, 0x00,
    0x00, 0x26, 0x00, 0x00, 0x00, 0x01, 0x00, 0x00, 0x00, 0x00, 0x00, 0x00, 0x00, 0x05, 0x01, 0x00,
    0x00, 0x00, 0x00, 0x00, 0x00, 0x00, 0x01, 0x00, 0x00, 0x00, 0x00, 0x00, 0x00, 0x00, 0x01, 0x80,
    0x00, 0x00, 0x00, 0x00, 0x00, 0x00, 0x00, 0x00, 0x00, 0x00, 0x00, 0x4F, 0x00, 0x00, 0x00, 0x01,
    0x00, 0x00, 0x00, 0x00, 0x00, 0x00, 0x00, 0x06, 0x02, 0x00, 0x00, 0x00, 0x01, 0x01, 0x03, 0x00,
    0x23, 0x74, 0x80, 0x00, 0x00, 0x00, 0x00, 0x00, 0x00, 0xFF, 0x01, 0x5F, 0x72, 0x80, 0x00, 0x00,
    0x00, 0x00, 0xFF, 0x00, 0x00, 0x05, 0x00, 0x00, 0x00, 0x00, 0x00, 0xFA, 0xFF, 0xFF, 0xFF, 0xFF,
    0xFF, 0xFF, 0xFF, 0xF5, 0x00, 0x00, 0x00, 0x13, 0x50, 0x07, 0x76, 0x0F, 0x80, 0x00, 0x02, 0x00,
    0x00, 0x00, 0x01, 0x02, 0x01, 0x00, 0x03, 0x00, 0x05, 0x61, 0x62,
];

// The digest of the log up to the frame at this place and with it, and the frame's end.
fn next(
    alloc: Global,
    digest: [u8; 32],
    log: &[u8],
    at: usize,
) -> Result<([u8; 32], usize), FrameError>
    requires { at < length log.now }
{
    let frame = read_frame(alloc, log, at)?;
    Ok((extended(digest, &frame.entry), frame.end))
}

fn schema(alloc: Global) -> Result<Schema, Fail> {
    let columns = vec![in alloc;
        Column {
            id: 1,
            kind: Kind::Int,
        },
        Column {
            id: 2,
            kind: Kind::Bytes,
        },
    ]?;
    let schema = Schema::new(columns).ok().ok_or("a schema")?;
    Ok(schema)
}

// The digests are those of Python's hashlib.
const HEADER: [u8; 32] = [
    0x01, 0x0C, 0x15, 0x71, 0xC0, 0x44, 0x2A, 0xA9, 0xEB, 0x90, 0xAE, 0x50, 0x3E, 0x4F, 0x33, 0x90,
    0x00, 0x2B, 0x91, 0xD0, 0x02, 0xF4, 0x78, 0x82, 0x0A, 0xA9, 0x98, 0x23, 0x61, 0x1B, 0x9A, 0x44,
];

const FIRST: [u8; 32] = [
    0x06, 0x11, 0x76, 0xA2, 0x70, 0x73, 0x30, 0xA8, 0xCE, 0x6C, 0xC3, 0xC8, 0x6C, 0xE3, 0xA5, 0x17,
    0x8B, 0xF1, 0x53, 0x1B, 0x94, 0x9E, 0x86, 0xD8, 0x34, 0xD3, 0xF7, 0x7E, 0x3A, 0xB9, 0x0A, 0x26,
];

const SECOND: [u8; 32] = [
    0xE1, 0x8E, 0xC7, 0x28, 0x73, 0x23, 0x42, 0x10, 0xC2, 0x02, 0xEB, 0x6A, 0x1C, 0xF0, 0x5F, 0x73,
    0xEC, 0x7E, 0x08, 0x85, 0x2A, 0x4D, 0x11, 0xCA, 0xE3, 0x88, 0x9D, 0x65, 0x18, 0x13, 0xDF, 0x7B,
];

fn begins_with(alloc: Global, header: [u8; 32]) -> Result<(), Fail> {
    let digest = begun(1, &schema(alloc)?);
    if digest == header {
        return Ok(());
    }
    Err(Fail::from(digest))
}

// The frame at this place extends the one digest to the other, and ends there.
fn extends(
    alloc: Global,
    digest: [u8; 32],
    at: usize,
    wanted: ([u8; 32], usize),
) -> Result<(), Fail> {
    if at >= LOG.len() {
        return Err(Fail::from("no place of the log"));
    }
    let found = next(alloc, digest, &LOG, at)?;
    if found == wanted {
        return Ok(());
    }
    Err(Fail::from(found))
}

#[test]
fn each_entry_extends_the_digest(rt: HostRuntime) -> Result<(), Fail> {
    begins_with(rt.alloc(), HEADER)?;
    extends(rt.alloc(), HEADER, 30, (FIRST, 72))?;
    extends(rt.alloc(), FIRST, 72, (SECOND, 155))
}

fn second_entry(alloc: Global) -> Result<Entry, Fail> {
    match read_frame(alloc, &LOG, 72) {
        Ok(frame) => Ok(frame.entry),
        Err(error) => Err(Fail::from(error)),
    }
}

fn is_the_put(alloc: Global, op: &Op) -> Result<(), Fail> {
    let all = HandleRange {
        low: i64::MIN,
        high: None,
    };
    match change_of(1, all, op) {
        Ok(
            Some(
                FamilyOp::Write {
                    handle: 5,
                    ts: 10,
                    start: 7,
                    gone: false,
                    short: Some(bytes),
                },
            ),
        ) => is_the_row(alloc, bytes.as_slice()),
        _ => Err(Fail::from("no put")),
    }
}

fn is_the_row(alloc: Global, bytes: &[u8]) -> Result<(), Fail> {
    let schema = schema(alloc)?;
    if bytes == &LOG[140..155] && check_row(bytes, &schema) == Ok(()) {
        return Ok(());
    }
    Err(Fail::from("another row"))
}

fn is_outside(op: &Op) -> Result<(), Fail> {
    let range = HandleRange { low: 6, high: None };
    if change_of(1, range, op).err() == Some(ChangeError::BadKey) {
        return Ok(());
    }
    Err(Fail::from("inside"))
}

// The put of a row's short value, and the row.
#[test]
fn the_put_of_a_row_is_told(rt: HostRuntime) -> Result<(), Fail> {
    let entry = second_entry(rt.alloc())?;
    let Body::Write { ops } = entry.body else {
        return Err(Fail::from("no Write"));
    };
    if ops.len() != 1 {
        return Err(Fail::from("no single op"));
    }
    is_the_put(rt.alloc(), ops.at(0))?;
    is_outside(ops.at(0))
}
