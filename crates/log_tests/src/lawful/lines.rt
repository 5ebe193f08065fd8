// Entries as lines of tables, which become entries by way of their frames.
ghost use Rattle.std.specs.Prelude.{◌<◌, length, IfOk};
ghost use Rattle.committed_log.specs.Lawful.{IsWritable};

use super::ops::{Record, bytes_of};
use super::*;
use committed_log::{Logs, Unlawful};
use kv_codec::{encode_key, put_ts};
use log_codec::{Entry, frames_have_one_spelling};
use std::alloc::AllocError;

// A record of the write family, for a row of table 1: its handle, its timestamp and the record.
#[derive(Clone, Copy)]
pub enum Change {
    Put(i64, u64, Record),
}

#[derive(Clone, Copy)]
pub enum Act {
    Open(i64, Option<i64>),
    Write(&'static [Change]),
    Split(i64, u32),
    Prepare(u32),
    Commit(u32),
    Remove,
    Install(i64, Option<i64>, &'static [Change]),
    Empty,
}

// An entry's region, its index and what it does.
#[derive(Clone, Copy)]
pub struct Line(pub u32, pub u64, pub Act);

fn add(bytes: &[u8], into: &mut Vec<u8>) -> Result<(), AllocError> {
    into.extend_from_slice(bytes)
}

fn add_handle(handle: i64, into: &mut Vec<u8>) -> Result<(), AllocError> {
    add(&handle.to_be_bytes(), into)
}

// The epoch (1, 1), and a range.
fn add_range(low: i64, high: Option<i64>, into: &mut Vec<u8>) -> Result<(), AllocError> {
    add(&1_u64.to_be_bytes(), into)?;
    add(&1_u64.to_be_bytes(), into)?;
    add_handle(low, into)?;
    match high {
        None => add(&[0], into),
        Some(high) => {
            add(&[1], into)?;
            add_handle(high, into)
        }
    }
}

// The key of a row of table 1 with a timestamp.
fn key_of(alloc: Global, handle: i64, ts: u64) -> Result<Vec<u8>, AllocError> {
    let mut bytes = Vec::new(alloc);
    encode_key(1, handle, &mut bytes)?;
    put_ts(ts, &mut bytes)?;
    Ok(bytes)
}

// A put in the write family.
fn add_key(key: Vec<u8>, into: &mut Vec<u8>) -> Result<(), Fail> {
    add(&[1, 3], into)?;
    let len = u16::try_from(key.len()).ok().ok_or("a short key")?;
    add(&len.to_be_bytes(), into)?;
    add(&key, into)?;
    Ok(())
}

fn add_value(value: &[u8], into: &mut Vec<u8>) -> Result<(), Fail> {
    let len = u32::try_from(value.len()).ok().ok_or("a short value")?;
    add(&len.to_be_bytes(), into)?;
    add(value, into)?;
    Ok(())
}

fn add_change(alloc: Global, change: Change, into: &mut Vec<u8>) -> Result<(), Fail> {
    match change {
        Change::Put(handle, ts, record) => {
            add_key(key_of(alloc, handle, ts)?, into)?;
            add_value(bytes_of(record), into)
        }
    }
}

fn add_changes(alloc: Global, changes: &[Change], into: &mut Vec<u8>) -> Result<(), Fail> {
    let len = u32::try_from(changes.len()).ok().ok_or("a short list")?;
    add(&len.to_be_bytes(), into)?;
    for change in changes {
        add_change(alloc, *change, into)?;
    }
    Ok(())
}

fn add_number(code: u8, number: u32, into: &mut Vec<u8>) -> Result<(), Fail> {
    add(&[code], into)?;
    add(&number.to_be_bytes(), into)?;
    Ok(())
}

fn add_open(code: u8, low: i64, high: Option<i64>, into: &mut Vec<u8>) -> Result<(), Fail> {
    add(&[code], into)?;
    add_range(low, high, into)?;
    Ok(())
}

fn add_write(alloc: Global, changes: &[Change], into: &mut Vec<u8>) -> Result<(), Fail> {
    add(&[2], into)?;
    add_changes(alloc, changes, into)
}

fn add_split(at: i64, child: u32, into: &mut Vec<u8>) -> Result<(), Fail> {
    add(&[3], into)?;
    add_handle(at, into)?;
    add(&child.to_be_bytes(), into)?;
    Ok(())
}

fn add_code(code: u8, into: &mut Vec<u8>) -> Result<(), Fail> {
    add(&[code], into)?;
    Ok(())
}

fn add_install(
    alloc: Global,
    low: i64,
    high: Option<i64>,
    changes: &[Change],
    into: &mut Vec<u8>,
) -> Result<(), Fail> {
    add_open(7, low, high, into)?;
    add_changes(alloc, changes, into)
}

fn add_act(alloc: Global, act: Act, into: &mut Vec<u8>) -> Result<(), Fail> {
    match act {
        Act::Open(low, high) => add_open(1, low, high, into),
        Act::Write(changes) => add_write(alloc, changes, into),
        Act::Split(at, child) => add_split(at, child, into),
        Act::Prepare(target) => add_number(4, target, into),
        Act::Commit(source) => add_number(5, source, into),
        Act::Remove => add_code(6, into),
        Act::Install(low, high, changes) => add_install(alloc, low, high, changes, into),
        Act::Empty => add_code(8, into),
    }
}

fn payload_of(alloc: Global, line: Line) -> Result<Vec<u8>, Fail> {
    let mut payload = Vec::new(alloc);
    add(&line.0.to_be_bytes(), &mut payload)?;
    add(&line.1.to_be_bytes(), &mut payload)?;
    add_act(alloc, line.2, &mut payload)?;
    Ok(payload)
}

fn frame_bytes(alloc: Global, line: Line) -> Result<Vec<u8>, Fail> {
    let payload = payload_of(alloc, line)?;
    let mut bytes = Vec::new(alloc);
    add_value(payload.as_slice(), &mut bytes)?;
    Ok(bytes)
}

// The entry of a frame.
fn entry_in(alloc: Global, bytes: &[u8]) -> Result<Entry, Fail>
    requires { 0 < length bytes.now }
    ensures { IfOk result IsWritable }
{
    frames_have_one_spelling();
    match read_frame(alloc, bytes, 0) {
        Ok(frame) => Ok(frame.entry),
        Err(_) => Err("an entry".into()),
    }
}

// What admission says of the entry of a line.
pub fn admit_line(
    alloc: Global,
    logs: &mut Logs,
    line: Line,
) -> Result<Result<u64, Unlawful>, Fail> {
    let bytes = frame_bytes(alloc, line)?;
    if bytes.is_empty() {
        return Err("a frame".into());
    }
    match entry_in(alloc, &bytes) {
        Ok(entry) => Ok(logs.admit(entry)),
        Err(fail) => Err(fail),
    }
}

fn add_line(alloc: Global, logs: &mut Logs, line: Line) -> Result<(), Fail> {
    match admit_line(alloc, logs, line)? {
        Ok(_) => Ok(()),
        Err(refusal) => Err(Fail::from(refusal)),
    }
}

// The log of table 1 with these lines, all of which are lawful.
pub fn log_of_lines(alloc: Global, lines: &[Line]) -> Result<Logs, Fail> {
    let mut logs = Logs::empty(alloc, 1, schema(alloc)?);
    for line in lines {
        add_line(alloc, &mut logs, *line)?;
    }
    Ok(logs)
}
