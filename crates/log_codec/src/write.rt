// Writers of headers and frames.
ghost use Rattle.std.specs.Prelude.{◌≡◌, ◌++◌, ◌∷◌, [], ◌<◌, ◌≤◌, ◌^◌, length, OnOk, OnErr, take};
ghost use Rattle.std.specs.Int.{w16, w32, w64, to_be_bytes};
ghost use Rattle.std.specs.List.{All, flat_map};
ghost use Rattle.flash_put.specs.Appending.{Appends};
ghost use Rattle.log_codec.specs.Header.{magic};
ghost use Rattle.log_codec.specs.Spelling as spelling;
ghost use Rattle.log_codec.specs.Writable.{OpCanBeWritten, OpsCanBeWritten, BodyCanBeWritten, CanBeWritten, HeaderCanBeWritten};

use crate::entry::{Body, Entry, Family, Op};
use crate::header::{ColumnSpec, Header, MAGIC};
use crate::sizes::payload_len;
use flash_put::{put_bytes, put_i64, put_u8, put_u16, put_u32, put_u64};
use std::alloc::AllocError;

/// Writes a log's header at the end of `into`: `FLASHLOG`, the version 1 in 2 bytes, the table in
/// 8, the number of columns in 2, and for each column its id in 4 and its kind in 1.
///
/// For want of memory `into` is as it was.
pub fn write_header(header: &Header, into: &mut Vec<u8>) -> Result<(), AllocError>
    requires { HeaderCanBeWritten header.now }
    ensures ok { OnOk result (into.new.items ≡ into.old.items ++ spelling.header header.now) }
    ensures err { OnErr result (into.new.items ≡ into.old.items) }
{
    let len = into.len();
    let written = put_header(header, into);
    if written.is_err() {
        into.truncate(len);
    }
    written
}

/// Writes an entry's frame at the end of `into`, in its one spelling.
///
/// For want of memory `into` is as it was.
pub fn write_frame(entry: &Entry, into: &mut Vec<u8>) -> Result<(), AllocError>
    requires { CanBeWritten entry.now }
    ensures ok { OnOk result (into.new.items ≡ into.old.items ++ spelling.frame entry.now) }
    ensures err { OnErr result (into.new.items ≡ into.old.items) }
{
    let len = into.len();
    let written = put_frame(entry, into);
    if written.is_err() {
        into.truncate(len);
    }
    written
}

#[tactic(auto, using(flash_put::proofs::Appending::kept), unfolding(crate::specs::Spelling::frame))]
fn put_frame(entry: &Entry, into: &mut Vec<u8>) -> Result<(), AllocError>
    requires { CanBeWritten entry.now }
    ensures { Appends result into.old.items (spelling.frame entry.now) into.new.items }
{
    put_u32(payload_len(entry) as u32, into)?;
    put_payload(entry, into)
}

#[tactic(auto, using(flash_put::proofs::Appending::kept), unfolding(crate::specs::Spelling::payload))]
fn put_payload(entry: &Entry, into: &mut Vec<u8>) -> Result<(), AllocError>
    requires { BodyCanBeWritten entry.now.body }
    ensures { Appends result into.old.items (spelling.payload entry.now) into.new.items }
{
    put_u32(entry.region, into)?;
    put_u64(entry.index, into)?;
    put_body(&entry.body, into)
}

#[tactic(auto, unfolding(crate::specs::Spelling::header))]
fn put_header(header: &Header, into: &mut Vec<u8>) -> Result<(), AllocError>
    requires { HeaderCanBeWritten header.now }
    ensures { Appends result into.old.items (spelling.header header.now) into.new.items }
{
    put_table(header.table, header.columns.as_slice(), into)
}

#[tactic(auto, using(flash_put::proofs::Appending::kept))]
fn put_table(table: i64, columns: &[ColumnSpec], into: &mut Vec<u8>) -> Result<(), AllocError>
    requires { length columns.now ≤ 64 }
    ensures { Appends result into.old.items (to_be_bytes w64 magic ++ (to_be_bytes w16 1 ++ (spelling.handle table ++ (to_be_bytes w16 (length columns.now) ++ flat_map spelling.column columns.now)))) into.new.items }
{
    put_u64(MAGIC, into)?;
    put_u16(1, into)?;
    put_i64(table, into)?;
    put_u16(columns.len() as u16, into)?;
    put_columns(columns, into)
}

fn put_columns(columns: &[ColumnSpec], into: &mut Vec<u8>) -> Result<(), AllocError>
    ensures { Appends result into.old.items (flat_map spelling.column columns.now) into.new.items }
{
    for column in columns {
        put_column(column, into)?;
    }
    Ok(())
}

#[tactic(auto, using(flash_put::proofs::Appending::kept))]
fn put_column(column: &ColumnSpec, into: &mut Vec<u8>) -> Result<(), AllocError>
    ensures { Appends result into.old.items (spelling.column column.now) into.new.items }
{
    put_u32(column.id, into)?;
    put_u8(column.kind, into)
}

#[tactic(auto, using(flash_put::proofs::Appending::kept))]
fn put_epoch(conf_ver: u64, version: u64, into: &mut Vec<u8>) -> Result<(), AllocError>
    ensures { Appends result into.old.items (spelling.epoch conf_ver version) into.new.items }
{
    put_u64(conf_ver, into)?;
    put_u64(version, into)
}

#[tactic(auto, using(flash_put::proofs::Appending::kept))]
fn put_high(end: Option<i64>, into: &mut Vec<u8>) -> Result<(), AllocError>
    ensures { Appends result into.old.items (spelling.high end) into.new.items }
{
    match end {
        None => put_u8(0, into),
        Some(end) => put_end(end, into),
    }
}

#[tactic(auto, using(flash_put::proofs::Appending::kept))]
fn put_end(end: i64, into: &mut Vec<u8>) -> Result<(), AllocError>
    ensures { Appends result into.old.items (1 ∷ spelling.handle end) into.new.items }
{
    put_u8(1, into)?;
    put_i64(end, into)
}

#[tactic(auto, using(flash_put::proofs::Appending::kept))]
fn put_range(low: i64, end: Option<i64>, into: &mut Vec<u8>) -> Result<(), AllocError>
    ensures { Appends result into.old.items (spelling.range low end) into.new.items }
{
    put_i64(low, into)?;
    put_high(end, into)
}

fn family_byte(family: Family) -> u8
    ensures { result ≡ spelling.family_byte family }
{
    match family {
        Family::Default => 1,
        Family::Lock => 2,
        Family::Write => 3,
    }
}

fn put_byte(put: bool) -> u8
    ensures { result ≡ spelling.put_byte put }
{
    if put { 1 } else { 2 }
}

#[tactic(auto, using(flash_put::proofs::Appending::kept))]
fn put_value(put: bool, bytes: &[u8], into: &mut Vec<u8>) -> Result<(), AllocError>
    requires { length bytes.now < 2 ^ 32 }
    ensures { Appends result into.old.items (spelling.value put bytes.now) into.new.items }
{
    if !put {
        return Ok(());
    }
    put_u32(bytes.len() as u32, into)?;
    put_bytes(bytes, into)
}

#[tactic(auto, using(flash_put::proofs::Appending::kept), unfolding(crate::specs::Spelling::op))]
fn put_op(op: &Op, into: &mut Vec<u8>) -> Result<(), AllocError>
    requires { OpCanBeWritten op.now }
    ensures { Appends result into.old.items (spelling.op op.now) into.new.items }
{
    put_bytes(&[put_byte(op.put), family_byte(op.family)], into)?;
    put_u16(op.key.len() as u16, into)?;
    put_bytes(op.key.as_slice(), into)?;
    put_value(op.put, op.value.as_slice(), into)
}

fn put_each(list: &[Op], into: &mut Vec<u8>) -> Result<(), AllocError>
    requires { All OpCanBeWritten list.now }
    ensures { Appends result into.old.items (flat_map spelling.op list.now) into.new.items }
{
    for op in list {
        put_op(op, into)?;
    }
    Ok(())
}

#[tactic(auto, using(flash_put::proofs::Appending::kept))]
fn put_ops(list: &[Op], into: &mut Vec<u8>) -> Result<(), AllocError>
    requires { OpsCanBeWritten list.now }
    ensures { Appends result into.old.items (spelling.ops list.now) into.new.items }
{
    put_u32(list.len() as u32, into)?;
    put_each(list, into)
}

#[tactic(auto, unfolding(crate::specs::Spelling::body))]
fn put_body(body: &Body, into: &mut Vec<u8>) -> Result<(), AllocError>
    requires { BodyCanBeWritten body.now }
    ensures { Appends result into.old.items (spelling.body body.now) into.new.items }
{
    match body {
        Body::Open {
            conf_ver,
            version,
            low,
            high,
        } => put_open(*conf_ver, *version, *low, *high, into),
        Body::Write { ops } => put_write(ops.as_slice(), into),
        Body::Split { at, child } => put_split(*at, *child, into),
        Body::Prepare { target } => put_merge(4, *target, into),
        Body::Commit { source } => put_merge(5, *source, into),
        Body::Remove => put_u8(6, into),
        Body::Install {
            conf_ver,
            version,
            low,
            high,
            ops,
        } => put_install(*conf_ver, *version, *low, *high, ops.as_slice(), into),
        Body::Empty => put_u8(8, into),
    }
}

#[tactic(auto, using(flash_put::proofs::Appending::kept))]
fn put_open(
    conf_ver: u64,
    version: u64,
    low: i64,
    high: Option<i64>,
    into: &mut Vec<u8>,
) -> Result<(), AllocError>
    ensures { Appends result into.old.items (1 ∷ (spelling.epoch conf_ver version ++ spelling.range low high)) into.new.items }
{
    put_u8(1, into)?;
    put_epoch(conf_ver, version, into)?;
    put_range(low, high, into)
}

#[tactic(auto, using(flash_put::proofs::Appending::kept))]
fn put_write(ops: &[Op], into: &mut Vec<u8>) -> Result<(), AllocError>
    requires { OpsCanBeWritten ops.now }
    ensures { Appends result into.old.items (2 ∷ spelling.ops ops.now) into.new.items }
{
    put_u8(2, into)?;
    put_ops(ops, into)
}

#[tactic(auto, using(flash_put::proofs::Appending::kept))]
fn put_split(at: i64, child: u32, into: &mut Vec<u8>) -> Result<(), AllocError>
    ensures { Appends result into.old.items (3 ∷ (spelling.handle at ++ to_be_bytes w32 child)) into.new.items }
{
    put_u8(3, into)?;
    put_i64(at, into)?;
    put_u32(child, into)
}

// A body that names the other region of a merge alone.
#[tactic(auto, using(flash_put::proofs::Appending::kept))]
fn put_merge(kind: u8, other: u32, into: &mut Vec<u8>) -> Result<(), AllocError>
    ensures { Appends result into.old.items (kind ∷ to_be_bytes w32 other) into.new.items }
{
    put_u8(kind, into)?;
    put_u32(other, into)
}

#[tactic(auto, using(flash_put::proofs::Appending::kept))]
fn put_install(
    conf_ver: u64,
    version: u64,
    low: i64,
    high: Option<i64>,
    ops: &[Op],
    into: &mut Vec<u8>,
) -> Result<(), AllocError>
    requires { OpsCanBeWritten ops.now }
    ensures { Appends result into.old.items (7 ∷ (spelling.epoch conf_ver version ++ (spelling.range low high ++ spelling.ops ops.now))) into.new.items }
{
    put_u8(7, into)?;
    put_epoch(conf_ver, version, into)?;
    put_range(low, high, into)?;
    put_ops(ops, into)
}
