// The chain of a log.
ghost use Rattle.std.specs.Prelude.{◌≡◌, ◌++◌, ◌∷◌, [], ◌≤◌, ◌<◌, ◌^◌, length, map};
ghost use Rattle.std.specs.Int.{w16, w32, w64, to_be_bytes};
ghost use Rattle.std.specs.List.{All, flat_map};
ghost use Rattle.log_codec.specs.Spelling as spelling;
ghost use Rattle.log_codec.specs.Writable.{OpCanBeWritten, OpsCanBeWritten, BodyCanBeWritten, CanBeWritten};
ghost use Rattle.committed_log.specs.Digest.{Feeds, begun, extended_by, header_of, spec_of, kind_byte};

use crate::sizes::payload_len;
use column_block::{Column, Kind, Schema};
use log_codec::{Body, Entry, Family, Op};
use sha2::{Digest, Sha256};

/// The digest of a log of this table that has no entry: the SHA-256 of the header of a log file,
/// `FLASHLOG`, the version 1, the table and its columns. No memory is taken.
pub fn begun(table: i64, schema: &Schema) -> [u8; 32]
    ensures { result ≡ begun table schema.now }
{
    let mut hasher = Sha256::new();
    feed_header(table, schema.columns(), &mut hasher);
    hasher.finalize()
}

/// The digest of a log with one more entry, where `digest` is that of the log before it: the
/// SHA-256 of the digest followed by the entry's frame, as a log file has it, its length included.
///
/// The frame goes into the hasher part by part. No memory is taken.
pub fn extended(digest: [u8; 32], entry: &Entry) -> [u8; 32]
    requires { CanBeWritten entry.now }
    ensures { result ≡ extended_by digest entry.now }
{
    let mut hasher = Sha256::new();
    feed(&digest, &mut hasher);
    feed_frame(entry, &mut hasher);
    hasher.finalize()
}

#[tactic(auto, unfolding(log_codec::specs::Spelling::header))]
fn feed_header(table: i64, columns: &[Column], into: &mut Sha256)
    requires { length columns.now ≤ 64 }
    ensures { Feeds into.old (spelling.header (header_of table columns.now)) into.new }
{
    feed_u64(0x464C_4153_484C_4F47, into);
    feed_u16(1, into);
    feed_handle(table, into);
    feed_u16(columns.len() as u16, into);
    feed_columns(columns, into);
}

fn feed_columns(columns: &[Column], into: &mut Sha256)
    ensures { Feeds into.old (flat_map spelling.column (map spec_of columns.now)) into.new }
{
    for column in columns {
        feed_column(column, into);
    }
}

fn feed_column(column: &Column, into: &mut Sha256)
    ensures { Feeds into.old (spelling.column (spec_of column.now)) into.new }
{
    feed_u32(column.id, into);
    feed_u8(kind_byte(column.kind), into);
}

fn kind_byte(kind: Kind) -> u8
    ensures { result ≡ kind_byte kind }
{
    match kind {
        Kind::Int => 1,
        Kind::Uint => 2,
        Kind::Bytes => 3,
    }
}

fn feed(bytes: &[u8], into: &mut Sha256)
    ensures { Feeds into.old bytes.now into.new }
{
    into.update(bytes);
}

fn feed_u8(n: u8, into: &mut Sha256)
    ensures { Feeds into.old (n ∷ []) into.new }
{
    feed(&[n], into);
}

fn feed_u16(n: u16, into: &mut Sha256)
    ensures { Feeds into.old (to_be_bytes w16 n) into.new }
{
    feed(&n.to_be_bytes(), into);
}

fn feed_u32(n: u32, into: &mut Sha256)
    ensures { Feeds into.old (to_be_bytes w32 n) into.new }
{
    feed(&n.to_be_bytes(), into);
}

fn feed_u64(n: u64, into: &mut Sha256)
    ensures { Feeds into.old (to_be_bytes w64 n) into.new }
{
    feed(&n.to_be_bytes(), into);
}

fn feed_handle(n: i64, into: &mut Sha256)
    ensures { Feeds into.old (spelling.handle n) into.new }
{
    feed(&n.to_be_bytes(), into);
}

#[tactic(auto, unfolding(log_codec::specs::Spelling::frame))]
fn feed_frame(entry: &Entry, into: &mut Sha256)
    requires { CanBeWritten entry.now }
    ensures { Feeds into.old (spelling.frame entry.now) into.new }
{
    feed_u32(payload_len(entry) as u32, into);
    feed_payload(entry, into);
}

#[tactic(auto, unfolding(log_codec::specs::Spelling::payload))]
fn feed_payload(entry: &Entry, into: &mut Sha256)
    requires { BodyCanBeWritten entry.now.body }
    ensures { Feeds into.old (spelling.payload entry.now) into.new }
{
    feed_u32(entry.region, into);
    feed_u64(entry.index, into);
    feed_body(&entry.body, into);
}

fn feed_epoch(conf_ver: u64, version: u64, into: &mut Sha256)
    ensures { Feeds into.old (spelling.epoch conf_ver version) into.new }
{
    feed_u64(conf_ver, into);
    feed_u64(version, into);
}

fn feed_high(end: Option<i64>, into: &mut Sha256)
    ensures { Feeds into.old (spelling.high end) into.new }
{
    match end {
        None => feed_u8(0, into),
        Some(end) => feed_end(end, into),
    }
}

fn feed_end(end: i64, into: &mut Sha256)
    ensures { Feeds into.old (1 ∷ spelling.handle end) into.new }
{
    feed_u8(1, into);
    feed_handle(end, into);
}

fn feed_range(low: i64, end: Option<i64>, into: &mut Sha256)
    ensures { Feeds into.old (spelling.range low end) into.new }
{
    feed_handle(low, into);
    feed_high(end, into);
}

fn family_byte(family: Family) -> u8
    ensures { result ≡ spelling.family_byte family }
{
    match family {
        Family::Default => 1,
        Family::Lock => 2,
        Family::Write => 3,
    }
}

fn put_byte(put: bool) -> u8
    ensures { result ≡ spelling.put_byte put }
{
    if put { 1 } else { 2 }
}

fn feed_value(put: bool, bytes: &[u8], into: &mut Sha256)
    requires { length bytes.now < 2 ^ 32 }
    ensures { Feeds into.old (spelling.value put bytes.now) into.new }
{
    if !put {
        return;
    }
    feed_u32(bytes.len() as u32, into);
    feed(bytes, into);
}

#[tactic(auto, unfolding(log_codec::specs::Spelling::op))]
fn feed_op(op: &Op, into: &mut Sha256)
    requires { OpCanBeWritten op.now }
    ensures { Feeds into.old (spelling.op op.now) into.new }
{
    feed(&[put_byte(op.put), family_byte(op.family)], into);
    feed_u16(op.key.len() as u16, into);
    feed(op.key.as_slice(), into);
    feed_value(op.put, op.value.as_slice(), into);
}

fn feed_each(list: &[Op], into: &mut Sha256)
    requires { All OpCanBeWritten list.now }
    ensures { Feeds into.old (flat_map spelling.op list.now) into.new }
{
    for op in list {
        feed_op(op, into);
    }
}

fn feed_ops(list: &[Op], into: &mut Sha256)
    requires { OpsCanBeWritten list.now }
    ensures { Feeds into.old (spelling.ops list.now) into.new }
{
    feed_u32(list.len() as u32, into);
    feed_each(list, into);
}

#[tactic(auto, unfolding(log_codec::specs::Spelling::body))]
fn feed_body(body: &Body, into: &mut Sha256)
    requires { BodyCanBeWritten body.now }
    ensures { Feeds into.old (spelling.body body.now) into.new }
{
    match body {
        Body::Open {
            conf_ver,
            version,
            low,
            high,
        } => feed_open(*conf_ver, *version, *low, *high, into),
        Body::Write { ops } => feed_write(ops.as_slice(), into),
        Body::Split { at, child } => feed_split(*at, *child, into),
        Body::Prepare { target } => feed_merge(4, *target, into),
        Body::Commit { source } => feed_merge(5, *source, into),
        Body::Remove => feed_u8(6, into),
        Body::Install {
            conf_ver,
            version,
            low,
            high,
            ops,
        } => feed_install(*conf_ver, *version, *low, *high, ops.as_slice(), into),
        Body::Empty => feed_u8(8, into),
    }
}

fn feed_open(conf_ver: u64, version: u64, low: i64, high: Option<i64>, into: &mut Sha256)
    ensures { Feeds into.old (1 ∷ (spelling.epoch conf_ver version ++ spelling.range low high)) into.new }
{
    feed_u8(1, into);
    feed_epoch(conf_ver, version, into);
    feed_range(low, high, into);
}

fn feed_write(ops: &[Op], into: &mut Sha256)
    requires { OpsCanBeWritten ops.now }
    ensures { Feeds into.old (2 ∷ spelling.ops ops.now) into.new }
{
    feed_u8(2, into);
    feed_ops(ops, into);
}

fn feed_split(at: i64, child: u32, into: &mut Sha256)
    ensures { Feeds into.old (3 ∷ (spelling.handle at ++ to_be_bytes w32 child)) into.new }
{
    feed_u8(3, into);
    feed_handle(at, into);
    feed_u32(child, into);
}

// A body that names the other region of a merge alone.
fn feed_merge(kind: u8, other: u32, into: &mut Sha256)
    ensures { Feeds into.old (kind ∷ to_be_bytes w32 other) into.new }
{
    feed_u8(kind, into);
    feed_u32(other, into);
}

fn feed_install(
    conf_ver: u64,
    version: u64,
    low: i64,
    high: Option<i64>,
    ops: &[Op],
    into: &mut Sha256,
)
    requires { OpsCanBeWritten ops.now }
    ensures { Feeds into.old (7 ∷ (spelling.epoch conf_ver version ++ (spelling.range low high ++ spelling.ops ops.now))) into.new }
{
    feed_u8(7, into);
    feed_epoch(conf_ver, version, into);
    feed_range(low, high, into);
    feed_ops(ops, into);
}
