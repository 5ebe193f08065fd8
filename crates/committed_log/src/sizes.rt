// How many bytes an entry takes.
ghost use Rattle.std.specs.Prelude.{◌≡◌, ◌+◌, ◌≤◌, ◌<◌, ◌^◌, length};
ghost use Rattle.std.specs.List.{All, flat_map};
ghost use Rattle.log_codec.specs.Spelling as spelling;
ghost use Rattle.log_codec.specs.Writable.{OpCanBeWritten, BodyCanBeWritten, CanBeWritten};

use log_codec::{Body, Entry, Op};

// The length of an entry's payload.
#[tactic(auto, unfolding(log_codec::specs::Spelling::payload))]
pub(crate) fn payload_len(entry: &Entry) -> usize
    requires { CanBeWritten entry.now }
    ensures { result ≡ length (spelling.payload entry.now) }
{
    12 + body_len(&entry.body)
}

#[tactic(auto, unfolding(log_codec::specs::Spelling::body))]
fn body_len(body: &Body) -> usize
    requires can { BodyCanBeWritten body.now }
    requires size { length (spelling.body body.now) < 2 ^ 32 }
    ensures { result ≡ length (spelling.body body.now) }
{
    match body {
        Body::Open { high, .. } => 25 + high_len(*high),
        Body::Write { ops } => 5 + each_len(ops.as_slice()),
        Body::Split { .. } => 13,
        Body::Prepare { .. } => 5,
        Body::Commit { .. } => 5,
        Body::Remove => 1,
        Body::Install { high, ops, .. } => 29 + high_len(*high) + each_len(ops.as_slice()),
        Body::Empty => 1,
    }
}

fn high_len(high: Option<i64>) -> usize
    ensures size { result ≡ length (spelling.high high) }
    ensures few { result ≤ 9 }
{
    match high {
        None => 1,
        Some(_) => 9,
    }
}

fn each_len(list: &[Op]) -> usize
    requires can { All OpCanBeWritten list.now }
    requires size { length (flat_map spelling.op list.now) < 2 ^ 32 }
    ensures { result ≡ length (flat_map spelling.op list.now) }
{
    let mut len = 0;
    for op in list {
        len += op_len(op);
    }
    len
}

#[tactic(auto, unfolding(log_codec::specs::Spelling::op))]
fn op_len(op: &Op) -> usize
    requires { OpCanBeWritten op.now }
    ensures { result ≡ length (spelling.op op.now) }
{
    4 + op.key.len() + value_len(op.put, op.value.as_slice())
}

fn value_len(put: bool, value: &[u8]) -> usize
    requires { length value.now < 2 ^ 32 }
    ensures size { result ≡ length (spelling.value put value.now) }
    ensures few { result ≤ 2 ^ 32 + 3 }
{
    if put { 4 + value.len() } else { 0 }
}
