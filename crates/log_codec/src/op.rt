// The ops of a Write or an Install. Their bytes are copied once, and each key and value is cut
// from that copy.
ghost use Rattle.std.specs.Prelude.{◌≡◌, ◌≤◌, ◌<◌, length, drop, [], IfOk};
ghost use Rattle.std.specs.Int.{w32};
ghost use Rattle.flash_list.specs.Steps.{seen};
ghost use Rattle.flash_list.specs.Fields.{number_at};
ghost use Rattle.log_codec.specs.Faults.{Gives};
ghost use Rattle.log_codec.specs.Fields.{passes, bytes_at};
ghost use Rattle.log_codec.specs.Frames.{head_at, value_at, op_at, each_op_at, ops_at, family_of};

use crate::entry::{Family, Op, OpBytes, Ops};
use crate::fault::FrameError;
use crate::field::{passes, u8_in};
use flash_list::{Items, u16_or, u32_or};
use std::alloc::{AllocError, Global};

/// A count and so many ops, of the kinds up to `most`: 1 is a put, and 2 a delete.
#[tactic(auto, unfolding(crate::specs::Frames::ops_at))]
pub fn ops_of(alloc: Global, end: u64, most: u8, bytes: &[u8]) -> Result<(Ops, &[u8]), FrameError>
    ensures { Gives (λ x. (x.0, x.1.now)) result (ops_at end most bytes.now) }
{
    let (count, rest) = u32_or(passes(end, bytes), bytes)?;
    let mut left = OpBytes::from_slice(alloc, rest)?;
    let ops = each_of(alloc, end, most, count, &mut left)?;
    let (_, rest) = rest.split_at(rest.len().saturating_sub(left.len()));
    Ok((ops, rest))
}

fn each_of(
    alloc: Global,
    end: u64,
    most: u8,
    count: u32,
    bytes: &mut OpBytes,
) -> Result<Ops, FrameError>
    ensures { Gives (λ ops. (ops, bytes.new)) result (each_op_at end most count bytes.old) }
{
    let mut ops = match list_for(alloc, count, bytes.len()) {
        Ok(ops) => ops,
        Err(_no_memory) => return Err(FrameError::Memory),
    };
    for _ in 0..count {
        let op = op_of(end, most, bytes)?;
        let Ok(()) = ops.push(op) else {
            return Err(FrameError::Memory);
        };
    }
    Ok(ops)
}

// An empty list with room for so many ops, as far as bytes of this number can hold them: most
// entries have one or two. It has no room for more than a thousand before they are read.
fn list_for(alloc: Global, count: u32, len: usize) -> Result<Ops, AllocError>
    ensures { IfOk result (λ ops. ops ≡ []) }
{
    let room = (count as usize).min(len / 4).min(1024);
    let list = Vec::with_capacity(alloc, room)?;
    Ok(Items::from_vec(list))
}

#[tactic(auto, unfolding(crate::specs::Frames::op_at))]
fn op_of(end: u64, most: u8, bytes: &mut OpBytes) -> Result<Op, FrameError>
    ensures { Gives (λ op. (op, bytes.new)) result (op_at end most tt bytes.old) }
{
    let head = head_of(end, most, bytes.as_slice())?;
    bytes.advance(4);
    let key = bytes_of(end, head.key_len as usize, bytes)?;
    let value = value_of(end, head.put, bytes)?;
    let family = family_of(head.family);
    let put = head.put == 1;
    Ok(Op {
        put,
        family,
        key,
        value,
    })
}

// The four bytes before an op's key.
#[derive(Clone, Copy)]
pub struct Head {
    put: u8,
    family: u8,
    key_len: u16,
}

#[tactic(auto, unfolding(crate::specs::Frames::head_at))]
fn head_of(end: u64, most: u8, bytes: &[u8]) -> Result<Head, FrameError>
    ensures exact { seen (λ head. (head, drop 4 bytes.now)) result ≡ head_at end most bytes.now }
    ensures within { IfOk result (λ _. 4 ≤ length bytes.now) }
{
    let (put, rest) = u8_in(1, most, passes(end, bytes), end, bytes)?;
    let (family, rest) = u8_in(1, 3, passes(end, rest), end, rest)?;
    let (key_len, _) = u16_or(passes(end, rest), rest)?;
    Ok(Head {
        put,
        family,
        key_len,
    })
}

fn family_of(number: u8) -> Family
    ensures { result ≡ family_of number }
{
    match number {
        1 => Family::Default,
        2 => Family::Lock,
        _ => Family::Write,
    }
}

#[tactic(auto, unfolding(crate::specs::Frames::value_at))]
fn value_of(end: u64, put: u8, bytes: &mut OpBytes) -> Result<OpBytes, FrameError>
    ensures { Gives (λ value. (value, bytes.new)) result (value_at end put bytes.old) }
{
    if put != 1 {
        return Ok(OpBytes::new());
    }
    let len = len_of(end, bytes.as_slice())?;
    bytes.advance(4);
    bytes_of(end, len as usize, bytes)
}

// The four bytes before an op's value.
#[tactic(auto, unfolding(flash_list::specs::Fields::number_at))]
fn len_of(end: u64, bytes: &[u8]) -> Result<u32, FrameError>
    ensures exact { seen (λ len. (len, drop 4 bytes.now)) result
        ≡ number_at w32 (passes end bytes.now) bytes.now }
    ensures within { IfOk result (λ _. 4 ≤ length bytes.now) }
{
    let (len, _) = u32_or(passes(end, bytes), bytes)?;
    Ok(len)
}

// So many bytes, cut off.
#[tactic(auto, unfolding(crate::specs::Fields::bytes_at))]
fn bytes_of(end: u64, len: usize, bytes: &mut OpBytes) -> Result<OpBytes, FrameError>
    ensures { Gives (λ field. (field, bytes.new)) result (bytes_at end len bytes.old) }
{
    if bytes.len() < len {
        return Err(passes(end, bytes.as_slice()));
    }
    Ok(bytes.split_to(len)?)
}
