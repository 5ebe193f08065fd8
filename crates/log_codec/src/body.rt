// The bodies of entries.
ghost use Rattle.std.specs.Prelude.{◌≡◌, ◌≤◌, ◌<◌, length, IfOk};
ghost use Rattle.flash_list.specs.Steps.{seen};
ghost use Rattle.log_codec.specs.Faults.{Gives};
ghost use Rattle.log_codec.specs.Frames.{high_at, range_at, epoch_at, open_at, write_at, split_at, prepare_at, commit_at, install_at, body_of, body_at};

use crate::entry::Body;
use crate::fault::FrameError;
use crate::field::{handle_of, passes, u8_in, u64_in};
use crate::op::ops_of;
use flash_list::u32_or;
use std::alloc::Global;

const MOST_EPOCH: u64 = (1 << 62) - 1;

/// A kind byte and the body of that kind.
#[tactic(auto, unfolding(crate::specs::Frames::body_at))]
pub fn body_of(alloc: Global, end: u64, bytes: &[u8]) -> Result<(Body, &[u8]), FrameError>
    ensures { Gives (λ x. (x.0, x.1.now)) result (body_at end bytes.now) }
{
    let (kind, rest) = u8_in(1, 8, passes(end, bytes), end, bytes)?;
    kind_of(alloc, end, kind, rest)
}

fn kind_of(alloc: Global, end: u64, kind: u8, bytes: &[u8]) -> Result<(Body, &[u8]), FrameError>
    ensures { Gives (λ x. (x.0, x.1.now)) result (body_of end kind bytes.now) }
{
    match kind {
        1 => open_of(end, bytes),
        2 => write_of(alloc, end, bytes),
        3 => split_of(end, bytes),
        4 => prepare_of(end, bytes),
        5 => commit_of(end, bytes),
        6 => Ok((Body::Remove, bytes)),
        7 => install_of(alloc, end, bytes),
        _ => Ok((Body::Empty, bytes)),
    }
}

#[tactic(auto, unfolding(crate::specs::Frames::open_at))]
fn open_of(end: u64, bytes: &[u8]) -> Result<(Body, &[u8]), FrameError>
    ensures { Gives (λ x. (x.0, x.1.now)) result (open_at end bytes.now) }
{
    let ((conf_ver, version), rest) = epoch_of(end, bytes)?;
    let ((low, high), rest) = range_of(end, rest)?;
    Ok((
        Body::Open {
            conf_ver,
            version,
            low,
            high,
        },
        rest,
    ))
}

#[tactic(auto, unfolding(crate::specs::Frames::write_at))]
fn write_of(alloc: Global, end: u64, bytes: &[u8]) -> Result<(Body, &[u8]), FrameError>
    ensures { Gives (λ x. (x.0, x.1.now)) result (write_at end bytes.now) }
{
    let (ops, rest) = ops_of(alloc, end, 2, bytes)?;
    Ok((Body::Write { ops }, rest))
}

#[tactic(auto, unfolding(crate::specs::Frames::split_at))]
fn split_of(end: u64, bytes: &[u8]) -> Result<(Body, &[u8]), FrameError>
    ensures { Gives (λ x. (x.0, x.1.now)) result (split_at end bytes.now) }
{
    let (at, rest) = handle_of(end, bytes)?;
    let (child, rest) = u32_or(passes(end, rest), rest)?;
    Ok((Body::Split { at, child }, rest))
}

#[tactic(auto, unfolding(crate::specs::Frames::prepare_at))]
fn prepare_of(end: u64, bytes: &[u8]) -> Result<(Body, &[u8]), FrameError>
    ensures { Gives (λ x. (x.0, x.1.now)) result (prepare_at end bytes.now) }
{
    let (target, rest) = u32_or(passes(end, bytes), bytes)?;
    Ok((Body::Prepare { target }, rest))
}

#[tactic(auto, unfolding(crate::specs::Frames::commit_at))]
fn commit_of(end: u64, bytes: &[u8]) -> Result<(Body, &[u8]), FrameError>
    ensures { Gives (λ x. (x.0, x.1.now)) result (commit_at end bytes.now) }
{
    let (source, rest) = u32_or(passes(end, bytes), bytes)?;
    Ok((Body::Commit { source }, rest))
}

#[tactic(auto, unfolding(crate::specs::Frames::install_at))]
fn install_of(alloc: Global, end: u64, bytes: &[u8]) -> Result<(Body, &[u8]), FrameError>
    ensures { Gives (λ x. (x.0, x.1.now)) result (install_at end bytes.now) }
{
    let ((conf_ver, version), rest) = epoch_of(end, bytes)?;
    let ((low, high), rest) = range_of(end, rest)?;
    let (ops, rest) = ops_of(alloc, end, 1, rest)?;
    Ok((
        Body::Install {
            conf_ver,
            version,
            low,
            high,
            ops,
        },
        rest,
    ))
}

#[tactic(auto, unfolding(crate::specs::Frames::epoch_at))]
fn epoch_of(end: u64, bytes: &[u8]) -> Result<((u64, u64), &[u8]), FrameError>
    ensures { seen (λ x. (x.0, x.1.now)) result ≡ epoch_at end bytes.now }
{
    let (conf_ver, rest) = u64_in(0, MOST_EPOCH, passes(end, bytes), end, bytes)?;
    let (version, rest) = u64_in(0, MOST_EPOCH, passes(end, rest), end, rest)?;
    Ok(((conf_ver, version), rest))
}

#[tactic(auto, unfolding(crate::specs::Frames::range_at))]
fn range_of(end: u64, bytes: &[u8]) -> Result<((i64, Option<i64>), &[u8]), FrameError>
    ensures { seen (λ x. (x.0, x.1.now)) result ≡ range_at end bytes.now }
{
    let (low, rest) = handle_of(end, bytes)?;
    let (high, rest) = high_of(end, rest)?;
    Ok(((low, high), rest))
}

#[tactic(auto, unfolding(crate::specs::Frames::high_at))]
fn high_of(end: u64, bytes: &[u8]) -> Result<(Option<i64>, &[u8]), FrameError>
    ensures { seen (λ x. (x.0, x.1.now)) result ≡ high_at end bytes.now }
{
    let (flag, rest) = u8_in(0, 1, passes(end, bytes), end, bytes)?;
    if flag == 0 {
        return Ok((None, rest));
    }
    let (high, rest) = handle_of(end, rest)?;
    Ok((Some(high), rest))
}
