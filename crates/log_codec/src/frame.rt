// Frames: a length, and one entry as the payload.
ghost use Rattle.std.specs.Prelude.{◌≡◌, ◌≤◌, ◌<◌, length, IfOk};
ghost use Rattle.log_codec.specs.Faults.{Gives};
ghost use Rattle.log_codec.specs.Frames.{entry_at, payload_of, sized_at, frame_at, framed};

use crate::body::body_of;
use crate::entry::{Entry, Frame};
use crate::fault::FrameError;
use crate::field::{passes, u32_in, u64_in};
use flash_list::u32_or;
use std::alloc::Global;

const MOST_PAYLOAD: u32 = 16_777_216;

const MOST_INDEX: u64 = (1 << 63) - 1;

/// The frame at this place of a log file: its entry, and the place behind it.
///
/// A frame is the payload's length in 4 bytes, at most 16,777,216, and the payload: the region in
/// 4 bytes, the index in 8 (from 1 to 2^63 - 1), a kind byte, and the body. Numbers are
/// big-endian. The faults are looked for from left to right: `Bad` at the length where it is above
/// its limit, then `Short` where the file ends inside the frame, then `Bad` at the first field that
/// holds what it may not or passes the payload's end, then `Long` at the first byte behind the
/// body. `Memory` may stand in the place of any of them and of the frame.
#[tactic(auto, unfolding(crate::specs::Frames::framed))]
pub fn read_frame(alloc: Global, bytes: &[u8], at: usize) -> Result<Frame, FrameError>
    requires { at < length bytes.now }
    ensures exact { Gives (λ x. x) result (framed bytes.now at) }
    ensures within { IfOk result (λ frame. (at < frame.end) × (frame.end ≤ length bytes.now)) }
{
    let (_, from) = bytes.split_at(at);
    let (entry, rest) = frame_of(alloc, bytes.len() as u64, from)?;
    let end = bytes.len().saturating_sub(rest.len());
    Ok(Frame { entry, end })
}

#[tactic(auto, unfolding(crate::specs::Frames::frame_at))]
fn frame_of(alloc: Global, end: u64, bytes: &[u8]) -> Result<(Entry, &[u8]), FrameError>
    ensures { Gives (λ x. (x.0, x.1.now)) result (frame_at end bytes.now) }
{
    let (len, rest) = u32_in(0, MOST_PAYLOAD, FrameError::Short { at: end }, end, bytes)?;
    sized_of(alloc, end, len, rest)
}

#[tactic(auto, unfolding(crate::specs::Frames::sized_at))]
fn sized_of(alloc: Global, end: u64, len: u32, bytes: &[u8]) -> Result<(Entry, &[u8]), FrameError>
    ensures { Gives (λ x. (x.0, x.1.now)) result (sized_at end len bytes.now) }
{
    let len = len as usize;
    if bytes.len() < len {
        return Err(FrameError::Short { at: end });
    }
    let stop = end.saturating_sub(bytes.len() as u64) + len as u64;
    let (payload, rest) = bytes.split_at(len);
    let entry = payload_of(alloc, stop, payload)?;
    Ok((entry, rest))
}

#[tactic(auto, unfolding(crate::specs::Frames::payload_of))]
fn payload_of(alloc: Global, end: u64, bytes: &[u8]) -> Result<Entry, FrameError>
    ensures { Gives (λ x. x) result (payload_of end bytes.now) }
{
    let (entry, rest) = entry_of(alloc, end, bytes)?;
    if !rest.is_empty() {
        return Err(FrameError::Long {
            at: end.saturating_sub(rest.len() as u64),
        });
    }
    Ok(entry)
}

#[tactic(auto, unfolding(crate::specs::Frames::entry_at))]
fn entry_of(alloc: Global, end: u64, bytes: &[u8]) -> Result<(Entry, &[u8]), FrameError>
    ensures { Gives (λ x. (x.0, x.1.now)) result (entry_at end bytes.now) }
{
    let (region, rest) = u32_or(passes(end, bytes), bytes)?;
    let (index, rest) = u64_in(1, MOST_INDEX, passes(end, rest), end, rest)?;
    let (body, rest) = body_of(alloc, end, rest)?;
    Ok((
        Entry {
            region,
            index,
            body,
        },
        rest,
    ))
}
