// The lines of replies to reads.
ghost use Rattle.std.specs.Prelude.{◌≡◌, ◌++◌, OnOk, OnErr, codes, length};
ghost use Rattle.std.specs.List.{flat_map};
ghost use Rattle.std.specs.Fmt.{decimal};
ghost use Rattle.tool_text.specs.Texts.{line, Begins};
ghost use Rattle.tool_text.specs.Replies.{reply_text, answer_text, cut_text, cuts_text, cuts_and_rows_text, counted_rows_text, rows_text, refusal_text, not_yet_text, waits_text, epoch_mismatch_text, locked_text, lock_text, region_text, applied_text, wants_text, found_text};

use crate::print_row;
use crate::push::{push, push_handle, push_number};
use column_block::{Memory, Row};
use flash_list::Items;
use flash_types::{Cut, Epoch, Handle, Refusal, RegionId, Ts, Wants};

/// The states of the regions that a read was answered from, in the ask's order.
pub type Cuts = Items<Cut>;

/// Rows in rising handle order.
pub type Rows = Items<Row>;

/// What a read was answered.
#[derive(Debug, Drop)]
pub enum ReadReply {
    /// The rows that the read is shown at the timestamp, and the state of each region.
    Rows { ts: Ts, cuts: Cuts, rows: Rows },
    /// The read is refused.
    Refused { refusal: Refusal },
    /// A device failed while the rows were read.
    Device,
    /// A file of the store isn't of its form; `at` is the first place that isn't.
    Damaged { at: u64 },
}

/// Appends the text of the reply to the `k`-th read, reads counted from 1. Each line ends with a
/// line feed.
///
/// | Reply | Text |
/// |---|---|
/// | rows | `read K ts TS at R:I R:I .. rows N`, regions in the ask's order with their applied indexes; then the lines of the N rows |
/// | below the safe point | `read K refused below-safe-point SAFE` |
/// | not yet | `read K refused not-yet region R applied A wants index I`, or `.. wants mark NEXT MARK`; A is `none` where the region isn't there yet |
/// | another epoch | `read K refused epoch region R index I found CONF VERSION`, or `.. found none` where the region is gone |
/// | a lock | `read K refused locked region R index I handle H start S` |
/// | a failed device | `read K device` |
/// | a damaged file | `read K damaged AT` |
///
/// After `Err` the text is as before.
pub fn print_reply(k: u32, reply: &ReadReply, into: &mut Vec<u8>) -> Result<(), Memory>
    ensures ok { OnOk result (into.new.items ≡ into.old.items ++ reply_text k reply.now) }
    ensures err { OnErr result (into.new.items ≡ into.old.items) }
{
    let before = into.len();
    match push_reply(k, reply, into) {
        Ok(()) => Ok(()),
        Err(memory) => {
            into.truncate(before);
            Err(memory)
        }
    }
}

#[tactic(auto, unfolding(crate::specs::Replies::reply_text), using(crate::proofs::Begins::begins))]
fn push_reply(k: u32, reply: &ReadReply, into: &mut Vec<u8>) -> Result<(), Memory>
    ensures ok { OnOk result (into.new.items ≡ into.old.items ++ reply_text k reply.now) }
    ensures err { OnErr result (Begins into.old.items into.new.items) }
{
    push_number(b"read ", k as u64, into)?;
    push_answer(reply, into)
}

#[tactic(auto, unfolding(crate::specs::Replies::answer_text), using(crate::proofs::Begins::begins))]
fn push_answer(reply: &ReadReply, into: &mut Vec<u8>) -> Result<(), Memory>
    ensures ok { OnOk result (into.new.items ≡ into.old.items ++ answer_text reply.now) }
    ensures err { OnErr result (Begins into.old.items into.new.items) }
{
    match reply {
        ReadReply::Rows { ts, cuts, rows } => {
            push_number(b" ts ", *ts, into)?;
            push_cuts_and_rows(cuts.as_slice(), rows.as_slice(), into)
        }
        ReadReply::Refused { refusal } => {
            push(into, b" refused ")?;
            push_refusal(*refusal, into)?;
            push(into, b"\n")
        }
        ReadReply::Device => push(into, b" device\n"),
        ReadReply::Damaged { at } => {
            push_number(b" damaged ", *at, into)?;
            push(into, b"\n")
        }
    }
}

#[tactic(auto, unfolding(crate::specs::Replies::cuts_and_rows_text), using(crate::proofs::Begins::begins))]
fn push_cuts_and_rows(cuts: &[Cut], rows: &[Row], into: &mut Vec<u8>) -> Result<(), Memory>
    ensures ok { OnOk result (into.new.items ≡ into.old.items ++ cuts_and_rows_text cuts.now rows.now) }
    ensures err { OnErr result (Begins into.old.items into.new.items) }
{
    push_at_cuts(cuts, into)?;
    push_counted_rows(rows, into)
}

#[tactic(auto, using(crate::proofs::Begins::begins))]
fn push_at_cuts(cuts: &[Cut], into: &mut Vec<u8>) -> Result<(), Memory>
    ensures ok { OnOk result (into.new.items ≡ into.old.items ++ (codes " at" ++ cuts_text cuts.now)) }
    ensures err { OnErr result (Begins into.old.items into.new.items) }
{
    push(into, b" at")?;
    push_cuts(cuts, into)
}

#[tactic(auto, using(crate::proofs::Begins::begins))]
fn push_cuts(cuts: &[Cut], into: &mut Vec<u8>) -> Result<(), Memory>
    ensures ok { OnOk result (into.new.items ≡ into.old.items ++ cuts_text cuts.now) }
    ensures err { OnErr result (Begins into.old.items into.new.items) }
{
    for cut in cuts {
        if let Err(memory) = push_cut(cut, into) {
            return Err(memory);
        }
    }
    Ok(())
}

#[tactic(auto, using(crate::proofs::Begins::begins))]
fn push_cut(cut: &Cut, into: &mut Vec<u8>) -> Result<(), Memory>
    ensures ok { OnOk result (into.new.items ≡ into.old.items ++ cut_text cut.now) }
    ensures err { OnErr result (Begins into.old.items into.new.items) }
{
    push_number(b" ", cut.region as u64, into)?;
    push_number(b":", cut.index, into)
}

#[tactic(auto, unfolding(crate::specs::Replies::counted_rows_text), using(crate::proofs::Begins::begins))]
fn push_counted_rows(rows: &[Row], into: &mut Vec<u8>) -> Result<(), Memory>
    ensures ok { OnOk result (into.new.items ≡ into.old.items ++ counted_rows_text rows.now) }
    ensures err { OnErr result (Begins into.old.items into.new.items) }
{
    push_number(b" rows ", rows.len() as u64, into)?;
    push_rows(rows, into)
}

#[tactic(auto, unfolding(crate::specs::Replies::rows_text), using(crate::proofs::Begins::begins))]
fn push_rows(rows: &[Row], into: &mut Vec<u8>) -> Result<(), Memory>
    ensures ok { OnOk result (into.new.items ≡ into.old.items ++ rows_text rows.now) }
    ensures err { OnErr result (Begins into.old.items into.new.items) }
{
    push(into, b"\n")?;
    push_lines(rows, into)
}

#[tactic(auto, using(crate::proofs::Begins::begins))]
fn push_lines(rows: &[Row], into: &mut Vec<u8>) -> Result<(), Memory>
    ensures ok { OnOk result (into.new.items ≡ into.old.items ++ flat_map line rows.now) }
    ensures err { OnErr result (Begins into.old.items into.new.items) }
{
    for row in rows {
        if let Err(memory) = print_row(row, into) {
            return Err(memory);
        }
    }
    Ok(())
}

// ---- refusals

#[tactic(auto, using(crate::proofs::Begins::begins))]
fn push_refusal(refusal: Refusal, into: &mut Vec<u8>) -> Result<(), Memory>
    ensures ok { OnOk result (into.new.items ≡ into.old.items ++ refusal_text refusal) }
    ensures err { OnErr result (Begins into.old.items into.new.items) }
{
    match refusal {
        Refusal::BelowSafePoint { safe_point } => {
            push_number(b"below-safe-point ", safe_point, into)
        }
        Refusal::NotYet {
            region,
            applied,
            wants,
        } => {
            push(into, b"not-yet")?;
            push_not_yet(region, applied, wants, into)
        }
        Refusal::EpochNotMatch {
            region,
            index,
            found,
        } => {
            push(into, b"epoch")?;
            push_epoch_mismatch(region, index, found, into)
        }
        Refusal::Locked {
            region,
            index,
            handle,
            start,
        } => {
            push(into, b"locked")?;
            push_locked(region, index, handle, start, into)
        }
    }
}

#[tactic(auto, unfolding(crate::specs::Replies::not_yet_text), using(crate::proofs::Begins::begins))]
fn push_not_yet(
    region: RegionId,
    applied: Option<u64>,
    wants: Wants,
    into: &mut Vec<u8>,
) -> Result<(), Memory>
    ensures ok { OnOk result (into.new.items ≡ into.old.items ++ not_yet_text region applied wants) }
    ensures err { OnErr result (Begins into.old.items into.new.items) }
{
    push_number(b" region ", region as u64, into)?;
    push_waits(applied, wants, into)
}

#[tactic(auto, unfolding(crate::specs::Replies::waits_text), using(crate::proofs::Begins::begins))]
fn push_waits(applied: Option<u64>, wants: Wants, into: &mut Vec<u8>) -> Result<(), Memory>
    ensures ok { OnOk result (into.new.items ≡ into.old.items ++ waits_text applied wants) }
    ensures err { OnErr result (Begins into.old.items into.new.items) }
{
    push_applied(applied, into)?;
    push_wants(wants, into)
}

#[tactic(auto, unfolding(crate::specs::Replies::region_text), using(crate::proofs::Begins::begins))]
fn push_region(region: RegionId, index: u64, into: &mut Vec<u8>) -> Result<(), Memory>
    ensures ok { OnOk result (into.new.items ≡ into.old.items ++ region_text region index) }
    ensures err { OnErr result (Begins into.old.items into.new.items) }
{
    push_number(b" region ", region as u64, into)?;
    push_number(b" index ", index, into)
}

#[tactic(auto, unfolding(crate::specs::Replies::applied_text))]
fn push_applied(applied: Option<u64>, into: &mut Vec<u8>) -> Result<(), Memory>
    ensures ok { OnOk result (into.new.items ≡ into.old.items ++ applied_text applied) }
    ensures err { OnErr result (Begins into.old.items into.new.items) }
{
    match applied {
        None => push(into, b" applied none"),
        Some(index) => push_number(b" applied ", index, into),
    }
}

#[tactic(auto, unfolding(crate::specs::Replies::wants_text), using(crate::proofs::Begins::begins))]
fn push_wants(wants: Wants, into: &mut Vec<u8>) -> Result<(), Memory>
    ensures ok { OnOk result (into.new.items ≡ into.old.items ++ wants_text wants) }
    ensures err { OnErr result (Begins into.old.items into.new.items) }
{
    match wants {
        Wants::Index(index) => push_number(b" wants index ", index, into),
        Wants::Mark { next, mark } => {
            push_number(b" wants mark ", next, into)?;
            push_number(b" ", mark, into)
        }
    }
}

#[tactic(auto, unfolding(crate::specs::Replies::epoch_mismatch_text), using(crate::proofs::Begins::begins))]
fn push_epoch_mismatch(
    region: RegionId,
    index: u64,
    found: Option<Epoch>,
    into: &mut Vec<u8>,
) -> Result<(), Memory>
    ensures ok { OnOk result (into.new.items ≡ into.old.items ++ epoch_mismatch_text region index found) }
    ensures err { OnErr result (Begins into.old.items into.new.items) }
{
    push_region(region, index, into)?;
    push_found(found, into)
}

#[tactic(auto, unfolding(crate::specs::Replies::found_text), using(crate::proofs::Begins::begins))]
fn push_found(found: Option<Epoch>, into: &mut Vec<u8>) -> Result<(), Memory>
    ensures ok { OnOk result (into.new.items ≡ into.old.items ++ found_text found) }
    ensures err { OnErr result (Begins into.old.items into.new.items) }
{
    match found {
        None => push(into, b" found none"),
        Some(epoch) => {
            push_number(b" found ", epoch.conf_ver, into)?;
            push_number(b" ", epoch.version, into)
        }
    }
}

#[tactic(auto, unfolding(crate::specs::Replies::locked_text), using(crate::proofs::Begins::begins))]
fn push_locked(
    region: RegionId,
    index: u64,
    handle: Handle,
    start: Ts,
    into: &mut Vec<u8>,
) -> Result<(), Memory>
    ensures ok { OnOk result (into.new.items ≡ into.old.items ++ locked_text region index handle start) }
    ensures err { OnErr result (Begins into.old.items into.new.items) }
{
    push_region(region, index, into)?;
    push_lock(handle, start, into)
}

#[tactic(auto, unfolding(crate::specs::Replies::lock_text), using(crate::proofs::Begins::begins))]
fn push_lock(handle: Handle, start: Ts, into: &mut Vec<u8>) -> Result<(), Memory>
    ensures ok { OnOk result (into.new.items ≡ into.old.items ++ lock_text handle start) }
    ensures err { OnErr result (Begins into.old.items into.new.items) }
{
    push_handle(b" handle ", handle, into)?;
    push_number(b" start ", start, into)
}
