// How a record of edits is read.
ghost use Rattle.std.specs.Prelude.{◌≡◌};
ghost use Rattle.flash_list.specs.Steps.{seen};
ghost use Rattle.manifest_form.specs.Faults.{Gives};
ghost use Rattle.manifest_form.specs.Edits.{stable_at, file_at, each_file_at, delta_at, segment_at, mark_at, bytes_at, edit_of, edit_at, edits_of};

use crate::fault::Fault;
use crate::field::{here, range_of, u8_in, u32_of, u64_of};
use crate::state::{Edit, Edits, StoredFile, StoredFiles, StoredSegment};
use flash_io::FileId;
use flash_list::Items;
use std::alloc::Global;

#[tactic(auto, unfolding(crate::specs::Edits::stable_at))]
fn stable_of(end: u64, bytes: &[u8]) -> Result<(Option<FileId>, &[u8]), Fault>
    ensures { seen (λ x. (x.0, x.1.now)) result ≡ stable_at end bytes.now }
{
    let (flag, rest) = u8_in(0, 1, here(end, bytes), end, bytes)?;
    if flag < 1 {
        return Ok((None, rest));
    }
    let (file, rest) = u32_of(end, rest)?;
    Ok((Some(file), rest))
}

#[tactic(auto, unfolding(crate::specs::Edits::file_at))]
fn file_of(end: u64, bytes: &[u8]) -> Result<(StoredFile, &[u8]), Fault>
    ensures { seen (λ x. (x.0, x.1.now)) result ≡ file_at end tt bytes.now }
{
    let (kind, rest) = u8_in(1, 2, here(end, bytes), end, bytes)?;
    if kind < 2 {
        let (file, rest) = u32_of(end, rest)?;
        return Ok((StoredFile::Tiny { file }, rest));
    }
    let (range, rest) = range_of(end, rest)?;
    Ok((StoredFile::DeleteRange { range }, rest))
}

fn each_of(alloc: Global, end: u64, count: u64, bytes: &[u8]) -> Result<(StoredFiles, &[u8]), Fault>
    ensures { Gives (λ x. (x.0, x.1.now)) result (each_file_at end count bytes.now) }
{
    let mut files = Items::new(alloc);
    let mut rest = bytes;
    for _ in 0..count {
        let (file, after) = file_of(end, rest)?;
        let Ok(()) = files.push(file) else {
            return Err(Fault::Memory);
        };
        rest = after;
    }
    Ok((files, rest))
}

#[tactic(auto, unfolding(crate::specs::Edits::delta_at))]
fn delta_of(alloc: Global, end: u64, bytes: &[u8]) -> Result<(StoredFiles, &[u8]), Fault>
    ensures { Gives (λ x. (x.0, x.1.now)) result (delta_at end bytes.now) }
{
    let (count, rest) = u64_of(end, bytes)?;
    each_of(alloc, end, count, rest)
}

#[tactic(auto, unfolding(crate::specs::Edits::segment_at))]
fn segment_of(alloc: Global, end: u64, bytes: &[u8]) -> Result<(StoredSegment, &[u8]), Fault>
    ensures { Gives (λ x. (x.0, x.1.now)) result (segment_at end bytes.now) }
{
    let (id, rest) = u32_of(end, bytes)?;
    let (range, rest) = range_of(end, rest)?;
    let (stable, rest) = stable_of(end, rest)?;
    let (delta, rest) = delta_of(alloc, end, rest)?;
    Ok((
        StoredSegment {
            id,
            range,
            stable,
            delta,
        },
        rest,
    ))
}

#[tactic(auto, unfolding(crate::specs::Edits::bytes_at))]
fn chain_of(end: u64, bytes: &[u8]) -> Result<([u8; 32], &[u8]), Fault>
    ensures { seen (λ x. (x.0, x.1.now)) result ≡ bytes_at end 32 bytes.now }
{
    if bytes.len() < 32 {
        return Err(here(end, bytes));
    }
    let (front, rest) = bytes.split_at(32);
    let mut chain = [0; 32];
    chain.copy_from_slice(front);
    Ok((chain, rest))
}

#[tactic(auto, unfolding(crate::specs::Edits::mark_at))]
fn mark_of(end: u64, bytes: &[u8]) -> Result<(Edit, &[u8]), Fault>
    ensures { seen (λ x. (x.0, x.1.now)) result ≡ mark_at end bytes.now }
{
    let (entries, rest) = u64_of(end, bytes)?;
    let (chain, rest) = chain_of(end, rest)?;
    Ok((Edit::High { entries, chain }, rest))
}

#[tactic(auto, unfolding(crate::specs::Edits::next_at, crate::specs::Edits::put_at, crate::specs::Edits::drop_at, crate::specs::Edits::point_at, crate::specs::Edits::regions_at, crate::specs::Edits::count_at))]
fn edit_of(alloc: Global, end: u64, kind: u8, bytes: &[u8]) -> Result<(Edit, &[u8]), Fault>
    ensures { Gives (λ x. (x.0, x.1.now)) result (edit_of end kind bytes.now) }
{
    match kind {
        1 => {
            let (file, rest) = u32_of(end, bytes)?;
            Ok((Edit::Next { file }, rest))
        }
        2 => {
            let (segment, rest) = segment_of(alloc, end, bytes)?;
            Ok((Edit::Segment { segment }, rest))
        }
        3 => {
            let (id, rest) = u32_of(end, bytes)?;
            Ok((Edit::Drop { id }, rest))
        }
        4 => mark_of(end, bytes),
        5 => {
            let (ts, rest) = u64_of(end, bytes)?;
            Ok((Edit::SafePoint { ts }, rest))
        }
        6 => {
            let (file, rest) = u32_of(end, bytes)?;
            Ok((Edit::Regions { file }, rest))
        }
        _ => {
            let (entries, rest) = u64_of(end, bytes)?;
            Ok((Edit::Count { entries }, rest))
        }
    }
}

#[tactic(auto, unfolding(crate::specs::Edits::edit_at))]
fn one_edit(alloc: Global, end: u64, bytes: &[u8]) -> Result<(Edit, &[u8]), Fault>
    ensures { Gives (λ x. (x.0, x.1.now)) result (edit_at end bytes.now) }
{
    let (kind, rest) = u8_in(1, 7, here(end, bytes), end, bytes)?;
    edit_of(alloc, end, kind, rest)
}

/// All edits of a record that ends at `stop`.
pub fn edits_of(alloc: Global, stop: u64, bytes: &[u8]) -> Result<Edits, Fault>
    ensures { Gives (λ x. x) result (edits_of stop bytes.now) }
{
    let mut edits = Items::new(alloc);
    let mut rest = bytes;
    for _ in 0..bytes.len() {
        if rest.is_empty() {
            return Ok(edits);
        }
        let (edit, after) = one_edit(alloc, stop, rest)?;
        let Ok(()) = edits.push(edit) else {
            return Err(Fault::Memory);
        };
        rest = after;
    }
    Ok(edits)
}
