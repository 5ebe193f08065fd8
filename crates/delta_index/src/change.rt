// Chunks made anew where a change touches them, and shared where it doesn't.
ghost use Rattle.std.specs.Prelude.{◌≡◌, ◌<◌, ◌≤◌, ◌+◌, ◌++◌, true, [], length, drop, get_or, slice_get, fold, Some, IfOk};
ghost use Rattle.delta_index.specs.Indexes.{AreRising, put, cleared};
ghost use Rattle.delta_index.specs.Chunks.{flat, IsSized, IsCut, IsPart};

use crate::Memory;
use crate::chunks::Chunks;
use crate::gather::Entry;
use crate::merge::merged;
use flash_list::Items;
use flash_types::HandleRange;
use std::alloc::Global;
use std::cmp::Ordering;
use std::sync::Arc;

// The chunks with each of a file's entries put at its place.
pub fn extended_by(alloc: Global, old: &Chunks, file: &[Entry]) -> Result<Chunks, Memory>
    requires old { AreRising (flat old.now) }
    requires file { AreRising file.now }
    ensures { IfOk result (λ all. flat all ≡ fold put (flat old.now) file.now) }
{
    let mut out = Chunks::new(alloc);
    let mut news = file;
    for j in 0..old.count() {
        let (mine, others) = part(old, j, news);
        out = with_part(alloc, out, old, j, mine)?;
        news = others;
    }
    with_all(alloc, out, news)
}

// The new entries that go into a chunk, and those that go behind it.
fn part<'a>(old: &Chunks, j: usize, news: &'a [Entry]) -> (&'a [Entry], &'a [Entry])
    requires chunk { j < length old.now }
    requires old { AreRising (flat old.now) }
    requires news { AreRising news.now }
    ensures { IsPart old.now j news.now result.0.now result.1.now }
{
    if old.count() - j == 1 {
        return news.split_at(news.len());
    }
    let next = &old.chunk(j + 1)[0];
    news.split_at(below(news, next))
}

// The number of entries in front whose keys are below another's.
fn below(news: &[Entry], next: &Entry) -> usize
    requires { AreRising news.now }
    ensures { IsCut next.now.0 news.now result }
{
    for n in 0..news.len() {
        if news[n].0.cmp(&next.0) != Ordering::Less {
            return n;
        }
    }
    news.len()
}

// The chunks behind, with a chunk and its new entries.
fn with_part(
    alloc: Global,
    out: Chunks,
    old: &Chunks,
    j: usize,
    mine: &[Entry],
) -> Result<Chunks, Memory>
    requires chunk { j < length old.now }
    requires rising { AreRising mine.now }
    ensures { IfOk result (λ all. flat all ≡ flat out ++ fold put (get_or old.now j []) mine.now) }
{
    if mine.is_empty() {
        return out.pushed(old.share(j)?);
    }
    let all = merged(alloc, old.chunk(j), mine)?;
    with_all(alloc, out, all.as_slice())
}

// The chunks without the entries whose handles are in the range.
pub fn cleared_by(alloc: Global, old: &Chunks, range: HandleRange) -> Result<Chunks, Memory>
    requires { AreRising (flat old.now) }
    ensures { IfOk result (λ all. flat all ≡ cleared (flat old.now) range) }
{
    let mut out = Chunks::new(alloc);
    for j in 0..old.count() {
        out = with_left(alloc, out, old, j, range)?;
    }
    Ok(out)
}

// The chunks, and what the range leaves of one more.
#[tactic(auto, using(crate::proofs::Parts::rising_chunk))]
fn with_left(
    alloc: Global,
    out: Chunks,
    old: &Chunks,
    j: usize,
    range: HandleRange,
) -> Result<Chunks, Memory>
    requires chunk { j < length old.now }
    requires rising { AreRising (flat old.now) }
    ensures { IfOk result (λ all. flat all ≡ flat out ++ cleared (get_or old.now j []) range) }
{
    if is_apart(old.chunk(j), range) {
        return out.pushed(old.share(j)?);
    }
    let left = left(alloc, old.chunk(j), range)?;
    with_all(alloc, out, left.as_slice())
}

// Whether a chunk's handles all lie below the range or all above it.
fn is_apart(chunk: &[Entry], range: HandleRange) -> bool
    requires some { 1 ≤ length chunk.now }
    requires rising { AreRising chunk.now }
    ensures { result ≡ true → cleared chunk.now range ≡ chunk.now }
{
    let last = entry_at(chunk, chunk.len() - 1);
    if last.0.0 < range.low {
        return true;
    }
    let Some(high) = range.high else {
        return false;
    };
    let first = entry_at(chunk, 0);
    if high <= first.0.0 {
        return true;
    }
    false
}

fn entry_at(entries: &[Entry], k: usize) -> Entry
    requires { k < length entries.now }
    ensures { slice_get entries.now k ≡ Some result }
{
    entries[k]
}

// The entries whose handles the range doesn't hold.
fn left(alloc: Global, entries: &[Entry], range: HandleRange) -> Result<Vec<Entry>, Memory>
    ensures { IfOk result (λ left. left.items ≡ cleared entries.now range) }
{
    let mut left = Vec::new(alloc);
    for entry in entries {
        if !range.holds(entry.0.0) && left.push(*entry).is_err() {
            return Err(Memory);
        }
    }
    Ok(left)
}

// The chunks with entries at the end, in as many chunks as these need.
fn with_all(alloc: Global, chunks: Chunks, entries: &[Entry]) -> Result<Chunks, Memory>
    ensures { IfOk result (λ all. flat all ≡ flat chunks ++ entries.now) }
{
    let mut out = chunks;
    let mut rest = entries;
    while !rest.is_empty() {
        let (front, back) = rest.split_at(piece(rest.len()));
        out = with_one(alloc, out, front)?;
        rest = back;
    }
    Ok(out)
}

// The chunks with one more of these entries.
pub fn with_one(alloc: Global, chunks: Chunks, entries: &[Entry]) -> Result<Chunks, Memory>
    requires { IsSized entries.now }
    ensures { IfOk result (λ all. flat all ≡ flat chunks ++ entries.now) }
{
    let Ok(items) = Items::from_slice(alloc, entries) else {
        return Err(Memory);
    };
    match Arc::new(alloc, items) {
        Ok(chunk) => chunks.pushed(chunk),
        Err(_) => Err(Memory),
    }
}

// How many of some entries go into one chunk. What takes two chunks is halved.
fn piece(len: usize) -> usize
    requires { 1 ≤ len }
    ensures least { 1 ≤ result }
    ensures most { result ≤ 256 }
    ensures within { result ≤ len }
{
    if len <= 256 {
        len
    } else if len <= 512 {
        len / 2
    } else {
        256
    }
}
