// Which packs of a piece's stable part a scan reads.
ghost use Rattle.std.specs.Prelude.{◌≡◌, ◌<◌, ◌+◌, ◌&&◌, length, slice_get, int_le, Some};
ghost use Rattle.std.specs.List.{list_any};
ghost use Rattle.delta_index.specs.Indexes.{Entry};
ghost use Rattle.stable_file.specs.Opened.{packs_of};
ghost use Rattle.stable_file.specs.declared.pack.Pack.{Pack};
ghost use Rattle.learner_read.specs.Packs.{before_of, delta_has, goes_on_from, goes_on_in, is_read, is_wanted, may_hold, reaches};

use crate::pieces::is_below;
use crate::snapshot::Snapshot;
use column_block::Cells;
use delta_layer::{DeltaView, SegmentView};
use flash_types::{Cut, Handle, HandleRange};
use sieve::Sieve;
use stable_file::StableFile;

// Whether the range may hold a handle from the least to the greatest.
fn reaches(range: HandleRange, least: Handle, greatest: Handle) -> bool
    ensures { result ≡ reaches range least greatest }
{
    if !is_below(least, range.high) {
        return false;
    }
    range.low <= greatest
}

fn reaches_some(cuts: &[Cut], least: Handle, greatest: Handle) -> bool
    ensures { result ≡ list_any (λ cut. reaches cut.range least greatest) cuts.now }
{
    cuts.iter().any(|cut| reaches(cut.range, least, greatest))
}

// Whether a read may ask for handles from the least to the greatest of a piece of this range.
fn is_wanted(
    clip: HandleRange,
    cuts: &[Cut],
    range: HandleRange,
    least: Handle,
    greatest: Handle,
) -> bool
    ensures { result ≡ is_wanted clip cuts.now range least greatest }
{
    if !reaches(range, least, greatest) {
        return false;
    }
    if !reaches(clip, least, greatest) {
        return false;
    }
    reaches_some(cuts, least, greatest)
}

// Whether rows of a pack may pass, by what the footer tells of their numbers.
fn may_hold<G, F: Fn(&Cells) -> bool>(sieve: &Sieve<F>, file: &StableFile<G>, k: u64) -> bool
    requires { k < length (packs_of file.now) }
    ensures { (pack : Pack) → slice_get (packs_of file.now) k ≡ Some pack → result ≡ may_hold sieve.now.bound pack }
{
    match sieve.column() {
        None => true,
        Some(column) => sieve.may_pass(column, &file.min_max(k, column)),
    }
}

// Whether a delta has a version of a handle from the least to the greatest.
fn delta_has(delta: &DeltaView, least: Handle, greatest: Handle) -> bool
    ensures { result ≡ delta_has delta.now least greatest }
{
    let index = delta.index();
    let place = index.first_from(least);
    if place == index.len() {
        return false;
    }
    let row = index.at(place);
    row.handle <= greatest
}

// Whether the pack before ends with the pack's least handle.
fn goes_on_from<G>(file: &StableFile<G>, k: u64) -> bool
    requires { k < length (packs_of file.now) }
    ensures { (pack : Pack) → slice_get (packs_of file.now) k ≡ Some pack → result ≡ goes_on_from (before_of (packs_of file.now) k) pack }
{
    if k == 0 {
        return false;
    }
    let greatest = file.high(k - 1);
    file.low(k) <= greatest
}

// Whether the pack behind begins with the pack's greatest handle.
fn goes_on_in<G>(file: &StableFile<G>, k: u64) -> bool
    requires { k < length (packs_of file.now) }
    ensures { (pack : Pack) → slice_get (packs_of file.now) k ≡ Some pack → result ≡ goes_on_in pack (slice_get (packs_of file.now) (k + 1)) }
{
    let last = file.packs() - 1;
    if k == last {
        return false;
    }
    let greatest = file.high(k);
    file.low(k + 1) <= greatest
}

// Whether a scan reads a pack of the piece's stable file.
pub fn is_read<G, F: Fn(&Cells) -> bool>(
    snapshot: &Snapshot<G>,
    sieve: &Sieve<F>,
    piece: &SegmentView<G>,
    file: &StableFile<G>,
    k: u64,
) -> bool
    requires { k < length (packs_of file.now) }
    ensures { (pack : Pack) → slice_get (packs_of file.now) k ≡ Some pack → result ≡ is_read snapshot.now sieve.now.bound piece.now (before_of (packs_of file.now) k) pack (slice_get (packs_of file.now) (k + 1)) }
{
    let least = file.low(k);
    let greatest = file.high(k);
    if !is_wanted(
        snapshot.clip(),
        snapshot.cuts(),
        piece.range,
        least,
        greatest,
    ) {
        return false;
    }
    if may_hold(sieve, file, k) {
        return true;
    }
    if delta_has(&piece.delta, least, greatest) {
        return true;
    }
    if goes_on_from(file, k) {
        return true;
    }
    goes_on_in(file, k)
}
