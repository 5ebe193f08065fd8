// The tiny files of a delta that stand side by side.
ghost use Rattle.std.specs.Prelude.{◌≡◌, ◌<◌, ◌≤◌, ◌&&◌, ℕ, suc, true, false, length, slice_range, IfOk, IfSome, IfNone, OnOk, ◌++◌};
ghost use Rattle.std.specs.List.{AllByRecursion};
ghost use Rattle.column_file.specs.declared.file.ColumnFile.{ColumnFile};
ghost use Rattle.delta_layer.specs.Files.{is_tiny};
ghost use Rattle.delta_layer.specs.Overlay.{block_in};
ghost use Rattle.segment_laws.specs.Runs.{IsFirstRun, run_of, tiny_at_place};
ghost use Rattle.segment_work.specs.Jobs.{has_run};

use column_block::Block;
use column_file::ColumnFile;
use delta_layer::{DeltaLayer, DeltaView, Memory};
use segment_list::is_tiny;
use std::alloc::Global;

// Whether a tiny file stands at a place of a layer.
fn is_tiny_in(layer: &DeltaLayer, place: usize) -> bool
    ensures { result ≡ tiny_at_place layer.now place }
{
    place < layer.files() && is_tiny(layer.file(place))
}

// The same of a view.
fn is_tiny_at(delta: &DeltaView, place: usize) -> bool
    ensures { result ≡ tiny_at_place delta.now place }
{
    place < delta.files() && is_tiny(delta.file(place))
}

/// Whether two tiny files of the layer stand side by side.
pub fn has_run(layer: &DeltaLayer) -> bool
    ensures { result ≡ has_run layer.now }
{
    for i in 0..layer.files() {
        if is_tiny_in(layer, i) && is_tiny_in(layer, i + 1) {
            return true;
        }
    }
    false
}

// The first place of a tiny file behind which another stands.
fn first_pair(delta: &DeltaView) -> Option<usize>
    ensures found { IfSome result (λ from.
        (tiny_at_place delta.now from && tiny_at_place delta.now (suc from)) ≡ true) }
    ensures first { IfSome result (λ from. (k : ℕ) → k < from →
        (tiny_at_place delta.now k && tiny_at_place delta.now (suc k)) ≡ false) }
    ensures none { IfNone result (has_run delta.now ≡ false) }
{
    for i in 0..delta.files() {
        if is_tiny_at(delta, i) && is_tiny_at(delta, i + 1) {
            return Some(i);
        }
    }
    None
}

// The place where a run of tiny files that begins at a place ends.
fn run_end(delta: &DeltaView, from: usize) -> usize
    requires { (tiny_at_place delta.now from && tiny_at_place delta.now (suc from)) ≡ true }
    ensures many { suc from < result }
    ensures within { result ≤ length delta.now }
    ensures tinies { AllByRecursion (λ (f : ColumnFile). is_tiny f ≡ true)
        (slice_range delta.now from result) }
    ensures ends { tiny_at_place delta.now result ≡ false }
{
    for to in from..delta.files() {
        if !is_tiny_at(delta, to) {
            return to;
        }
    }
    delta.files()
}

/// The first run of two or more tiny files side by side: the place of the first of them, and the
/// one behind the last. It looks at each file once.
pub fn first_run(delta: &DeltaView) -> (usize, usize)
    requires { has_run delta.now ≡ true }
    ensures { IsFirstRun delta.now result.0 result.1 }
{
    let Some(from) = first_pair(delta) else {
        unreachable!();
    };
    (from, run_end(delta, from))
}

// Adds a file's versions, which are shared.
fn add_file(versions: &mut Block, file: &ColumnFile) -> Result<(), Memory>
    ensures { OnOk result (versions.new ≡ versions.old ++ block_in file.now) }
{
    let block = match file {
        ColumnFile::Mem { block } => block,
        ColumnFile::Tiny { block, .. } => block,
        ColumnFile::DeleteRange { .. } => return Ok(()),
    };
    match versions.append(block) {
        Ok(()) => Ok(()),
        Err(_) => Err(Memory),
    }
}

/// The versions of the files from..to, one file behind the other. They are shared.
pub fn versions_in(
    delta: &DeltaView,
    from: usize,
    to: usize,
    alloc: Global,
) -> Result<Block, Memory>
    requires order { from ≤ to }
    requires within { to ≤ length delta.now }
    ensures { IfOk result (λ versions. versions ≡ run_of delta.now from to) }
{
    let mut versions = Block::new(alloc);
    for i in from..to {
        add_file(&mut versions, delta.file(i))?;
    }
    Ok(versions)
}
