// Neighbours that fit in one chunk.
ghost use Rattle.std.specs.Prelude.{◌≡◌, ◌<◌, ◌≤◌, ◌+◌, ◌++◌, true, length, IfOk};
ghost use Rattle.delta_index.specs.Chunks.{flat, FitInOne};

use crate::Memory;
use crate::change::with_one;
use crate::chunks::Chunks;
use crate::gather::Entry;
use crate::merge::add_all;
use std::alloc::Global;

// The same entries, with neighbours of together at most 256 in one chunk. With no such neighbours
// the chunks stay as they are.
pub fn joined(alloc: Global, chunks: Chunks) -> Result<Chunks, Memory>
    ensures { IfOk result (λ all. flat all ≡ flat chunks) }
{
    if !any_fits(&chunks) {
        return Ok(chunks);
    }
    all_joined(alloc, &chunks)
}

fn any_fits(chunks: &Chunks) -> bool {
    for j in 0..chunks.count() {
        if fits_next(chunks, j) {
            return true;
        }
    }
    false
}

fn all_joined(alloc: Global, chunks: &Chunks) -> Result<Chunks, Memory>
    ensures { IfOk result (λ all. flat all ≡ flat chunks.now) }
{
    let mut out = Chunks::new(alloc);
    let mut j = 0;
    while j < chunks.count() {
        if fits_next(chunks, j) {
            out = with_both(alloc, out, chunks.chunk(j), chunks.chunk(j + 1))?;
            j += 2;
        } else {
            out = out.pushed(chunks.share(j)?)?;
            j += 1;
        }
    }
    Ok(out)
}

// Whether there is a next chunk that fits in one with this.
fn fits_next(chunks: &Chunks, j: usize) -> bool
    requires { j < length chunks.now }
    ensures { result ≡ true → FitInOne chunks.now j }
{
    if chunks.count() - j == 1 {
        return false;
    }
    let room = 256 - chunks.chunk(j).len();
    if chunks.chunk(j + 1).len() <= room {
        return true;
    }
    false
}

// The chunks, with one more of the entries of two.
fn with_both(
    alloc: Global,
    out: Chunks,
    first: &[Entry],
    second: &[Entry],
) -> Result<Chunks, Memory>
    requires some { 1 ≤ length first.now }
    requires few { length first.now + length second.now ≤ 256 }
    ensures { IfOk result (λ all. flat all ≡ flat out ++ (first.now ++ second.now)) }
{
    let mut both = Vec::from_slice(alloc, first).map_err(|_| Memory)?;
    add_all(&mut both, second)?;
    with_one(alloc, out, both.as_slice())
}
