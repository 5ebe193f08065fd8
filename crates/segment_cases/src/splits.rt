// The steps of a split.
ghost use Rattle.std.specs.Prelude.{◌<◌, IfOk};

use crate::bench::Bench;
use crate::files::{opened, reader};
use crate::show::show_versions;
use crate::trouble::Trouble;
use column_block::Schema;
use delta_layer::{Built, Piece};
use flash_mem::MemGrip;
use segment_split::{build, choose};
use std::alloc::Global;

// The handle that is chosen, and the split there, in packs of so many versions.
fn split(alloc: Global, bench: &Bench, pack_rows: u32) -> Result<(i64, Built<MemGrip>), Trouble>
    requires { 0 < pack_rows }
{
    let segment = &bench.segment;
    let view = segment.view(&bench.deltas)?;
    let mut reader = reader(alloc, segment.failing.as_slice())?;
    let at = choose(alloc, &view, &mut reader)?;
    let built = build(alloc, &view, at, &segment.schema, pack_rows, &mut reader)?;
    Ok((at, built))
}

/// Splits the segment in its middle, and prints what was built.
pub fn show_split<R: Print + AllocGlobal>(
    rt: &R,
    bench: &Bench,
    pack_rows: u32,
) -> Result<(), Trouble> {
    if pack_rows == 0 {
        return Err(Trouble::Word);
    }
    let (at, built) = split(rt.alloc(), bench, pack_rows)?;
    println!(rt; "{:?} at {at}, safe point {}", built.job, built.safe_point)?;
    for piece in built.pieces.as_slice() {
        show_piece(rt, piece, &bench.segment.schema)?;
    }
    Ok(())
}

fn show_piece<R: Print + AllocGlobal>(
    rt: &R,
    piece: &Piece,
    schema: &Schema,
) -> Result<(), Trouble> {
    println!(rt; "{:?}", piece.range)?;
    show_versions(rt, &piece.versions)?;
    println!(rt; "end")?;
    let file = opened(rt.alloc(), piece.bytes.as_slice(), schema)?;
    println!(rt; "{} packs", file.packs())?;
    Ok(())
}
