// A segment of two blocks: its views, its swaps, and what a work on an older view is told.
ghost use Rattle.std.specs.Prelude.{◌≡◌, ◌≤◌, length, IfOk};
ghost use Rattle.segment.specs.Swaps.{IsRest};

use crate::{Segment, Stale};
use column_block::{Block, Cells, Version};
use column_file::ColumnFile;
use delta_layer::DeltaLayer;
use flash_types::HandleRange;
use std::alloc::Global;
use std::test::Fail;

const ALL: HandleRange = HandleRange {
    low: i64::MIN,
    high: None,
};

// A block in memory with one row of this handle.
fn block_of(alloc: Global, handle: i64) -> Result<Block, Fail> {
    let mut block = Block::new(alloc);
    let version = Version {
        handle,
        ts: 10,
        gone: false,
        cells: Cells::new(alloc),
    };
    block.push(version).map_err(|_| "memory")?;
    Ok(block)
}

// A segment with two blocks in memory.
fn of_two_blocks(alloc: Global) -> Result<Segment<u8>, Fail>
    ensures files { IfOk result (λ segment. length segment.layer ≡ 2) }
    ensures epoch { IfOk result (λ segment. segment.epoch ≡ 0) }
{
    let Ok(mut segment) = Segment::new(3, ALL, DeltaLayer::new(alloc), None) else {
        return Err(Fail::from("memory"));
    };
    let block = block_of(alloc, 5)?;
    let Ok(()) = segment.absorb(ColumnFile::Mem { block }) else {
        return Err(Fail::from("memory"));
    };
    let block = block_of(alloc, 7)?;
    let Ok(()) = segment.absorb(ColumnFile::Mem { block }) else {
        return Err(Fail::from("memory"));
    };
    Ok(segment)
}

// Its delta without the first files.
fn rest_of(segment: &Segment<u8>, taken: usize) -> Result<DeltaLayer, Fail>
    requires { taken ≤ length segment.now.layer }
    ensures { IfOk result (IsRest segment.now.layer) }
{
    match segment.layer().rest(taken) {
        Ok(rest) => Ok(rest),
        Err(_) => Err(Fail::from("memory")),
    }
}

#[test]
fn a_new_segment_has_epoch_0(rt: HostRuntime) -> Result<(), Fail> {
    let segment = of_two_blocks(rt.alloc())?;
    assert_eq!(rt; segment.id(), 3);
    assert_eq!(rt; segment.epoch(), 0);
    assert_eq!(rt; segment.range(), ALL);
    assert_eq!(rt; segment.layer().files(), 2);
    assert!(rt; segment.stable().is_none());
    Ok(())
}

#[test]
fn a_view_stays_as_files_come_and_go(rt: HostRuntime) -> Result<(), Fail> {
    let mut segment = of_two_blocks(rt.alloc())?;
    let view = segment.view().map_err(|_| "memory")?;
    let last = segment.take_back();
    assert!(rt; last.is_some());
    assert_eq!(rt; segment.layer().files(), 1);
    let first = segment.take_back();
    assert!(rt; first.is_some());
    assert!(rt; segment.take_back().is_none());
    assert_eq!(rt; view.delta.files(), 2);
    assert_eq!(rt; view.epoch, 0);
    assert_eq!(rt; segment.epoch(), 0);
    Ok(())
}

#[test]
fn the_second_of_two_swaps_is_stale(rt: HostRuntime) -> Result<(), Fail> {
    let mut segment = of_two_blocks(rt.alloc())?;
    let rest = rest_of(&segment, 1)?;
    assert_eq!(rt; rest.files(), 1);
    assert_eq!(rt; segment.swap(None, rest, 0), Ok(()));
    assert_eq!(rt; segment.epoch(), 1);
    assert_eq!(rt; segment.layer().files(), 1);
    let stale = Stale {
        expected: 0,
        found: Some(1),
    };
    let none = rest_of(&segment, 0)?;
    assert_eq!(rt; segment.swap(None, none, 0), Err(stale));
    assert_eq!(rt; segment.layer().files(), 1);
    Ok(())
}
