// What a collection keeps of one row's versions, and of two rows.
use crate::keep;
use column_block::{Block, Cells, Version};
use flash_types::{Handle, Ts};
use std::alloc::Global;
use std::test::Fail;

// The block of these versions, each with its handle, its timestamp and whether it is a delete.
fn block_of(alloc: Global, versions: &[(Handle, Ts, bool)]) -> Result<Block, Fail> {
    let mut block = Block::new(alloc);
    for (handle, ts, gone) in versions {
        let version = Version {
            handle: *handle,
            ts: *ts,
            gone: *gone,
            cells: Cells::new(alloc),
        };
        block.push(version).map_err(|_| "memory")?;
    }
    Ok(block)
}

// What a collection keeps of these versions.
fn kept(
    alloc: Global,
    versions: &[(Handle, Ts, bool)],
    safe_point: Ts,
) -> Result<Vec<(Handle, Ts, bool)>, Fail> {
    let block = keep(alloc, &block_of(alloc, versions)?, safe_point)?;
    let mut list = Vec::new(alloc);
    for i in 0..block.len() {
        list.push((block.handle(i), block.ts(i), block.at(i).gone))?;
    }
    Ok(list)
}

#[test]
fn newest_put_at_the_safe_point_stays(rt: HostRuntime) -> Result<(), Fail> {
    let two_puts = kept(rt.alloc(), &[(7, 50, false), (7, 80, false)], 100)?;
    assert_eq!(rt; two_puts.as_slice(), [(7, 80, false)].as_slice());

    let at_the_point = kept(rt.alloc(), &[(7, 50, false), (7, 80, false)], 80)?;
    assert_eq!(rt; at_the_point.as_slice(), [(7, 80, false)].as_slice());

    let below = kept(rt.alloc(), &[(7, 50, false), (7, 80, false)], 79)?;
    assert_eq!(rt;
        below.as_slice(),
        [(7, 50, false), (7, 80, false)].as_slice()
    );
    Ok(())
}

#[test]
fn lone_delete_goes(rt: HostRuntime) -> Result<(), Fail> {
    let deleted = kept(rt.alloc(), &[(7, 50, false), (7, 80, true)], 100)?;
    assert_eq!(rt; deleted.len(), 0);
    Ok(())
}

#[test]
fn delete_below_a_kept_put_stays(rt: HostRuntime) -> Result<(), Fail> {
    let again = kept(
        rt.alloc(),
        &[(7, 50, false), (7, 80, true), (7, 120, false)],
        100,
    )?;
    assert_eq!(rt;
        again.as_slice(),
        [(7, 80, true), (7, 120, false)].as_slice()
    );
    Ok(())
}

#[test]
fn rows_are_collected_apart(rt: HostRuntime) -> Result<(), Fail> {
    let rows = kept(
        rt.alloc(),
        &[
            (-3, 50, false),
            (-3, 60, true),
            (7, 20, false),
            (8, 90, true),
        ],
        100,
    )?;
    assert_eq!(rt; rows.as_slice(), [(7, 20, false)].as_slice());
    Ok(())
}
