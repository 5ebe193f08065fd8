use flash_types::{Epoch, HandleRange};
use region_file::{Entries, Entry, TableError, read_regions, write_regions};
use region_state::Region;
use std::test::*;

// Region 1 is live at index 6 with the handles from 0 below 100, a value of handle 5 at 7 and a lock
// on it with start 8; region 2 is gone at index 7.
const FILE: [u8; 130] = [
    70, 76, 82, 71, 0, 0, 0, 0, 0, 0, 0, 2, 0, 0, 0, 1, 1, 0, 0, 0, 0, 0, 0, 0, 6, 0, 0, 0, 0, 0,
    0, 0, 1, 0, 0, 0, 0, 0, 0, 0, 1, 0, 0, 0, 0, 0, 0, 0, 0, 1, 0, 0, 0, 0, 0, 0, 0, 100, 0, 0, 0,
    0, 0, 0, 0, 1, 0, 0, 0, 0, 0, 0, 0, 5, 0, 0, 0, 0, 0, 0, 0, 7, 0, 0, 0, 0, 0, 0, 0, 2, 97, 98,
    0, 0, 0, 0, 0, 0, 0, 1, 0, 0, 0, 0, 0, 0, 0, 5, 80, 0, 0, 0, 0, 0, 0, 0, 8, 0, 0, 0, 2, 3, 0,
    0, 0, 0, 0, 0, 0, 7,
];

#[test]
fn a_file_is_read_and_written_again(rt: HostRuntime) -> Result<(), Fail> {
    let regions = read_regions(rt.alloc(), &FILE).ok().ok_or("a table")?;
    assert_eq!(rt; regions.len(), 2);
    match regions.get(&1) {
        Some(Entry::There { region }) => {
            assert_eq!(rt; region.index(), 6);
            assert_eq!(rt; region.range().high, Some(100));
            assert_eq!(rt; region.target(), None);
            assert_eq!(rt; region.values(), 1);
            assert_eq!(rt; region.locks(), 1);
            assert_eq!(rt; region.first_lock(region.range(), 8), Some((5, 8)));
        }
        _ => return Err("a live region".into()),
    }
    assert!(rt; matches!(regions.get(&2), Some(Entry::Gone { index: 7 })));
    let mut bytes = Vec::new(rt.alloc());
    assert!(rt; write_regions(&regions, &mut bytes).is_ok());
    assert_eq!(rt; bytes.as_slice(), FILE.as_slice());
    Ok(())
}

#[test]
fn a_prepared_region_has_a_target(rt: HostRuntime) -> Result<(), Fail> {
    let mut regions: Entries = std::collections::BTreeMap::new(rt.alloc());
    let epoch = Epoch {
        conf_ver: 1,
        version: 1,
    };
    let all = HandleRange {
        low: i64::MIN,
        high: None,
    };
    let mut region = Region::new(rt.alloc(), all, epoch, 5);
    region.set_target(3);
    assert!(rt; regions.insert(1, Entry::There { region }).is_ok());
    let mut bytes = Vec::new(rt.alloc());
    assert!(rt; write_regions(&regions, &mut bytes).is_ok());
    let again = read_regions(rt.alloc(), &bytes).ok().ok_or("a table")?;
    match again.get(&1) {
        Some(Entry::There { region }) => assert_eq!(rt; region.target(), Some(3)),
        _ => return Err("a prepared region".into()),
    }
    Ok(())
}

// A place, the byte that is put there, and where the file is damaged then.
const DAMAGE: [(usize, u8, u64); 9] = [
    (0, 71, 0),
    (16, 4, 16),
    (49, 2, 49),
    (66, 1, 66),
    (82, 1, 130),
    (100, 128, 100),
    (108, 82, 108),
    (120, 1, 117),
    (121, 1, 130),
];

#[test]
fn damage_is_named_by_its_place(rt: HostRuntime) -> Result<(), Fail> {
    for (place, byte, at) in &DAMAGE {
        let mut bytes = FILE;
        if let Some(there) = bytes.get_mut(*place) {
            *there = *byte;
        }
        match read_regions(rt.alloc(), &bytes) {
            Err(TableError::Damaged { at: found }) => assert_eq!(rt; found, *at),
            _ => return Err("a damaged file".into()),
        }
    }
    let (short, _) = FILE.split_at(129);
    assert!(rt;
        matches!(
            read_regions(rt.alloc(), short),
            Err(TableError::Damaged { at: 129 })
        )
    );
    Ok(())
}

#[test]
fn bytes_behind_the_end_are_named(rt: HostRuntime) -> Result<(), Fail> {
    let mut bytes = Vec::from_slice(rt.alloc(), &FILE)?;
    bytes.push(0)?;
    assert!(rt;
        matches!(
            read_regions(rt.alloc(), &bytes),
            Err(TableError::Damaged { at: 130 })
        )
    );
    Ok(())
}
