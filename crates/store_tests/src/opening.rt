// Stores that are opened, made sure of, and written again.
ghost use Rattle.std.specs.Prelude.{◌≡◌, true, IfSome};
ghost use Rattle.manifest.specs.Stores.{IsKept};

use crate::journal::{point, rolled, safe_point, seven};
use flash_io::Disk;
use flash_mem::MemDisk;
use manifest::{CommitError, Manifest, open};
use manifest_form::Edit;
use std::alloc::Global;
use std::test::*;

// Opens the store and makes sure of it.
fn steadied<D: Disk>(alloc: Global, disk: &mut D) -> Option<Manifest>
    ensures { IfSome result (λ m. (m.steadied ≡ true) × IsKept (D.may_leave disk.new) m) }
{
    let Ok(Some(mut manifest)) = open(alloc, disk) else {
        return None;
    };
    match manifest.steady(disk) {
        Ok(()) => Some(manifest),
        Err(_) => None,
    }
}

// Opens the store, makes sure of it and commits the safe point 8. It answers whether that was done.
fn goes_on<D: Disk>(alloc: Global, disk: &mut D) -> bool {
    let Some(mut manifest) = steadied(alloc, disk) else {
        return false;
    };
    point(&mut manifest, disk, 8).is_ok()
}

// Commits the count 5 where it is asked to, and rolls.
fn counted<D: Disk>(alloc: Global, disk: &mut D, counts: bool) -> Result<(), CommitError> {
    let Some(mut manifest) = steadied(alloc, disk) else {
        return Err(CommitError::Memory);
    };
    if counts {
        manifest.commit(disk, &[Edit::Count { entries: 5 }])?;
    }
    rolled(&mut manifest, disk)
}

// The count that an opening finds.
fn count<D: Disk>(alloc: Global, disk: &mut D) -> Option<u64> {
    match open(alloc, disk) {
        Ok(Some(manifest)) => manifest.state().count,
        _ => None,
    }
}

#[test]
fn an_opening_that_fails_at_any_call_leaves_a_store_that_goes_on(rt: HostRuntime) {
    for call in 1..8u64 {
        let mut made = MemDisk::new(rt.alloc());
        seven(rt.alloc(), &mut made, false).expect(&rt, "room and no fault");
        let mut disk = made.crash(call).expect(&rt, "room");
        disk.set_failing(vec![in rt.alloc(); call].expect(&rt, "room"));
        assert!(rt; !goes_on(rt.alloc(), &mut disk));
        assert_eq!(rt; safe_point(rt.alloc(), &mut disk), Some(7));
        assert!(rt; goes_on(rt.alloc(), &mut disk));
        let mut left = disk.crash(call).expect(&rt, "room");
        assert_eq!(rt; safe_point(rt.alloc(), &mut left), Some(8));
    }
}

#[test]
fn a_store_has_a_count_where_one_was_committed(rt: HostRuntime) {
    for counts in [false, true] {
        let mut disk = MemDisk::new(rt.alloc());
        seven(rt.alloc(), &mut disk, false).expect(&rt, "room and no fault");
        counted(rt.alloc(), &mut disk, counts).expect(&rt, "room and no fault");
        let wanted = if counts { Some(5) } else { None };
        assert_eq!(rt; count(rt.alloc(), &mut disk), wanted);
    }
}
