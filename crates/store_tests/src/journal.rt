ghost use Rattle.std.specs.Prelude.{◌≡◌, true, OnOk, IfOk};
ghost use Rattle.manifest.specs.Stores.{IsNew, IsKept};

use column_block::{Column, Kind, Schema};
use flash_io::{Disk, DiskFault};
use flash_mem::MemDisk;
use manifest::{CommitError, Manifest, create, open};
use manifest_form::{Edit, root_of};
use std::alloc::{AllocError, Global};
use std::test::*;

fn schema(alloc: Global) -> Result<Schema, AllocError> {
    let column = Column {
        id: 1,
        kind: Kind::Int,
    };
    let columns = Vec::from_slice(alloc, &[column])?;
    match Schema::new(columns) {
        Ok(schema) => Ok(schema),
        Err(_) => Err(AllocError),
    }
}

// Commits a safe point.
pub(crate) fn point<D: Disk>(
    manifest: &mut Manifest,
    disk: &mut D,
    ts: u64,
) -> Result<(), CommitError>
    requires steadied { manifest.old.steadied ≡ true }
    requires kept { IsKept (D.may_leave disk.old) manifest.old }
    ensures steadied { manifest.new.steadied ≡ true }
    ensures kept { OnOk result (IsKept (D.may_leave disk.new) manifest.new) }
{
    manifest.commit(disk, &[Edit::SafePoint { ts }])
}

// Rolls a store that has numbers left.
pub(crate) fn rolled<D: Disk>(manifest: &mut Manifest, disk: &mut D) -> Result<(), CommitError>
    requires steadied { manifest.old.steadied ≡ true }
    requires kept { IsKept (D.may_leave disk.old) manifest.old }
    ensures steadied { OnOk result (manifest.new.steadied ≡ true) }
    ensures kept { OnOk result (IsKept (D.may_leave disk.new) manifest.new) }
{
    if manifest.state().next == u32::MAX {
        return Err(CommitError::Memory);
    }
    manifest.roll(disk)
}

// Commits the safe points 1, 2 and 3, rolls, and commits the safe point 4. It answers how many of
// the five were done.
fn later_steps<D: Disk>(manifest: &mut Manifest, disk: &mut D) -> u64
    requires steadied { manifest.old.steadied ≡ true }
    requires kept { IsKept (D.may_leave disk.old) manifest.old }
{
    if point(manifest, disk, 1).is_err() {
        return 0;
    }
    if point(manifest, disk, 2).is_err() {
        return 1;
    }
    if point(manifest, disk, 3).is_err() {
        return 2;
    }
    if rolled(manifest, disk).is_err() {
        return 3;
    }
    if point(manifest, disk, 4).is_err() {
        return 4;
    }
    5
}

// Makes a store and does the later steps. It answers how many of the six were done.
fn steps<D: Disk>(alloc: Global, disk: &mut D) -> u64
    requires new { D.tells → IsNew (D.files disk.old) }
{
    let Ok(schema) = schema(alloc) else {
        return 0;
    };
    let Ok(mut manifest) = create(alloc, disk, 9, &schema, [3; 32]) else {
        return 0;
    };
    later_steps(&mut manifest, disk).saturating_add(1)
}

// How many of the six steps an opening finds, of which the roll alone raises Next from 2 to 3;
// 9 where it finds something else.
fn found<D: Disk>(alloc: Global, disk: &mut D) -> u64 {
    match open(alloc, disk) {
        Ok(None) => 0,
        Ok(Some(manifest)) => {
            let state = manifest.state();
            let points = state.safe_point.saturating_add(1);
            points.saturating_add((state.next as u64).saturating_sub(2))
        }
        Err(_) => 9,
    }
}

// Makes a store, commits the safe point 7, and rolls where it is asked to.
pub(crate) fn seven<D: Disk>(alloc: Global, disk: &mut D, rolls: bool) -> Result<(), CommitError>
    requires new { D.tells → IsNew (D.files disk.old) }
{
    let schema = schema(alloc)?;
    let mut manifest = create(alloc, disk, 9, &schema, [3; 32])?;
    point(&mut manifest, disk, 7)?;
    if rolls {
        return rolled(&mut manifest, disk);
    }
    Ok(())
}

// The safe point that an opening finds.
pub(crate) fn safe_point<D: Disk>(alloc: Global, disk: &mut D) -> Option<u64> {
    match open(alloc, disk) {
        Ok(Some(manifest)) => Some(manifest.state().safe_point),
        _ => None,
    }
}

// A disk of which this call fails.
fn failing_at(alloc: Global, call: u64) -> Result<MemDisk, AllocError>
    ensures { IfOk result (λ disk. IsNew (⟦<MemDisk as Disk>⟧.files disk)) }
{
    let failing = Vec::from_slice(alloc, &[call])?;
    let mut disk = MemDisk::new(alloc);
    disk.set_failing(failing);
    Ok(disk)
}

// The steps on a disk with this root, which has no record, and a stray file 1.
fn steps_over<D: Disk>(alloc: Global, disk: &mut D, root: &[u8]) -> Result<u64, DiskFault> {
    if !matches!(root_of(root), Ok(None)) {
        return Ok(0);
    }
    disk.create(0, root)?;
    disk.create(1, &[7, 7, 7])?;
    Ok(steps(alloc, disk))
}

// Stages file 2 on a new store, and reads it.
fn staged<D: Disk>(alloc: Global, disk: &mut D) -> Result<Vec<u8>, CommitError>
    requires new { D.tells → IsNew (D.files disk.old) }
{
    let schema = schema(alloc)?;
    let manifest = create(alloc, disk, 9, &schema, [3; 32])?;
    if manifest.state().next > 2 {
        return Err(CommitError::Memory);
    }
    manifest.stage(disk, 2, &[1])?;
    let mut bytes = Vec::new(alloc);
    let _ = disk.read(2, 0, 10, &mut bytes)?;
    Ok(bytes)
}

#[test]
fn a_staged_file_is_read_back(rt: HostRuntime) {
    let mut disk = MemDisk::new(rt.alloc());
    let bytes = staged(rt.alloc(), &mut disk).expect(&rt, "room and no fault");
    assert!(rt; matches!(bytes.as_slice(), [1]));
    assert_eq!(rt; found(rt.alloc(), &mut disk), 1);
}

#[test]
fn a_stop_at_any_call_leaves_the_old_state_or_the_new_one(rt: HostRuntime) {
    for call in 1..33u64 {
        for k in 0..8u64 {
            let mut disk = failing_at(rt.alloc(), call).expect(&rt, "room");
            let done = steps(rt.alloc(), &mut disk);
            let mut left = disk.crash(k).expect(&rt, "room");
            let seen = found(rt.alloc(), &mut left);
            assert!(rt; seen >= done);
            assert!(rt; seen - done <= 1);
        }
    }
}

#[test]
fn making_a_store_takes_nine_calls_a_commit_four_and_a_roll_six(rt: HostRuntime) {
    for call in 1..33u64 {
        let mut disk = failing_at(rt.alloc(), call).expect(&rt, "room");
        let done = steps(rt.alloc(), &mut disk);
        let wanted = match call {
            0..=9 => 0,
            10..=21 => (call - 6) / 4,
            22..=27 => 4,
            28..=31 => 5,
            _ => 6,
        };
        assert_eq!(rt; done, wanted);
    }
}

#[test]
fn a_half_made_root_is_made_whole(rt: HostRuntime) {
    let roots: [&[u8]; 5] = [
        &[],
        &[0],
        &[1],
        &[9],
        &[0, 1, 2, 3, 4, 5, 6, 7, 8, 9, 10, 11, 12, 13, 14],
    ];
    for root in roots {
        let mut disk = MemDisk::new(rt.alloc());
        let done = steps_over(rt.alloc(), &mut disk, root).expect(&rt, "room");
        assert_eq!(rt; done, 6);
        assert_eq!(rt; found(rt.alloc(), &mut disk), 6);
    }
}

#[test]
fn a_safe_point_stays_where_the_store_is_opened_and_rolled(rt: HostRuntime) {
    for rolls in [false, true] {
        let mut disk = MemDisk::new(rt.alloc());
        seven(rt.alloc(), &mut disk, rolls).expect(&rt, "room and no fault");
        assert_eq!(rt; safe_point(rt.alloc(), &mut disk), Some(7));
    }
}
