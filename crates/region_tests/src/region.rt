// The happy paths of the calls that take memory.
ghost use Rattle.std.specs.Prelude.{◌≡◌, IfOk, None, pos, true};
ghost use Rattle.std.specs.List.{list_all};
ghost use Rattle.flash_types.specs.Ranges.{holds};
ghost use Rattle.region_state.specs.Folding.{lies_in};
ghost use Rattle.region_state.specs.State.{born};

use column_block::{Column, Kind, Schema};
use committed_log::FamilyOp;
use flash_types::{Epoch, HandleRange};
use kv_codec::LockKind;
use log_codec::OpBytes;
use region_state::Region;
use std::alloc::Global;
use std::test::Fail;

fn region(alloc: Global, low: i64, high: Option<i64>) -> Region
    ensures { result ≡ born (record { low = low; high = high }) (record { conf_ver = 1; version = 1 }) 5 }
{
    let epoch = Epoch {
        conf_ver: 1,
        version: 1,
    };
    Region::new(alloc, HandleRange { low, high }, epoch, 5)
}

fn schema(alloc: Global) -> Result<Schema, Fail> {
    let number = Column {
        id: 1,
        kind: Kind::Int,
    };
    let columns = Vec::from_array(alloc, [number])?;
    Ok(Schema::new(columns).ok().ok_or("no schema")?)
}

#[test]
fn a_delete_is_a_version_without_cells(rt: HostRuntime) -> Result<(), Fail> {
    let schema = schema(rt.alloc())?;
    let region = region(rt.alloc(), 0, None);
    let op = FamilyOp::Write {
        handle: 7,
        ts: 20,
        start: 19,
        gone: true,
        short: None,
    };
    let ops = Vec::from_array(rt.alloc(), [op])?;
    let block = region.versions(&ops, &schema)?;
    assert_eq!(rt; block.len(), 1);
    assert!(rt; block.at(0).gone);
    assert_eq!(rt; block.at(0).handle, 7);
    assert_eq!(rt; block.at(0).ts, 20);
    Ok(())
}

#[test]
fn a_region_is_parted_and_joined_again(rt: HostRuntime) -> Result<(), Fail> {
    let mut lower = region(rt.alloc(), 0, Some(100));
    let upper = lower.split_off(50, 6)?;
    assert_eq!(rt; lower.range().high, Some(50));
    assert_eq!(rt; upper.range().low, 50);
    assert_eq!(rt; upper.index(), 5);
    let joined = lower.absorb(upper, 7);
    assert!(rt; joined.is_ok());
    assert_eq!(rt; lower.range().high, Some(100));
    assert_eq!(rt; lower.epoch().version, 3);
    assert_eq!(rt; lower.index(), 7);
    Ok(())
}

#[test]
fn values_and_locks_come_and_go(rt: HostRuntime) -> Result<(), Fail> {
    let schema = schema(rt.alloc())?;
    let mut region = region(rt.alloc(), 0, None);
    // The row of 5 in column 1.
    let row = [128, 0, 1, 0, 0, 0, 1, 1, 0, 5];
    let value = FamilyOp::Value {
        handle: 7,
        start: 8,
        bytes: OpBytes::from_slice(rt.alloc(), &row)?,
    };
    let lock = FamilyOp::Lock {
        handle: 7,
        kind: LockKind::Put,
        start: 8,
    };
    let ops = Vec::from_array(rt.alloc(), [value, lock])?;
    let block = region.fold(6, &ops, &schema)?;
    assert_eq!(rt; block.len(), 0);
    assert_eq!(rt; region.values(), 1);
    assert_eq!(rt; region.first_lock(region.range(), 8), Some((7, 8)));
    let long = FamilyOp::Write {
        handle: 7,
        ts: 9,
        start: 8,
        gone: false,
        short: None,
    };
    let unlock = FamilyOp::Unlock { handle: 7 };
    let dropped = FamilyOp::DropValue {
        handle: 7,
        start: 8,
    };
    let short = FamilyOp::Write {
        handle: 9,
        ts: 10,
        start: 4,
        gone: false,
        short: Some(OpBytes::from_slice(rt.alloc(), &row)?),
    };
    let ops = Vec::from_array(rt.alloc(), [long, unlock, dropped, short])?;
    let block = region.fold(7, &ops, &schema)?;
    assert_eq!(rt; block.len(), 2);
    assert!(rt; !block.at(0).gone);
    assert_eq!(rt; block.at(0).cells.len(), 1);
    assert_eq!(rt; block.at(1).handle, 9);
    assert_eq!(rt; block.at(1).ts, 10);
    assert_eq!(rt; region.values(), 0);
    assert_eq!(rt; region.locks(), 0);
    assert_eq!(rt; region.index(), 7);
    Ok(())
}

// A value, or a lock, of a transaction that began at 8.
fn value(alloc: Global, handle: i64) -> Result<FamilyOp, Fail>
    requires { holds (record { low = pos 0; high = None }) handle ≡ true }
    ensures { IfOk result (λ op. lies_in (record { low = pos 0; high = None }) op ≡ true) }
{
    let Ok(bytes) = OpBytes::from_slice(alloc, b"value") else {
        return Err("memory".into());
    };
    Ok(FamilyOp::Value {
        handle,
        start: 8,
        bytes,
    })
}

fn lock(handle: i64) -> FamilyOp
    requires { holds (record { low = pos 0; high = None }) handle ≡ true }
    ensures { lies_in (record { low = pos 0; high = None }) result ≡ true }
{
    FamilyOp::Lock {
        handle,
        kind: LockKind::Put,
        start: 8,
    }
}

fn has(region: &Region, index: u64, values: usize, locks: usize) -> Result<(), Fail> {
    if region.index() == index && region.values() == values && region.locks() == locks {
        return Ok(());
    }
    Err(Fail::from(region.values()))
}

// Changes that are made, all of them.
fn makes(region: &mut Region, ops: &[FamilyOp], values: usize, locks: usize) -> Result<(), Fail>
    requires { list_all (lies_in region.old.descriptor.range) ops.now ≡ true }
{
    match region.advance(9, ops) {
        Ok(()) => has(region, 9, values, locks),
        Err(_) => Err("memory".into()),
    }
}

#[test]
fn several_puts_are_made(rt: HostRuntime) -> Result<(), Fail> {
    let mut region = region(rt.alloc(), 0, None);
    let (one, two) = (value(rt.alloc(), 1)?, value(rt.alloc(), 2)?);
    let ops = Vec::from_array(rt.alloc(), [one, lock(1), two, lock(2)])?;
    makes(&mut region, &ops, 2, 2)
}

#[test]
fn a_lock_is_put_behind_one_that_is_taken_out(rt: HostRuntime) -> Result<(), Fail> {
    let mut region = region(rt.alloc(), 0, None);
    let unlock = FamilyOp::Unlock { handle: 1 };
    let ops = Vec::from_array(rt.alloc(), [lock(1), lock(2), unlock, lock(3)])?;
    makes(&mut region, &ops, 0, 2)
}
