use column_block::{Column, Kind, Schema};
use committed_log::{Descriptor, Region};
use flash_types::{Epoch, HandleRange};
use kv_codec::{WriteKind, encode_key, put_ts, write_write};
use log_codec::{Body, Entry, Family, Op, OpBytes, Ops};
use row_store::{SmallLog, applied, is_settled, next, next_of, place, region, state};
use std::alloc::{AllocError, Global};
use std::test::*;

// The row with 5 and `ab`.
const FIVE_AB: [u8; 15] = [128, 0, 2, 0, 0, 0, 1, 2, 1, 0, 3, 0, 5, 97, 98];

fn schema(alloc: Global) -> Result<Schema, Fail> {
    let columns = vec![in alloc;
        Column {
            id: 1,
            kind: Kind::Int,
        },
        Column {
            id: 2,
            kind: Kind::Bytes,
        },
    ]?;
    let schema = Schema::new(columns).ok().ok_or("a schema")?;
    Ok(schema)
}

// A put of that row, committed at 10 by a transaction that began at 7.
fn put_at_10(alloc: Global, handle: i64) -> Result<Op, AllocError> {
    let mut key = Vec::new(alloc);
    encode_key(1, handle, &mut key)?;
    put_ts(10, &mut key)?;
    let mut value = Vec::new(alloc);
    write_write(WriteKind::Put, 7, Some(&FIVE_AB), &mut value)?;
    Ok(Op {
        put: true,
        family: Family::Write,
        key: OpBytes::from_slice(alloc, &key)?,
        value: OpBytes::from_slice(alloc, &value)?,
    })
}

fn opened(region: u32, low: i64, high: Option<i64>) -> Entry {
    Entry {
        region,
        index: 5,
        body: Body::Open {
            conf_ver: 1,
            version: 1,
            low,
            high,
        },
    }
}

// Region 1 has the handles below 100 and is merged into region 2, which has the others.
fn two_merged(alloc: Global) -> Result<Vec<Entry>, Fail> {
    let ops = vec![in alloc; put_at_10(alloc, 5)?]?;
    let entries = vec![in alloc;
        opened(1, i64::MIN, Some(100)),
        opened(2, 100, None),
        Entry {
            region: 1,
            index: 6,
            body: Body::Write {
                ops: Ops::from_vec(ops),
            },
        },
        Entry {
            region: 1,
            index: 7,
            body: Body::Prepare { target: 2 },
        },
        Entry {
            region: 2,
            index: 6,
            body: Body::Commit { source: 1 },
        },
    ]?;
    Ok(entries)
}

fn part(low: i64, high: Option<i64>, conf_ver: u64, version: u64, index: u64) -> Descriptor {
    Descriptor {
        range: HandleRange { low, high },
        epoch: Epoch { conf_ver, version },
        index,
    }
}

#[test]
fn regions_at_a_set_are_those_of_the_definitions(rt: HostRuntime) -> Result<(), Fail> {
    let alloc = rt.alloc();
    let schema = schema(alloc)?;
    let entries = two_merged(alloc)?;
    let log = SmallLog {
        table: 1,
        schema: &schema,
        entries: &entries,
    };
    let opens = [true, true];
    let early = applied(alloc, &log, &opens, 1);
    assert_eq!(rt; early, Ok(Region::Live(part(i64::MIN, Some(100), 1, 1, 5))));
    assert_eq!(rt; next(&log, &opens, 1), Some(2));
    let before = [true, true, true, true, false];
    let prepared = Region::Prepared(part(i64::MIN, Some(100), 2, 2, 7), 2);
    assert_eq!(rt; applied(alloc, &log, &before, 1), Ok(prepared));
    assert_eq!(rt; next(&log, &before, 1), Some(4));
    assert!(rt; is_settled(&log, &before, 4, 1));
    assert!(rt; !is_settled(&log, &before, 5, 1));
    let all = [true; 5];
    let whole = Region::Live(part(i64::MIN, None, 1, 3, 6));
    assert_eq!(rt; applied(alloc, &log, &all, 2), Ok(whole));
    assert_eq!(rt; applied(alloc, &log, &all, 1), Ok(Region::Gone(7)));
    assert_eq!(rt; next(&log, &all, 2), None);
    Ok(())
}

#[test]
fn places_of_indexes_are_those_of_the_definitions(rt: HostRuntime) -> Result<(), Fail> {
    let alloc = rt.alloc();
    let schema = schema(alloc)?;
    let entries = two_merged(alloc)?;
    let log = SmallLog {
        table: 1,
        schema: &schema,
        entries: &entries,
    };
    assert_eq!(rt; place(alloc, &log, 1, 6), Ok(Some(2)));
    assert_eq!(rt; place(alloc, &log, 1, 8), Ok(None));
    assert_eq!(rt; next_of(alloc, &log, 1, 7), Ok(Some(4)));
    assert_eq!(rt; next_of(alloc, &log, 2, 6), Ok(None));
    assert_eq!(rt; state(alloc, &log, 9, 5), Ok(Region::Unborn));
    let live = Region::Live(part(i64::MIN, Some(100), 1, 1, 6));
    assert_eq!(rt; state(alloc, &log, 1, 6), Ok(live));
    Ok(())
}
