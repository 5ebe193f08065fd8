use column_block::{Bound, Column, Kind, Schema};
use flash_types::{Ask, AskRegion, Cut, Epoch, HandleRange, Refusal, Wants};
use kv_codec::{LockKind, WriteKind, encode_key, put_ts, write_lock, write_write};
use log_codec::{Body, Entry, Family, Op, OpBytes, Ops};
use row_reads::{Reply, answer, kept, refused, rows};
use row_store::SmallLog;
use std::alloc::{AllocError, Global};
use std::test::*;

// The row with 5 and `ab`.
const FIVE_AB: [u8; 15] = [128, 0, 2, 0, 0, 0, 1, 2, 1, 0, 3, 0, 5, 97, 98];

const ALL: HandleRange = HandleRange {
    low: i64::MIN,
    high: None,
};

fn schema(alloc: Global) -> Result<Schema, Fail> {
    let columns = vec![in alloc;
        Column {
            id: 1,
            kind: Kind::Int,
        },
        Column {
            id: 2,
            kind: Kind::Bytes,
        },
    ]?;
    let schema = Schema::new(columns).ok().ok_or("a schema")?;
    Ok(schema)
}

fn entry(region: u32, index: u64, body: Body) -> Entry {
    Entry {
        region,
        index,
        body,
    }
}

fn open_all() -> Entry {
    entry(
        1,
        5,
        Body::Open {
            conf_ver: 1,
            version: 1,
            low: i64::MIN,
            high: None,
        },
    )
}

// A put of that row, or a delete, committed at `ts` by a transaction that began three before.
fn record(alloc: Global, handle: i64, ts: u64, put: bool) -> Result<Op, AllocError> {
    let mut key = Vec::new(alloc);
    encode_key(1, handle, &mut key)?;
    put_ts(ts, &mut key)?;
    let mut value = Vec::new(alloc);
    let start = ts.saturating_sub(3);
    if put {
        write_write(WriteKind::Put, start, Some(&FIVE_AB), &mut value)?;
    } else {
        write_write(WriteKind::Delete, start, None, &mut value)?;
    }
    Ok(Op {
        put: true,
        family: Family::Write,
        key: OpBytes::from_slice(alloc, &key)?,
        value: OpBytes::from_slice(alloc, &value)?,
    })
}

// A lock of a transaction that began at 8.
fn lock(alloc: Global, handle: i64, kind: LockKind) -> Result<Op, AllocError> {
    let mut key = Vec::new(alloc);
    encode_key(1, handle, &mut key)?;
    let mut value = Vec::new(alloc);
    write_lock(kind, b"a", 8, 0, &mut value)?;
    Ok(Op {
        put: true,
        family: Family::Lock,
        key: OpBytes::from_slice(alloc, &key)?,
        value: OpBytes::from_slice(alloc, &value)?,
    })
}

fn write(alloc: Global, index: u64, op: Op) -> Result<Entry, AllocError> {
    let ops = vec![in alloc; op]?;
    Ok(entry(
        1,
        index,
        Body::Write {
            ops: Ops::from_vec(ops),
        },
    ))
}

fn asked(region: u32, conf_ver: u64, version: u64, index: u64) -> AskRegion {
    AskRegion {
        region,
        epoch: Epoch { conf_ver, version },
        index,
    }
}

fn ask(alloc: Global, ts: u64, region: AskRegion, clip: HandleRange) -> Result<Ask, Fail> {
    let regions = vec![in alloc; region]?;
    let ask = Ask::new(ts, regions, clip).ok().ok_or("an ask")?;
    Ok(ask)
}

// The reply to a read of one region where all positions of the set are applied, its timestamp not
// below the safe point 0 and nothing in the files.
fn read(
    alloc: Global,
    entries: &[Entry],
    ask: &Ask,
    set: &[bool],
    mark: u64,
) -> Result<Reply, Fail> {
    let schema = schema(alloc)?;
    let log = SmallLog {
        table: 1,
        schema: &schema,
        entries,
    };
    let reply = answer(alloc, &log, ask, None, set, 0, mark)
        .ok()
        .ok_or("memory")?;
    Ok(reply)
}

fn refusal_of(reply: &Reply) -> Option<Refusal> {
    match reply {
        Reply::Refused(why) => Some(*why),
        Reply::Answered { .. } => None,
    }
}

// The handles of the rows, and the index of the only cut.
fn shown(reply: &Reply) -> Option<(u64, usize)> {
    match reply {
        Reply::Refused(_) => None,
        Reply::Answered { cuts, rows } => match cuts.as_slice().get(0) {
            Some(cut) => Some((cut.index, rows.len())),
            None => None,
        },
    }
}

#[test]
fn a_lock_that_may_commit_is_in_the_way(rt: HostRuntime) -> Result<(), Fail> {
    let alloc = rt.alloc();
    let kinds = [
        (LockKind::Put, true),
        (LockKind::Delete, true),
        (LockKind::Lock, false),
        (LockKind::Pessimistic, false),
    ];
    for (kind, blocks) in kinds {
        let op = lock(alloc, 5, kind)?;
        let entries = vec![in alloc; open_all(), write(alloc, 6, op)?]?;
        let set = [true, true];
        let before = read(
            alloc,
            &entries,
            &ask(alloc, 7, asked(1, 1, 1, 5), ALL)?,
            &set,
            0,
        )?;
        assert_eq!(rt; shown(&before), Some((6, 0)));
        let at = read(
            alloc,
            &entries,
            &ask(alloc, 8, asked(1, 1, 1, 5), ALL)?,
            &set,
            0,
        )?;
        let why = Refusal::Locked {
            region: 1,
            index: 6,
            handle: 5,
            start: 8,
        };
        assert_eq!(rt; refusal_of(&at), if blocks { Some(why) } else { None });
    }
    Ok(())
}

#[test]
fn a_region_is_read_by_its_epoch_and_index(rt: HostRuntime) -> Result<(), Fail> {
    let alloc = rt.alloc();
    let entries = vec![in alloc;
        open_all(),
        entry(1, 6, Body::Split { at: 100, child: 2 }),
        entry(1, 7, Body::Empty),
    ]?;
    let all = [true, true, true];
    let first = [true];
    let old = read(
        alloc,
        &entries,
        &ask(alloc, 10, asked(1, 1, 1, 5), ALL)?,
        &all,
        0,
    )?;
    let why = Refusal::EpochNotMatch {
        region: 1,
        index: 7,
        found: Some(Epoch {
            conf_ver: 1,
            version: 2,
        }),
    };
    assert_eq!(rt; refusal_of(&old), Some(why));
    let unborn = read(
        alloc,
        &entries,
        &ask(alloc, 10, asked(2, 1, 2, 5), ALL)?,
        &first,
        0,
    )?;
    let why = Refusal::NotYet {
        region: 2,
        applied: None,
        wants: Wants::Index(5),
    };
    assert_eq!(rt; refusal_of(&unborn), Some(why));
    let late = read(
        alloc,
        &entries,
        &ask(alloc, 10, asked(1, 1, 2, 9), ALL)?,
        &all,
        0,
    )?;
    let why = Refusal::NotYet {
        region: 1,
        applied: Some(7),
        wants: Wants::Index(9),
    };
    assert_eq!(rt; refusal_of(&late), Some(why));
    Ok(())
}

#[test]
fn nothing_below_the_mark_may_be_left(rt: HostRuntime) -> Result<(), Fail> {
    let alloc = rt.alloc();
    let mut entries = vec![in alloc; open_all()]?;
    for handle in 1..10i64 {
        let op = record(alloc, handle, 10, true)?;
        let entry = write(alloc, handle.cast_unsigned().saturating_add(5), op)?;
        entries.push(entry)?;
    }
    let ask = ask(alloc, 10, asked(1, 1, 1, 5), ALL)?;
    let five = [true; 5];
    let early = read(alloc, &entries, &ask, &five, 9)?;
    let why = Refusal::NotYet {
        region: 1,
        applied: Some(9),
        wants: Wants::Mark { next: 5, mark: 9 },
    };
    assert_eq!(rt; refusal_of(&early), Some(why));
    let all = [true; 10];
    let settled = read(alloc, &entries, &ask, &all, 9)?;
    assert_eq!(rt; shown(&settled), Some((14, 9)));
    Ok(())
}

#[test]
fn no_read_is_below_the_safe_point(rt: HostRuntime) -> Result<(), Fail> {
    let alloc = rt.alloc();
    let schema = schema(alloc)?;
    let put = record(alloc, 7, 50, true)?;
    let delete = record(alloc, 7, 80, false)?;
    let entries = vec![in alloc; open_all(), write(alloc, 6, put)?, write(alloc, 7, delete)?]?;
    let log = SmallLog {
        table: 1,
        schema: &schema,
        entries: &entries,
    };
    let all = [true; 3];
    let at = ask(alloc, 100, asked(1, 1, 1, 5), ALL)?;
    assert_eq!(rt; refused(alloc, &log, &at, &all, 100, 0), Ok(None));
    let below = ask(alloc, 99, asked(1, 1, 1, 5), ALL)?;
    let why = Refusal::BelowSafePoint { safe_point: 100 };
    assert_eq!(rt; refused(alloc, &log, &below, &all, 100, 0), Ok(Some(why)));
    let reply = answer(alloc, &log, &at, None, &all, 100, 0)
        .ok()
        .ok_or("memory")?;
    assert_eq!(rt; shown(&reply), Some((7, 0)));
    Ok(())
}

#[test]
fn an_install_begins_anew(rt: HostRuntime) -> Result<(), Fail> {
    let alloc = rt.alloc();
    let put = record(alloc, 5, 10, true)?;
    let ops = vec![in alloc; record(alloc, 6, 9, true)?]?;
    let install = Body::Install {
        conf_ver: 3,
        version: 4,
        low: i64::MIN,
        high: None,
        ops: Ops::from_vec(ops),
    };
    let entries = vec![in alloc;
        open_all(),
        write(alloc, 6, put)?,
        entry(1, 7, Body::Remove),
        entry(9, 20, install),
    ]?;
    let all = [true; 4];
    let new = read(
        alloc,
        &entries,
        &ask(alloc, 10, asked(9, 3, 4, 20), ALL)?,
        &all,
        0,
    )?;
    assert_eq!(rt; shown(&new), Some((20, 1)));
    let gone = read(
        alloc,
        &entries,
        &ask(alloc, 10, asked(1, 1, 1, 5), ALL)?,
        &all,
        0,
    )?;
    let why = Refusal::EpochNotMatch {
        region: 1,
        index: 7,
        found: None,
    };
    assert_eq!(rt; refusal_of(&gone), Some(why));
    Ok(())
}

#[test]
fn a_clip_and_a_bound_leave_rows_out(rt: HostRuntime) -> Result<(), Fail> {
    let alloc = rt.alloc();
    let schema = schema(alloc)?;
    let five = record(alloc, 5, 10, true)?;
    let seven = record(alloc, 7, 10, true)?;
    let entries = vec![in alloc; open_all(), write(alloc, 6, five)?, write(alloc, 7, seven)?]?;
    let log = SmallLog {
        table: 1,
        schema: &schema,
        entries: &entries,
    };
    let cut = Cut {
        region: 1,
        epoch: Epoch {
            conf_ver: 1,
            version: 1,
        },
        index: 7,
        range: ALL,
    };
    let clip = HandleRange {
        low: 6,
        high: Some(8),
    };
    let found = rows(alloc, &log, &[cut], 10, clip).ok().ok_or("memory")?;
    assert_eq!(rt; found.len(), 1);
    assert_eq!(rt; found[0].handle, 7);
    let bound = Bound {
        column: 0,
        low: 6,
        high: 9,
    };
    let none = kept(alloc, Some(bound), found).ok().ok_or("memory")?;
    assert_eq!(rt; none.len(), 0);
    let earlier = Cut { index: 6, ..cut };
    let found = rows(alloc, &log, &[earlier], 10, ALL).ok().ok_or("memory")?;
    assert_eq!(rt; found.len(), 1);
    let bound = Bound {
        column: 0,
        low: 5,
        high: 5,
    };
    let one = kept(alloc, Some(bound), found).ok().ok_or("memory")?;
    assert_eq!(rt; one.len(), 1);
    Ok(())
}
