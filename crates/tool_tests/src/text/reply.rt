// Printed replies.
use super::add;
use column_block::{Cell, CellBytes, Cells, Row};
use flash_types::{Cut, Epoch, HandleRange, Refusal, Wants};
use std::test::*;
use tool_text::{Cuts, ReadReply, Rows, print_reply};

fn prints(rt: &HostRuntime, k: u32, reply: &ReadReply, lines: &[u8]) -> Result<(), Fail> {
    let mut text = Vec::new(rt.alloc());
    print_reply(k, reply, &mut text)?;
    if text.as_slice() == lines {
        return Ok(());
    }
    Err(Fail::from(text))
}

fn refuses(rt: &HostRuntime, k: u32, refusal: Refusal, line: &[u8]) -> Result<(), Fail> {
    prints(rt, k, &ReadReply::Refused { refusal }, line)
}

fn cut(region: u32, index: u64) -> Cut {
    Cut {
        region,
        epoch: Epoch {
            conf_ver: 1,
            version: 1,
        },
        index,
        range: HandleRange {
            low: i64::MIN,
            high: None,
        },
    }
}

// A row of 5 and `ab`.
fn add_row(rt: &HostRuntime, handle: i64, rows: &mut Rows) -> Result<(), Fail> {
    let mut cells = Cells::new(rt.alloc());
    add(&mut cells, Cell::Int(5))?;
    let bytes = CellBytes::from_slice(rt.alloc(), b"ab")?;
    add(&mut cells, Cell::Bytes(bytes))?;
    match rows.push(Row { handle, cells }) {
        Ok(()) => Ok(()),
        Err(_row) => Err(Fail::from("memory")),
    }
}

fn rows_of(rt: &HostRuntime, handles: &[i64]) -> Result<Rows, Fail> {
    let mut rows = Rows::new(rt.alloc());
    for handle in handles {
        add_row(rt, *handle, &mut rows)?;
    }
    Ok(rows)
}

fn answers(
    rt: &HostRuntime,
    k: u32,
    ts: u64,
    cuts: &[Cut],
    handles: &[i64],
    lines: &[u8],
) -> Result<(), Fail> {
    let rows = rows_of(rt, handles)?;
    let cuts = Cuts::from_slice(rt.alloc(), cuts)?;
    prints(rt, k, &ReadReply::Rows { ts, cuts, rows }, lines)
}

#[test]
fn rows_with_the_states_that_they_are_of(rt: HostRuntime) -> Result<(), Fail> {
    let none = b"read 1 ts 7 at 1:6 rows 0\n";
    answers(&rt, 1, 7, &[cut(1, 6)], &[], none)?;
    let some = b"read 12 ts 10 at 2:5 1:18 rows 2\nrow -1 5 x6162\nrow 5 5 x6162\n";
    answers(&rt, 12, 10, &[cut(2, 5), cut(1, 18)], &[-1, 5], some)
}

#[test]
fn a_lock_in_the_way(rt: HostRuntime) -> Result<(), Fail> {
    let refusal = Refusal::Locked {
        region: 1,
        index: 6,
        handle: 5,
        start: 8,
    };
    let line = b"read 2 refused locked region 1 index 6 handle 5 start 8\n";
    refuses(&rt, 2, refusal, line)
}

#[test]
fn another_epoch(rt: HostRuntime) -> Result<(), Fail> {
    let split = Refusal::EpochNotMatch {
        region: 1,
        index: 6,
        found: Some(Epoch {
            conf_ver: 1,
            version: 2,
        }),
    };
    let line = b"read 1 refused epoch region 1 index 6 found 1 2\n";
    refuses(&rt, 1, split, line)?;
    let gone = Refusal::EpochNotMatch {
        region: 1,
        index: 7,
        found: None,
    };
    let line = b"read 2 refused epoch region 1 index 7 found none\n";
    refuses(&rt, 2, gone, line)
}

// The line of the first read, which a region isn't far enough for.
fn waits(
    rt: &HostRuntime,
    region: u32,
    applied: Option<u64>,
    wants: Wants,
    line: &[u8],
) -> Result<(), Fail> {
    let refusal = Refusal::NotYet {
        region,
        applied,
        wants,
    };
    refuses(rt, 1, refusal, line)
}

#[test]
fn not_as_far_as_the_read_needs(rt: HostRuntime) -> Result<(), Fail> {
    let unborn = b"read 1 refused not-yet region 2 applied none wants index 5\n";
    waits(&rt, 2, None, Wants::Index(5), unborn)?;
    let behind = b"read 1 refused not-yet region 1 applied 7 wants index 9\n";
    waits(&rt, 1, Some(7), Wants::Index(9), behind)?;
    let unsettled = b"read 1 refused not-yet region 1 applied 9 wants mark 5 9\n";
    waits(&rt, 1, Some(9), Wants::Mark { next: 5, mark: 9 }, unsettled)
}

#[test]
fn below_the_safe_point_a_failed_device_and_damage(rt: HostRuntime) -> Result<(), Fail> {
    let below = Refusal::BelowSafePoint { safe_point: 100 };
    refuses(&rt, 2, below, b"read 2 refused below-safe-point 100\n")?;
    prints(&rt, 3, &ReadReply::Device, b"read 3 device\n")?;
    let damaged = ReadReply::Damaged { at: u64::MAX };
    let line = b"read 4294967295 damaged 18446744073709551615\n";
    prints(&rt, u32::MAX, &damaged, line)
}
