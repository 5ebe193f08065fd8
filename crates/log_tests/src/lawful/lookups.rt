// What the log answers of its entries.
use super::lines::{Act, Change, Line, log_of_lines};
use super::ops::Record;
use super::*;
use committed_log::Logs;

// Two regions of which the first is merged into the second, which is then split.
const MOVES: [Line; 8] = [
    Line(1, 5, Act::Open(i64::MIN, Some(100))),
    Line(2, 5, Act::Open(100, None)),
    Line(1, 6, Act::Empty),
    Line(1, 7, Act::Prepare(2)),
    Line(2, 6, Act::Commit(1)),
    Line(2, 7, Act::Split(50, 3)),
    Line(3, 6, Act::Empty),
    Line(3, 7, Act::Remove),
];

// The name, how many of the entries there are, the region, the index, and the next position.
#[derive(Clone, Copy)]
struct Next(&'static str, usize, u32, u64, Option<u64>);

const NEXTS: [Next; 20] = [
    Next("unborn", 8, 9, 5, None),
    Next("unborn, at 0", 8, 9, 0, None),
    Next("before its first index", 8, 2, 4, None),
    Next("live, at an old index", 8, 1, 5, Some(2)),
    Next("live, before its prepare", 8, 1, 6, Some(3)),
    Next("live, at its last index", 3, 1, 6, None),
    Next("prepared, with no commit yet", 4, 1, 7, None),
    Next("prepared, at an old index", 4, 1, 6, Some(3)),
    Next("prepared, then committed", 5, 1, 7, Some(4)),
    Next("gone by a commit, at its last index", 8, 1, 7, Some(4)),
    Next("gone, past its last index", 8, 1, 8, None),
    Next("a target before the commit", 8, 2, 5, Some(4)),
    Next("a target before its split", 8, 2, 6, Some(5)),
    Next("a parent at its last index", 8, 2, 7, None),
    Next("a child at index 5", 8, 3, 5, Some(6)),
    Next("a child with no entry yet", 6, 3, 5, None),
    Next("a child before its split", 5, 3, 5, None),
    Next("a child before it is removed", 8, 3, 6, Some(7)),
    Next("gone by a remove", 8, 3, 7, None),
    Next("an empty log", 0, 1, 5, None),
];

fn next_of(alloc: Global, lines: &[Line], region: u32, index: u64) -> Result<Option<u64>, Fail> {
    let logs = log_of_lines(alloc, lines)?;
    Ok(logs.next_of(region, index))
}

fn is_next(alloc: Global, case: Next) -> Result<(), Fail> {
    let lines = MOVES.get(..case.1).ok_or("lines")?;
    let found = next_of(alloc, lines, case.2, case.3)?;
    if found == case.4 {
        return Ok(());
    }
    Err(Fail::from((case.0, found)))
}

#[test]
fn the_next_position_of_each_kind_of_region(rt: HostRuntime) -> Result<(), Fail> {
    for case in NEXTS {
        is_next(rt.alloc(), case)?;
    }
    Ok(())
}

const SAID: [Line; 5] = [
    Line(1, 5, Act::Open(i64::MIN, Some(100))),
    Line(1, 6, Act::Write(&[Change::Put(5, 10, Record::Put10)])),
    Line(
        1,
        7,
        Act::Write(&[
            Change::Put(5, 10, Record::Put10),
            Change::Put(6, 10, Record::Put10),
            Change::Put(5, 20, Record::Put20),
            Change::Put(6, 10, Record::Put10),
            Change::Put(5, 20, Record::Put20),
        ]),
    ),
    Line(1, 8, Act::Write(&[Change::Put(5, 20, Record::Put20)])),
    Line(
        2,
        5,
        Act::Install(
            100,
            None,
            &[
                Change::Put(100, 10, Record::Put10),
                Change::Put(100, 10, Record::Put10),
            ],
        ),
    ),
];

// The position, the op, and whether it says again what stands.
#[derive(Clone, Copy, Debug)]
struct Repeat(u64, u32, bool);

const REPEATS: [Repeat; 12] = [
    Repeat(0, 0, false),
    Repeat(1, 0, false),
    Repeat(2, 0, true),
    Repeat(2, 1, false),
    Repeat(2, 2, false),
    Repeat(2, 3, true),
    Repeat(2, 4, true),
    Repeat(2, 5, false),
    Repeat(3, 0, true),
    Repeat(4, 0, false),
    Repeat(4, 1, true),
    Repeat(4, 2, false),
];

fn is_repeat(logs: &Logs, case: Repeat) -> Result<(), Fail> {
    if case.0 < logs.len() && logs.repeats(case.0, case.1) == case.2 {
        return Ok(());
    }
    Err(Fail::from(case))
}

fn are_repeats(logs: &Logs, cases: &[Repeat]) -> Result<(), Fail> {
    for case in cases {
        is_repeat(logs, *case)?;
    }
    Ok(())
}

fn has_entries(logs: &Logs, count: u64) -> Result<(), Fail> {
    if logs.len() == count {
        return Ok(());
    }
    Err(Fail::from(logs.len()))
}

#[test]
fn the_ops_that_say_again_what_stands(rt: HostRuntime) -> Result<(), Fail> {
    let logs = log_of_lines(rt.alloc(), &SAID)?;
    are_repeats(&logs, &REPEATS)?;
    has_entries(&logs, 5)
}
