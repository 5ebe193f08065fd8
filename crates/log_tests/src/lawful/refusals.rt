// What a refusal leaves. That each entry is refused as it must be is shown by the cases of `command_cases`.
use super::lines::{Act, Change, Line, admit_line, log_of_lines};
use super::ops::Record;
use super::*;
use committed_log::{Logs, Unlawful};

const OPEN: Line = Line(1, 5, Act::Open(0, Some(100)));

const ONE: &[Line] = &[OPEN];

const AT_20: &[Line] = &[
    OPEN,
    Line(1, 6, Act::Write(&[Change::Put(5, 20, Record::Put20)])),
];

fn is_answer(found: Result<u64, Unlawful>, wanted: Result<u64, Unlawful>) -> Result<(), Fail> {
    if found == wanted {
        return Ok(());
    }
    Err(Fail::from(found))
}

fn answers(
    alloc: Global,
    logs: &mut Logs,
    line: Line,
    wanted: Result<u64, Unlawful>,
) -> Result<(), Fail> {
    let found = admit_line(alloc, logs, line)?;
    is_answer(found, wanted)
}

fn has_next(logs: &Logs, region: u32, index: u64, wanted: Option<u64>) -> Result<(), Fail> {
    let found = logs.next_of(region, index);
    if found == wanted {
        return Ok(());
    }
    Err(Fail::from(found))
}

const NO_INSTALL: Line = Line(
    2,
    9,
    Act::Install(100, None, &[Change::Put(99, 10, Record::Put10)]),
);

// An install that is refused leaves its place to others.
#[test]
fn a_refused_install_takes_no_handles(rt: HostRuntime) -> Result<(), Fail> {
    let alloc = rt.alloc();
    let mut logs = log_of_lines(alloc, ONE)?;
    answers(alloc, &mut logs, NO_INSTALL, Err(Unlawful::Key { op: 0 }))?;
    let open = Line(3, 5, Act::Open(150, None));
    answers(alloc, &mut logs, open, Ok(1))?;
    let below = Line(2, 9, Act::Install(100, Some(150), &[]));
    answers(alloc, &mut logs, below, Ok(2))
}

const TWO_PUTS: Line = Line(
    1,
    7,
    Act::Write(&[
        Change::Put(6, 20, Record::Put20),
        Change::Put(5, 15, Record::Put15),
    ]),
);

const ONE_PUT: Line = Line(1, 7, Act::Write(&[Change::Put(6, 15, Record::Put15)]));

// After a refusal the same log takes what it would have taken before.
#[test]
fn a_refusal_leaves_the_log(rt: HostRuntime) -> Result<(), Fail> {
    let alloc = rt.alloc();
    let mut logs = log_of_lines(alloc, AT_20)?;
    let backdated = Unlawful::Backdated { op: 1, last: 20 };
    answers(alloc, &mut logs, TWO_PUTS, Err(backdated))?;
    has_next(&logs, 1, 6, None)?;
    answers(alloc, &mut logs, ONE_PUT, Ok(2))?;
    has_next(&logs, 1, 6, Some(2))
}
