// The steps of a case: `parse AT` prints what an entry says to its region, `apply FROM TO` applies the entries from one position up to and without the
// other, `apply AT` one, `file` writes the table and opens what was written in its place, `over LOG`
// and `with AT BYTE` open it over another log, or with a byte of it changed, and print what that
// gives. `reads` has the others.
ghost use Rattle.region_table.specs.Table.{Agrees};

use crate::logs::read_log;
use crate::parts::number;
use crate::reads::show;
use committed_log::Logs;
use raft_apply::parse;
use region_table::{RegionTable, empty_tables_agree};
use std::alloc::Global;
use std::io;
use std::rt::Files;

fn empty(alloc: Global, logs: &Logs) -> RegionTable
    ensures { Agrees logs.now result }
{
    empty_tables_agree();
    let _len = logs.len();
    RegionTable::empty(alloc)
}

/// Runs the steps between the bars, one after the other.
pub fn run_steps<R: Files + Print + AllocGlobal>(
    rt: &R,
    logs: &Logs,
    steps: &str,
) -> io::Result<()> {
    let mut table = empty(rt.alloc(), logs);
    for step in steps.split('|') {
        run_step(rt, logs, &mut table, step)?;
    }
    Ok(())
}

fn run_step<R: Files + Print + AllocGlobal>(
    rt: &R,
    logs: &Logs,
    table: &mut RegionTable,
    step: &str,
) -> io::Result<()>
    requires { Agrees logs.now table.old }
    ensures { Agrees logs.now table.new }
{
    let words: Vec<&str> = step.split_whitespace().collect(rt.alloc())?;
    match *words.as_slice() {
        ["parse", position] => parse_at(rt, logs, number(position)),
        ["apply", position] => apply_at(rt, logs, table, number(position)),
        ["apply", from, to] => apply_range(rt, logs, table, number(from), number(to)),
        ["file"] => reopen(rt, logs, table),
        ["over", file] => open_over(rt, table, file),
        ["with", at, byte] => open_with(rt, logs, table, number(at), number(byte)),
        _ => show(rt, logs, table, words.as_slice()),
    }
}

fn parse_at<R: Print + AllocGlobal>(rt: &R, logs: &Logs, position: u64) -> io::Result<()> {
    if position >= logs.len() {
        return println!(rt; "no entry");
    }
    match parse(rt.alloc(), logs, position) {
        Ok(parsed) => {
            println!(rt;
                "region {} index {} {:?}",
                parsed.region, parsed.index, parsed.command
            )
        }
        Err(_) => println!(rt; "want of memory"),
    }
}

fn apply_at<R: Print + AllocGlobal>(
    rt: &R,
    logs: &Logs,
    table: &mut RegionTable,
    position: u64,
) -> io::Result<()>
    requires { Agrees logs.now table.old }
    ensures { Agrees logs.now table.new }
{
    if position >= logs.len() {
        return println!(rt; "no entry");
    }
    match parse(rt.alloc(), logs, position) {
        Ok(parsed) => match table.apply(logs, &parsed) {
            Ok(()) => println!(rt; "applied"),
            Err(why) => println!(rt; "{why:?}"),
        },
        Err(_) => println!(rt; "want of memory"),
    }
}

fn apply_range<R: Print + AllocGlobal>(
    rt: &R,
    logs: &Logs,
    table: &mut RegionTable,
    from: u64,
    to: u64,
) -> io::Result<()>
    requires { Agrees logs.now table.old }
    ensures { Agrees logs.now table.new }
{
    for position in from..to {
        apply_at(rt, logs, table, position)?;
    }
    Ok(())
}

fn bytes_of(alloc: Global, table: &RegionTable) -> Option<Vec<u8>> {
    let mut bytes = Vec::new(alloc);
    match table.write_file(&mut bytes) {
        Ok(()) => Some(bytes),
        Err(_) => None,
    }
}

fn reopen<R: Print + AllocGlobal>(rt: &R, logs: &Logs, table: &mut RegionTable) -> io::Result<()>
    requires { Agrees logs.now table.old }
    ensures { Agrees logs.now table.new }
{
    let Some(bytes) = bytes_of(rt.alloc(), table) else {
        return println!(rt; "want of memory");
    };
    match RegionTable::opened(rt.alloc(), bytes.as_slice(), logs) {
        Ok(again) => {
            *table = again;
            println!(rt; "{} bytes", bytes.len())
        }
        Err(why) => println!(rt; "{why:?}"),
    }
}

// Prints whether bytes are opened over a log.
fn open<R: Print + AllocGlobal>(rt: &R, logs: &Logs, bytes: &[u8]) -> io::Result<()> {
    match RegionTable::opened(rt.alloc(), bytes, logs) {
        Ok(table) => println!(rt; "opened with {}", table.count(logs)),
        Err(why) => println!(rt; "{why:?}"),
    }
}

fn open_over<R: Files + Print + AllocGlobal>(
    rt: &R,
    table: &RegionTable,
    file: &str,
) -> io::Result<()> {
    let Some(bytes) = bytes_of(rt.alloc(), table) else {
        return println!(rt; "want of memory");
    };
    match read_log(rt, file)? {
        Some(logs) => open(rt, &logs, bytes.as_slice()),
        None => println!(rt; "no log"),
    }
}

fn open_with<R: Print + AllocGlobal>(
    rt: &R,
    logs: &Logs,
    table: &RegionTable,
    at: u64,
    byte: u64,
) -> io::Result<()> {
    let Some(mut bytes) = bytes_of(rt.alloc(), table) else {
        return println!(rt; "want of memory");
    };
    if let Some(place) = bytes.get_mut(at as usize) {
        *place = (byte % 256) as u8;
    }
    open(rt, logs, bytes.as_slice())
}
