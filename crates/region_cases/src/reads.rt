// The steps that leave the table.
ghost use Rattle.region_table.specs.Table.{Agrees};

use crate::parts::{asked_regions, number, region};
use committed_log::Logs;
use flash_types::{Ask, HandleRange};
use raft_apply::{Parsed, parse};
use region_table::{Effect, RegionTable};
use std::io;

/// Runs a step that leaves the table, and prints what it gave.
pub fn show<R: Print + AllocGlobal>(
    rt: &R,
    logs: &Logs,
    table: &RegionTable,
    words: &[&str],
) -> io::Result<()>
    requires { Agrees logs.now table.now }
{
    match *words {
        ["count"] => println!(rt; "{}", table.count(logs)),
        ["applied", id] => println!(rt; "{:?}", table.applied(region(id))),
        ["cut", id] => println!(rt; "{:?}", table.cut(region(id))),
        ["after", "-"] => println!(rt; "{:?}", table.live_after(None)),
        ["after", id] => println!(rt; "{:?}", table.live_after(Some(region(id)))),
        ["effect", position] => show_effect(rt, logs, table, number(position)),
        ["next", part, parts, below] => {
            show_next(rt, logs, table, region(part), region(parts), number(below))
        }
        ["read", ts, safe_point, mark, ..] => show_read(
            rt,
            logs,
            table,
            (number(ts), number(safe_point), number(mark)),
            words,
        ),
        ["agrees"] => match table.agrees(logs) {
            Ok(agrees) => println!(rt; "{agrees}"),
            Err(_) => println!(rt; "want of memory"),
        },
        _ => println!(rt; "no such step"),
    }
}

fn show_next<R: Print + AllocGlobal>(
    rt: &R,
    logs: &Logs,
    table: &RegionTable,
    part: u32,
    parts: u32,
    below: u64,
) -> io::Result<()> {
    if parts == 0 {
        return println!(rt; "no parts");
    }
    println!(rt; "{:?}", table.next_ready(logs, part, parts, below))
}

fn show_read<R: Print + AllocGlobal>(
    rt: &R,
    logs: &Logs,
    table: &RegionTable,
    numbers: (u64, u64, u64),
    words: &[&str],
) -> io::Result<()> {
    let (_, regions) = words.split_at(words.len().min(4));
    let regions = asked_regions(rt.alloc(), regions)?;
    let all = HandleRange {
        low: i64::MIN,
        high: None,
    };
    match Ask::new(numbers.0, regions, all) {
        Ok(ask) => println!(rt; "{:?}", table.judge(logs, &ask, numbers.1, numbers.2)),
        Err(_) => println!(rt; "no ask"),
    }
}

fn show_effect<R: Print + AllocGlobal>(
    rt: &R,
    logs: &Logs,
    table: &RegionTable,
    position: u64,
) -> io::Result<()>
    requires { Agrees logs.now table.now }
{
    if position >= logs.len() {
        return println!(rt; "no entry");
    }
    match parse(rt.alloc(), logs, position) {
        Ok(parsed) => match table.effect(logs, &parsed) {
            Ok(effect) => print_effect(rt, &effect),
            Err(why) => println!(rt; "{why:?}"),
        },
        Err(_) => println!(rt; "want of memory"),
    }
}

fn print_effect<R: Print + AllocGlobal>(rt: &R, effect: &Effect) -> io::Result<()> {
    println!(rt;
        "region {} index {} clears {:?}",
        effect.region, effect.index, effect.clears
    )?;
    for at in 0..effect.adds.len() {
        let version = effect.adds.at(at);
        println!(rt;
            "    {} at {} gone {} cells {}",
            version.handle,
            version.ts,
            version.gone,
            version.cells.len()
        )?;
    }
    Ok(())
}
