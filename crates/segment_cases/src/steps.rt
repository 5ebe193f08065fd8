// The steps of a case. Of an index: `extend VERSION..` adds a file, `clear RANGE` tells what is
// left without a range, `entries` and `first HANDLE..` what it has. Of a delta: `mem VERSION..`
// and `delete RANGE` add a file, `back` takes the last one back, `keep` keeps a view and `kept`
// shows it, `flush VERSION.. | VERSION..` and `compact VERSION.. | VERSION..` are of a delta of
// their own. Of a segment: `columns KIND..` and `range RANGE` say what it has, `stable ROWS`
// makes its present versions its stable file, `flip PACK` and `byte AT BYTE` change that file,
// `failing CALL..` lets its readers fail, `present` shows its versions, and `split ROWS` splits
// it. Of a read: `snapshot TS RANGE` takes one, `rows` and `count` scan it to its end, `blocks
// CALLS` call by call, `pieces FROM TO CALLS` of some pieces, and `only NUMBER` asks for the
// first rows with a number.
use crate::bench::Bench;
use crate::files::{build, flip, set_byte};
use crate::pair::{show_compacted, show_flushed};
use crate::reads::{show_blocks, show_count, show_only, show_present, show_rows, take_snapshot};
use crate::splits::show_split;
use crate::trouble::Trouble;
use crate::words::{block, columns, number, numbers, range, signed, small};
use std::alloc::Global;

/// Prints a line, runs the step that it is, and prints what that gave.
pub fn run_line<R: Print + AllocGlobal>(
    rt: &R,
    bench: &mut Bench,
    line: &str,
) -> Result<(), Trouble> {
    println!(rt; "{line}")?;
    if line.starts_with("#") {
        *bench = Bench::new(rt.alloc())?;
        return Ok(());
    }
    match run_step(rt, bench, line) {
        Ok(()) => Ok(()),
        Err(Trouble::Read(error)) => Ok(println!(rt; "{error:?}")?),
        Err(Trouble::Build(error)) => Ok(println!(rt; "{error:?}")?),
        Err(trouble) => Err(trouble),
    }
}

fn run_step<R: Print + AllocGlobal>(rt: &R, bench: &mut Bench, line: &str) -> Result<(), Trouble> {
    let words: Vec<&str> = line.split_whitespace().collect(rt.alloc())?;
    let words = words.as_slice();
    let Some((step, rest)) = words.split_first() else {
        return Ok(());
    };
    match *step {
        "extend" | "clear" | "entries" | "first" => index_step(rt, bench, step, rest),
        "mem" | "delete" | "back" | "keep" | "kept" => delta_step(rt, bench, step, rest),
        "flush" | "compact" => pair_step(rt, step, rest),
        "columns" | "range" | "failing" => set(rt.alloc(), bench, step, rest),
        "stable" | "flip" | "byte" | "present" | "split" | "snapshot" => {
            segment_step(rt, bench, words)
        }
        _ => read_step(rt, bench, words),
    }
}

fn index_step<R: Print + AllocGlobal>(
    rt: &R,
    bench: &mut Bench,
    step: &str,
    words: &[&str],
) -> Result<(), Trouble> {
    match (step, words) {
        ("extend", _) => bench.indexes.extend(rt, &block(rt.alloc(), words)?),
        ("clear", [word]) => bench.indexes.clear(rt, word),
        ("entries", []) => bench.indexes.entries(rt),
        ("first", _) => bench.indexes.firsts(rt, words),
        _ => Err(Trouble::Word),
    }
}

fn delta_step<R: Print + AllocGlobal>(
    rt: &R,
    bench: &mut Bench,
    step: &str,
    words: &[&str],
) -> Result<(), Trouble> {
    match (step, words) {
        ("mem", _) => bench.deltas.add(rt, block(rt.alloc(), words)?),
        ("delete", [word]) => bench.deltas.delete(rt, range(word)?),
        ("back", []) => bench.deltas.take_back(rt),
        ("keep", []) => bench.deltas.keep(rt),
        ("kept", []) => bench.deltas.show_kept(rt),
        _ => Err(Trouble::Word),
    }
}

fn pair_step<R: Print + AllocGlobal>(rt: &R, step: &str, words: &[&str]) -> Result<(), Trouble> {
    let Some(bar) = words.iter().position(|word| *word == "|") else {
        return Err(Trouble::Word);
    };
    let first = block(rt.alloc(), &words[..bar])?;
    let second = block(rt.alloc(), &words[bar + 1..])?;
    match step {
        "flush" => show_flushed(rt, first, second),
        _ => show_compacted(rt, first, second),
    }
}

fn set(alloc: Global, bench: &mut Bench, step: &str, words: &[&str]) -> Result<(), Trouble> {
    match (step, words) {
        ("columns", _) => bench.segment.schema = columns(alloc, words)?,
        ("range", [word]) => bench.segment.range = range(word)?,
        ("failing", _) => bench.segment.failing = numbers(alloc, words)?,
        _ => return Err(Trouble::Word),
    }
    Ok(())
}

fn segment_step<R: Print + AllocGlobal>(
    rt: &R,
    bench: &mut Bench,
    words: &[&str],
) -> Result<(), Trouble> {
    match *words {
        ["stable", rows] => build(rt, bench, small(rows)?),
        ["flip", pack] => flip(rt, &mut bench.segment, number(pack)?),
        ["byte", at, byte] => set_byte(rt, &mut bench.segment, number(at)?, number(byte)?),
        ["present"] => show_present(rt, bench),
        ["split", rows] => show_split(rt, bench, small(rows)?),
        ["snapshot", ts, clip] => take_snapshot(rt, bench, number(ts)?, range(clip)?),
        _ => Err(Trouble::Word),
    }
}

fn read_step<R: Print + AllocGlobal>(rt: &R, bench: &Bench, words: &[&str]) -> Result<(), Trouble> {
    let Some(snapshot) = &bench.snapshot else {
        return Err(Trouble::Word);
    };
    let failing = bench.segment.failing.as_slice();
    match *words {
        ["rows"] => show_rows(rt, snapshot, failing),
        ["count"] => show_count(rt, snapshot, failing),
        ["blocks", calls] => show_blocks(rt, snapshot, failing, (0, u64::MAX), number(calls)?),
        ["pieces", from, to, calls] => {
            let places = (number(from)?, number(to)?);
            show_blocks(rt, snapshot, failing, places, number(calls)?)
        }
        ["only", number] => show_only(rt, snapshot, failing, signed(number)?),
        _ => Err(Trouble::Word),
    }
}
