//! Runs the calls of a table of regions on cases that can be read, and prints what each gave. A line
//! of the file `cases` is a case of parts with bars between them: a log's file, and then steps, which
//! are run one after the other on the table of that log, at first with no entry applied. Other lines
//! are titles. `steps` says what the steps are.
#![tactic(auto)]

mod logs;
mod parts;
mod reads;
mod steps;

use std::rt::Files;
use std::{fs, io};
use steps::run_steps;

fn main(rt: HostRuntime) -> io::Result<()> {
    let cases = fs::read_to_string(&rt, "cases")?;
    for line in cases.as_str().lines() {
        run_line(&rt, line)?;
    }
    Ok(())
}

fn run_line<R: Files + Print + AllocGlobal>(rt: &R, line: &str) -> io::Result<()> {
    println!(rt; "{line}")?;
    let Some((file, steps)) = line.split_once('|') else {
        return Ok(());
    };
    match logs::read_log(rt, file.trim())? {
        Some(log) => run_steps(rt, &log, steps),
        None => println!(rt; "no log"),
    }
}
