//! Stops a store at each call of its disk, crashes it, and prints what is opened then. A line of
//! the file `cases` is a script: steps with bars between them, which are done on a store that was
//! just made; `steps` says what they are. What each step leaves is printed, and then for each call
//! that fails what eight crashes leave: `old` is what was named before the step, `new` what is
//! named after it, `same` both, and each number behind a plus a file that nothing needs. `WRONG` is
//! anything else, and `STUCK` a disk that isn't opened, or whose store doesn't go on. At the end of
//! a script `old` is what its last step named.
//!
//! The line `twice` makes a store in three tries of which two fail, and a line that begins with
//! `open` opens a disk with the files that it says. Lines that begin with `#` are titles.
#![tactic(auto)]

mod making;
mod opening;
mod refused;
mod steps;
mod stops;
mod twice;

use std::rt::Files;
use std::{fs, io};

fn main(rt: HostRuntime) -> io::Result<()> {
    let cases = fs::read_to_string(&rt, "cases")?;
    for line in cases.as_str().lines() {
        run_line(&rt, line)?;
    }
    Ok(())
}

fn run_line<R: Files + Print + AllocGlobal>(rt: &R, line: &str) -> io::Result<()> {
    println!(rt; "{line}")?;
    if line.starts_with("#") {
        return Ok(());
    }
    if line == "twice" {
        return twice::run_twice(rt);
    }
    if let Some(words) = line.strip_prefix("open ") {
        return refused::run_open(rt, words);
    }
    let script: Vec<&str> = line.split('|').collect(rt.alloc())?;
    stops::run_script(rt, script.as_slice())
}
