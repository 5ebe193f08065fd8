//! Runs the program's commands on cases that can be read, and prints what each gave. A line of the
//! file `cases` is a case of three parts with bars between them: the log's file, a script and the
//! words. Behind the log's file may stand `to N`, its first N bytes alone, or `with AT BYTE`, its
//! byte at this place changed; a log may also be `x` and its bytes in hexadecimal, with its
//! description before it, as `make_log.py` takes it. A script is its text, `@` and a file, or `-`
//! for a file that isn't there. A line that begins with `fronts` is run on each front of the log.
//! Other lines are titles.
#![tactic(auto)]

mod case;
mod run;

use case::read_case;
use run::{run_case, run_fronts};
use std::rt::Files;
use std::{fs, io};

fn main(rt: HostRuntime) -> io::Result<()> {
    let cases = fs::read_to_string(&rt, "cases")?;
    for line in cases.as_str().lines() {
        run_line(&rt, line)?;
    }
    Ok(())
}

fn run_line<R: Files + Print + AllocGlobal>(rt: &R, line: &str) -> io::Result<()> {
    println!(rt; "{line}")?;
    if let Some(rest) = line.strip_prefix("fronts ") {
        return match read_case(rt, rest)? {
            Some(case) => run_fronts(rt, &case),
            None => Ok(()),
        };
    }
    match read_case(rt, line)? {
        Some(case) => run_case(rt, &case),
        None => Ok(()),
    }
}
