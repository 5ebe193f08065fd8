//! Runs the calls of segments on cases that can be read, and prints what each gave. A line of the
//! file `cases` is a step, as `steps` says them; a line that begins with `#` is the title of a
//! case, which begins anew with nothing made.
#![tactic(auto)]

mod bench;
mod files;
mod index;
mod layers;
mod pair;
mod reads;
mod show;
mod splits;
mod steps;
mod trouble;
mod words;
mod worked;

use bench::Bench;
use std::fs;
use std::process::ExitCode;
use std::rt::Files;
use steps::run_line;
use trouble::Trouble;

const NO_WORD: u8 = 2;

const NO_MEMORY: u8 = 3;

const NO_FILE: u8 = 4;

fn main(rt: HostRuntime) -> ExitCode {
    ExitCode::from(match run(&rt) {
        Ok(()) => 0,
        Err(trouble) => status(&rt, &trouble),
    })
}

fn run<R: Files + Print + AllocGlobal>(rt: &R) -> Result<(), Trouble> {
    let cases = fs::read_to_string(rt, "cases")?;
    let mut bench = Bench::new(rt.alloc())?;
    for line in cases.as_str().lines() {
        run_line(rt, &mut bench, line)?;
    }
    Ok(())
}

// Prints why the cases end here, and answers the status.
fn status<R: Print>(rt: &R, trouble: &Trouble) -> u8 {
    match trouble {
        Trouble::Memory => ended(rt, "want of memory", NO_MEMORY),
        Trouble::Output => ended(rt, "no cases", NO_FILE),
        _ => ended(rt, "no such step", NO_WORD),
    }
}

fn ended<R: Print>(rt: &R, why: &str, status: u8) -> u8 {
    match println!(rt; "{why}") {
        Ok(()) => status,
        Err(_) => NO_FILE,
    }
}
