//! `flash_replay LOG SCRIPT DIR WORD..`: a columnar learner replica of one table, over a log of
//! committed region entries. The words are one command: `show N` prints the rows at timestamp N, and
//! `check` how many entries the log has and how many reads the script.
#![tactic(auto)]

mod input;

use flash_host::{HostSink, HostSource};
use input::{Input, read_input};
use replay_tool::replay;
use std::env::Env;
use std::process::ExitCode;
use std::rt::Files;
use std::{fs, io};

const NO_MEMORY: u8 = 9;

fn main(rt: HostRuntime) -> ExitCode {
    ExitCode::from(run(&rt))
}

// The program's status.
fn run<R: Files + Env + Print + AllocGlobal>(rt: &R) -> u8 {
    let Ok(input) = read_input(rt) else {
        return NO_MEMORY;
    };
    run_on(rt, &input)
}

fn run_on<R: Files + Print + AllocGlobal>(rt: &R, input: &Input) -> u8 {
    let mut log = HostSource::new(fs::open(rt, input.log.as_str()).ok());
    let mut script = HostSource::new(fs::open(rt, input.script.as_str()).ok());
    let mut out = HostSink::new(io::writer(rt));
    replay(rt, &input.words, &mut log, &mut script, &mut out)
}
