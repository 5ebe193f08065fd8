// Running a case.
use crate::case::Case;
use flash_host::{HostSink, HostSource};
use replay_tool::replay;
use std::io;

/// Runs the case, and prints what the command writes, and then its status.
pub fn run_case<R: Print + AllocGlobal>(rt: &R, case: &Case) -> io::Result<()> {
    let log = case.log.as_ref().map(|log| log.as_slice());
    let status = status_of(rt, case, log);
    println!(rt; "status {status}")
}

/// Runs the case on each front of its log.
pub fn run_fronts<R: Print + AllocGlobal>(rt: &R, case: &Case) -> io::Result<()> {
    let Some(log) = &case.log else {
        return Ok(());
    };
    for count in 0..=log.len() {
        let status = status_of(rt, case, log.get(..count));
        println!(rt; "{count} bytes: status {status}")?;
    }
    Ok(())
}

fn status_of<R: Print + AllocGlobal>(rt: &R, case: &Case, log: Option<&[u8]>) -> u8 {
    let script = case.script.as_ref().map(|script| script.as_slice());
    let mut log = HostSource::new(log);
    let mut script = HostSource::new(script);
    let mut out = HostSink::new(io::writer(rt));
    replay(rt, &case.words, &mut log, &mut script, &mut out)
}
