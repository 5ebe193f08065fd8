//! Makes generated logs of the sizes in the file `cases`, a number a line, and prints of each how
//! many entries it has and its digest. The digests are those of a program in Python that writes the
//! same log frame by frame, and hashes the header and then each frame behind the digest before it.
#![tactic(auto)]

use committed_log::Logs;
use generator::{GenerateError, generated};
use std::{fs, io};

fn main(rt: HostRuntime) -> io::Result<()> {
    let cases = fs::read_to_string(&rt, "cases")?;
    for line in cases.as_str().lines() {
        run_line(&rt, line)?;
    }
    Ok(())
}

fn run_line<R: Print + AllocGlobal>(rt: &R, line: &str) -> io::Result<()> {
    let Ok(n) = line.parse::<u32>() else {
        return println!(rt; "{line}");
    };
    match generated(rt.alloc(), n) {
        Ok(logs) => print_log(rt, n, &logs),
        Err(GenerateError::TooMany) => println!(rt; "{n}: too many"),
        Err(GenerateError::Memory) => println!(rt; "{n}: want of memory"),
    }
}

fn print_log<R: Print + AllocGlobal>(rt: &R, n: u32, logs: &Logs) -> io::Result<()> {
    let entries = logs.len();
    let half = entries / 2;
    let whole = hex::encode(rt.alloc(), logs.chain(entries))?;
    let extended = logs.extended_chain(logs.chain(half), half, entries);
    let extended = hex::encode(rt.alloc(), extended)?;
    println!(rt; "{n}: {entries} entries")?;
    println!(rt; "  digest of all           {whole}")?;
    println!(rt; "  from half on, extended  {extended}")
}
