// A script that is stopped at each call of the disk.
ghost use Rattle.manifest.specs.Stores.{IsNew};

use crate::making::{failing_at, make};
use crate::opening::{settle, strays_text, text_of};
use crate::steps::{Undone, do_step, point};
use flash_io::Disk;
use flash_mem::MemDisk;
use replica_store::Store;
use std::alloc::{AllocError, Global};
use std::io;
use std::string::String;

/// The disk that a script left, and how many of its steps were done; making the store is the first.
#[derive(Drop)]
struct Run {
    disk: MemDisk,
    done: usize,
}

fn words_of(alloc: Global, step: &str) -> Result<Vec<&str>, AllocError> {
    step.split_whitespace().collect(alloc)
}

fn run_step(alloc: Global, store: &mut Store<MemDisk>, step: &str) -> Result<(), Undone> {
    match words_of(alloc, step) {
        Ok(words) => do_step(alloc, store, words.as_slice()),
        Err(_) => Err(Undone::Memory),
    }
}

fn run_steps(alloc: Global, disk: MemDisk, script: &[&str]) -> Run
    requires { IsNew (⟦<MemDisk as Disk>⟧.files disk) }
{
    let mut store = match make(alloc, disk) {
        Ok(store) => store,
        Err(disk) => return Run { disk, done: 0 },
    };
    let mut done: usize = 1;
    for step in script {
        if run_step(alloc, &mut store, step).is_err() {
            break;
        }
        done = done.saturating_add(1);
    }
    Run {
        disk: store.into_disk(),
        done,
    }
}

// The step that comes once so many are done.
fn step_after<'a>(script: &[&'a str], done: usize) -> &'a str {
    let Some(before) = done.checked_sub(1) else {
        return "make";
    };
    match script.get(before) {
        Some(step) => step.trim(),
        None => "end",
    }
}

/// Prints what is found after each step of the script, stops it at each call in turn, and prints
/// what eight crashes leave each time, and at the end.
pub fn run_script<R: Print + AllocGlobal>(rt: &R, script: &[&str]) -> io::Result<()> {
    let Some(texts) = show_script(rt, script)? else {
        return println!(rt; "no such script");
    };
    for call in 1..1000u64 {
        if !run_stop(rt, script, texts.as_slice(), call)? {
            return Ok(());
        }
    }
    println!(rt; "too many calls")
}

// Does the script, and prints what each step leaves. It gives what is found before the store is
// made and after each step; None where a step isn't done.
fn show_script<R: Print + AllocGlobal>(rt: &R, script: &[&str]) -> io::Result<Option<Vec<String>>> {
    let alloc = rt.alloc();
    let mut texts = Vec::new(alloc);
    texts.push(String::new(alloc))?;
    let disk = failing_at(alloc, 0)?;
    let Ok(mut store) = make(alloc, disk) else {
        return Ok(None);
    };
    if !show_step(rt, &mut store, "make", &mut texts)? {
        return Ok(None);
    }
    for step in script {
        if run_step(alloc, &mut store, step).is_err() {
            return Ok(None);
        }
        if !show_step(rt, &mut store, step.trim(), &mut texts)? {
            return Ok(None);
        }
    }
    Ok(Some(texts))
}

// Prints what this step has left, and keeps it. False where it isn't there.
fn show_step<R: Print + AllocGlobal>(
    rt: &R,
    store: &mut Store<MemDisk>,
    step: &str,
    texts: &mut Vec<String>,
) -> io::Result<bool> {
    let Some(seen) = look(rt.alloc(), store) else {
        return Ok(false);
    };
    println!(rt; "{step}{}: {}", seen.strays, seen.text)?;
    texts.push(seen.text)?;
    Ok(true)
}

/// What a store has named, and the files that nothing needs.
#[derive(Drop)]
struct Seen {
    text: String,
    strays: String,
}

fn look(alloc: Global, store: &mut Store<MemDisk>) -> Option<Seen> {
    let text = text_of(alloc, store)?;
    let strays = strays_text(alloc, store)?;
    Some(Seen { text, strays })
}

// Prints what is left of a script of which this call fails. False where it came to its end.
fn run_stop<R: Print + AllocGlobal>(
    rt: &R,
    script: &[&str],
    texts: &[String],
    call: u64,
) -> io::Result<bool> {
    let alloc = rt.alloc();
    let mut found = String::new(alloc);
    let mut done: usize = 0;
    for k in 0..8u64 {
        let disk = failing_at(alloc, call)?;
        let run = run_steps(alloc, disk, script);
        done = run.done;
        judge(alloc, run, texts, k, &mut found)?;
    }
    let step = step_after(script, done);
    if done > script.len() {
        println!(rt; "{step}:{found}")?;
        return Ok(false);
    }
    println!(rt; "call {call}, {step}:{found}")?;
    Ok(true)
}

// Notes what is opened after a crash: the state before the step that was stopped, or the one after
// it, and the files that nothing needs.
fn judge(
    alloc: Global,
    run: Run,
    texts: &[String],
    k: u64,
    found: &mut String,
) -> Result<(), AllocError> {
    let Run { disk, done } = run;
    found.push_str(" ")?;
    match reopened(alloc, disk, k) {
        Some(seen) => {
            found.push_str(verdict(texts, done, seen.text.as_str()))?;
            found.push_str(seen.strays.as_str())
        }
        None => found.push_str("STUCK"),
    }
}

// What is opened after a crash. None where it is refused, or doesn't go on.
fn reopened(alloc: Global, disk: MemDisk, k: u64) -> Option<Seen> {
    let left = disk.crash(k).ok()?;
    let mut settled = settle(alloc, left)?;
    let seen = look(alloc, &mut settled.store)?;
    if !goes_on(alloc, settled.store, k) {
        return None;
    }
    if settled.was_there {
        return Some(seen);
    }
    Some(Seen {
        text: String::new(alloc),
        strays: seen.strays,
    })
}

// Whether this text is the one before the step that follows so many, or the one after it.
fn verdict(texts: &[String], done: usize, text: &str) -> &'static str {
    let old = has_text(texts, done, text);
    let new = has_text(texts, done.saturating_add(1), text);
    match (old, new) {
        (true, true) => "same",
        (true, false) => "old",
        (false, true) => "new",
        (false, false) => "WRONG",
    }
}

fn has_text(texts: &[String], place: usize, text: &str) -> bool {
    match texts.get(place) {
        Some(other) => other.as_str() == text,
        None => false,
    }
}

// Whether a further commit is done, and is found after a crash.
fn goes_on(alloc: Global, mut store: Store<MemDisk>, k: u64) -> bool {
    if point(&mut store, 99).is_err() {
        return false;
    }
    let Some(text) = text_of(alloc, &mut store) else {
        return false;
    };
    let Ok(disk) = store.into_disk().crash(k) else {
        return false;
    };
    let Some(mut again) = settle(alloc, disk) else {
        return false;
    };
    match text_of(alloc, &mut again.store) {
        Some(found) => again.was_there && found.as_str() == text.as_str(),
        None => false,
    }
}
