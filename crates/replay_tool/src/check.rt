// `check`: how many entries the log has, and how many reads the script.
ghost use Rattle.std.specs.Prelude.{◌≡◌, ◌⊎◌, IfOk, IfErr, OnOk, ◌++◌, length};
ghost use Rattle.std.specs.Fmt.{decimal};
ghost use Rattle.committed_log.specs.Log.{Log};
ghost use Rattle.log_file.specs.Passages.{source_passage, sink_passage};
ghost use Rattle.log_file.specs.Reads.{ReadsLog, IsErrorFrom};
ghost use Rattle.replay_tool.specs.Texts.{check_text};
ghost use Rattle.replay_tool.specs.Runs.{AfterLog, CountsFrom, TextEnds};

use crate::refuse::{refuse_log, refuse_script};
use crate::script::read_script;
use crate::status::Status;
use crate::write::write_text;
use flash_io::{Sink, Source};
use log_file::{LogError, read_log};
use std::alloc::{AllocError, Global};

/// Reads the log and admits its entries, then reads the script, and writes how many entries and
/// reads there are. The script isn't read where the log is refused or fails.
pub fn run_check<L: Source, S: Source, W: Sink>(
    alloc: Global,
    log: &mut L,
    script: &mut S,
    out: &mut W,
) -> Status
    ensures ends { let said = source_passage S.Source script.old script.new in
        let text = sink_passage W.Sink out.old out.new in
        AfterLog (source_passage L.Source log.old log.new) text
        (λ l. CountsFrom (length l.entries) said text) result }
    ensures log_first { (result ≡ Status.Log) ⊎ (result ≡ Status.LogFault) → script.new ≡ script.old }
{
    match entries_of(alloc, log) {
        Ok(entries) => check_script(alloc, entries, script, out),
        Err(error) => refuse_log(alloc, error, out),
    }
}

// How many entries the log has.
fn entries_of<L: Source>(alloc: Global, log: &mut L) -> Result<u64, LogError>
    ensures counted { IfOk result (λ entries. (l : Log) × (entries ≡ length l.entries)
        × ReadsLog (source_passage L.Source log.old log.new) l) }
    ensures refused { IfErr result (IsErrorFrom (source_passage L.Source log.old log.new)) }
{
    match read_log(alloc, log) {
        Ok(logs) => Ok(logs.len()),
        Err(error) => Err(error),
    }
}

fn check_script<S: Source, W: Sink>(
    alloc: Global,
    entries: u64,
    script: &mut S,
    out: &mut W,
) -> Status
    ensures ends { CountsFrom entries (source_passage S.Source script.old script.new)
        (sink_passage W.Sink out.old out.new) result }
    ensures past_log { (result ≡ Status.Log) ⊎ (result ≡ Status.LogFault) → ⊥ }
{
    match read_script(alloc, script) {
        Ok(script) => write_counts(alloc, entries, script.reads.len() as u64, out),
        Err(error) => refuse_script(alloc, &error, out),
    }
}

fn write_counts<W: Sink>(alloc: Global, entries: u64, reads: u64, out: &mut W) -> Status
    ensures { TextEnds (check_text entries reads) (sink_passage W.Sink out.old out.new) result }
{
    match check_text(alloc, entries, reads) {
        Ok(text) => write_text(out, &text),
        Err(_no_memory) => Status::Memory,
    }
}

#[tactic(auto, unfolding(crate::specs::Texts::check_text))]
fn check_text(alloc: Global, entries: u64, reads: u64) -> Result<Vec<u8>, AllocError>
    ensures { IfOk result (λ text. text.items ≡ check_text entries reads) }
{
    let mut text = Vec::new(alloc);
    push_number(alloc, b"ok ", entries, &mut text)?;
    push_number(alloc, b" entries ", reads, &mut text)?;
    text.extend_from_slice(b" reads\n")?;
    Ok(text)
}

// Adds a word, and a number in decimal.
fn push_number(
    alloc: Global,
    word: &[u8],
    number: u64,
    into: &mut Vec<u8>,
) -> Result<(), AllocError>
    ensures { OnOk result (into.new.items ≡ into.old.items ++ (word.now ++ decimal number)) }
{
    into.extend_from_slice(word)?;
    let digits = format!(in alloc; "{number}")?;
    into.extend_from_slice(digits.as_bytes())
}
