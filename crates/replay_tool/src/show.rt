// `show`: the rows at the log's end.
ghost use Rattle.log_file.specs.Passages.{source_passage, sink_passage};
ghost use Rattle.log_rows.specs.Texts.{rows_text};
ghost use Rattle.committed_log.specs.Reads.{rows_at_end};
ghost use Rattle.replay_tool.specs.Runs.{AfterLog, TextEnds};

use crate::refuse::refuse_log;
use crate::status::Status;
use crate::write::write_text;
use committed_log::Logs;
use flash_io::{Sink, Source};
use flash_types::Ts;
use log_file::read_log;
use log_rows::rows_text;
use std::alloc::Global;

/// Prints the rows that a read at the timestamp is shown at the log's end.
pub fn run_show<L: Source, W: Sink>(alloc: Global, ts: Ts, log: &mut L, out: &mut W) -> Status
    ensures { let text = sink_passage W.Sink out.old out.new in
        AfterLog (source_passage L.Source log.old log.new) text
        (λ l. TextEnds (rows_text (rows_at_end l ts)) text) result }
{
    match read_log(alloc, log) {
        Ok(logs) => show(alloc, &logs, ts, out),
        Err(error) => refuse_log(alloc, error, out),
    }
}

fn show<W: Sink>(alloc: Global, logs: &Logs, ts: Ts, out: &mut W) -> Status
    ensures { TextEnds (rows_text (rows_at_end logs.now ts)) (sink_passage W.Sink out.old out.new) result }
{
    match rows_text(alloc, logs, ts) {
        Ok(text) => write_text(out, &text),
        Err(_no_memory) => Status::Memory,
    }
}
