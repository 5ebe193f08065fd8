// What is written where a command isn't done.
ghost use Rattle.std.specs.Prelude.{◌≡◌};
ghost use Rattle.log_file.specs.Passages.{Writes, sink_passage};
ghost use Rattle.log_file.specs.Causes.{refusal_text};
ghost use Rattle.tool_text.specs.Refusals.{script_error_text};
ghost use Rattle.replay_tool.specs.Runs.{LogErrorEnds, NoScriptEnds};
ghost use Rattle.log_file.specs.declared.log.LogError.TheVariants as unread;
ghost use Rattle.replay_tool.specs.declared.script.NoScript.TheVariants as unreadable;

use crate::script::NoScript;
use crate::status::Status;
use flash_io::{Sink, write_all};
use log_file::{LogError, Refusal, push_refusal};
use std::alloc::Global;
use tool_text::{ScriptError, print_script_error};

/// Writes the text, or a front of it where the sink fails. It answers the status.
pub fn refuse<W: Sink>(out: &mut W, text: &[u8], status: Status) -> Status
    ensures written { Writes (sink_passage W.Sink out.old out.new) text.now }
    ensures status { result ≡ status }
{
    let _ = write_all(out, text);
    status
}

/// Writes why there is no log.
pub fn refuse_log<W: Sink>(alloc: Global, error: LogError, out: &mut W) -> Status
    ensures { LogErrorEnds error (sink_passage W.Sink out.old out.new) result }
{
    match error {
        LogError::Limit => refuse(out, b"refused log limit\n", Status::Log),
        LogError::Refused(refusal) => refuse_frame(alloc, refusal, out),
        LogError::Failed => refuse(out, b"fault log\n", Status::LogFault),
        LogError::Memory => Status::Memory,
    }
}

// Writes which frame is refused and why.
fn refuse_frame<W: Sink>(alloc: Global, refusal: Refusal, out: &mut W) -> Status
    ensures { LogErrorEnds (unread.Refused refusal) (sink_passage W.Sink out.old out.new) result }
{
    let mut text = Vec::new(alloc);
    match push_refusal(alloc, refusal, &mut text) {
        Ok(()) => refuse(out, &text, Status::Log),
        Err(_no_memory) => Status::Memory,
    }
}

/// Writes why there is no script.
pub fn refuse_script<W: Sink>(alloc: Global, error: &NoScript, out: &mut W) -> Status
    ensures { NoScriptEnds error.now (sink_passage W.Sink out.old out.new) result }
{
    match error {
        NoScript::Refused(why) => refuse_field(alloc, why, out),
        NoScript::Failed => refuse(out, b"fault script\n", Status::ScriptFault),
    }
}

// Writes what of the script is refused.
fn refuse_field<W: Sink>(alloc: Global, why: &ScriptError, out: &mut W) -> Status
    ensures { NoScriptEnds (unreadable.Refused why.now) (sink_passage W.Sink out.old out.new) result }
{
    if let ScriptError::Memory = why {
        return Status::Memory;
    }
    let mut text = Vec::new(alloc);
    match print_script_error(why, &mut text) {
        Ok(()) => refuse(out, &text, Status::Script),
        Err(_no_memory) => Status::Memory,
    }
}
