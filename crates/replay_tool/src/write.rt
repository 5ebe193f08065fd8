// Writing a command's text.
ghost use Rattle.log_file.specs.Passages.{sink_passage};
ghost use Rattle.replay_tool.specs.Runs.{TextEnds};

use crate::status::Status;
use flash_io::{Sink, write_all};

/// Writes the whole text, or a front of it where a write fails.
pub fn write_text<W: Sink>(out: &mut W, text: &[u8]) -> Status
    ensures { TextEnds text.now (sink_passage W.Sink out.old out.new) result }
{
    match write_all(out, text) {
        Ok(()) => Status::Done,
        Err(_failed) => Status::Output,
    }
}
