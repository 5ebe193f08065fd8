// The commands, from words to a status.
ghost use Rattle.std.specs.Prelude.{◌≡◌, ◌↔◌};
ghost use Rattle.tool_text.specs.Words.{IsCommand};
ghost use Rattle.replay_tool.specs.Commands.{run_of};
ghost use Rattle.replay_tool.specs.Runs.{IsRun, IsAnswer, LeavesUnread, Refuses, HasFault, Answered, ReadsWhole, EndsWith, IsComplete, code_of};

use crate::check::run_check;
use crate::refuse::refuse;
use crate::show::run_show;
use crate::status::Status;
use flash_io::{Sink, Source, WordList};
use std::alloc::Global;
use tool_text::{Usage, Words, read_words};

/// Runs the command that the words say on the bytes of `log` and `script`, and writes its text to
/// `out`. The answer is the program's status.
///
/// | Status | Comes where | Text |
/// |---|---|---|
/// | 0 | all was done | the command's |
/// | 2 | the words are no command | `refused words` |
/// | 3 | the log has more than 268,435,456 bytes, or its header or a frame is refused | `refused log limit`, `refused log frame N CAUSE` |
/// | 4 | the script has more than 16,777,216 bytes, or is refused | `refused script limit`, `refused script text`, `refused script field PATH` |
/// | 5 | a read of the log failed | `fault log` |
/// | 6 | a read of the script failed | `fault script` |
/// | 8 | a write failed | a front of the command's text |
/// | 9 | memory ran out | nothing |
///
/// At 2 to 6 a front of the text is written where a write failed. A whole source is read before its
/// first byte is looked at, and the whole text is made before its first byte is written. The script
/// is read once the log's last entry is admitted, and not before. A source that the command doesn't
/// read is left as it was handed in, and so are both where the words are no command. At 5 and 6 no
/// more bytes were read than the source may have.
///
/// `show N` prints the rows that a read at the timestamp N is shown at the log's end, over all
/// handles: of each the newest commit that isn't after N, where it is a put. It reads the log alone.
/// `check` prints how many entries the log has and how many reads the script: `ok E entries R reads`.
/// Where the log is lawful, the script is one where it is read, and nothing failed, the status is 0,
/// or 9.
pub fn replay<R: AllocGlobal, L: Source, S: Source, W: Sink>(
    rt: &R,
    words: &WordList,
    log: &mut L,
    script: &mut S,
    out: &mut W,
) -> u8
    ensures words { (result ≡ 2) ↔ (IsCommand words.now → ⊥) }
    ensures answers { IsAnswer words.now result }
    ensures unread { LeavesUnread words.now result log.old log.new script.old script.new }
    ensures refused { Refuses words.now result
        (run_of L.Source S.Source W.Sink log.old log.new script.old script.new out.old out.new) }
    ensures fault { HasFault words.now result
        (run_of L.Source S.Source W.Sink log.old log.new script.old script.new out.old out.new) }
    ensures answered { result ≡ 0 → Answered words.now
        (run_of L.Source S.Source W.Sink log.old log.new script.old script.new out.old out.new) }
    ensures read_whole { result ≡ 0 → ReadsWhole words.now
        (run_of L.Source S.Source W.Sink log.old log.new script.old script.new out.old out.new) }
    ensures prefix { EndsWith words.now result
        (run_of L.Source S.Source W.Sink log.old log.new script.old script.new out.old out.new) }
    ensures complete { IsComplete words.now result
        (run_of L.Source S.Source W.Sink log.old log.new script.old script.new out.old out.new) }
{
    run(rt.alloc(), words, log, script, out).code()
}

#[tactic(auto, using(crate::proofs::Clauses::usage_unread, crate::proofs::Runs::usage_ends))]
fn run<L: Source, S: Source, W: Sink>(
    alloc: Global,
    words: &WordList,
    log: &mut L,
    script: &mut S,
    out: &mut W,
) -> Status
    ensures ends { IsRun words.now
        (run_of L.Source S.Source W.Sink log.old log.new script.old script.new out.old out.new)
        result }
    ensures unread { LeavesUnread words.now (code_of result) log.old log.new script.old script.new }
{
    match read_words(words) {
        Ok(Words::Show { ts }) => run_show(alloc, ts, log, out),
        Ok(Words::Check) => run_check(alloc, log, script, out),
        Ok(Words::Replay { .. }) => unreachable!(),
        Ok(Words::Gen { .. }) => unreachable!(),
        Err(Usage) => refuse(out, b"refused words\n", Status::Usage),
    }
}
