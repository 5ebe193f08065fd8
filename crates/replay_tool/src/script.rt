// Reading the script.
ghost use Rattle.std.specs.Prelude.{IfOk, IfErr};
ghost use Rattle.log_file.specs.Passages.{source_passage};
ghost use Rattle.replay_tool.specs.Scripts.{ReadsScript, IsNoScriptFrom};

use flash_io::{IntoError, Source, read_to_limit};
use std::alloc::Global;
use tool_text::{MOST_SCRIPT, Script, ScriptError};

/// Why there is no script.
#[derive(Debug, Drop)]
pub enum NoScript {
    /// The bytes are none, there are more of them than a script may have, or memory ran out.
    Refused(ScriptError),
    /// A read failed.
    Failed,
}

/// Reads a source to its end, at most one byte above the limit, and then its bytes as a script.
pub fn read_script<S: Source>(alloc: Global, source: &mut S) -> Result<Script, NoScript>
    ensures read { IfOk result (ReadsScript (source_passage S.Source source.old source.new)) }
    ensures refused { IfErr result (IsNoScriptFrom (source_passage S.Source source.old source.new)) }
{
    let mut bytes = Vec::new(alloc);
    match read_to_limit(source, MOST_SCRIPT, &mut bytes) {
        Ok(()) => match tool_text::read_script(alloc, &bytes) {
            Ok(script) => Ok(script),
            Err(error) => Err(NoScript::Refused(error)),
        },
        Err(IntoError::TooLong) => Err(NoScript::Refused(ScriptError::Limit)),
        Err(IntoError::Failed) => Err(NoScript::Failed),
        Err(IntoError::Memory) => Err(NoScript::Refused(ScriptError::Memory)),
    }
}
