// The line of a script that is refused.
ghost use Rattle.std.specs.Prelude.{◌≡◌, ◌++◌, OnOk, OnErr, codes};
ghost use Rattle.tool_text.specs.Texts.{Begins};
ghost use Rattle.tool_text.specs.Refusals.{script_error_text};

use crate::push::push;
use crate::script::ScriptError;
use column_block::Memory;

/// Appends the line that says why a script is refused: `refused script limit`,
/// `refused script text`, or `refused script field PATH`. For want of memory there is no line.
/// After `Err` a front of the line stands behind the text.
#[tactic(auto, using(crate::proofs::Begins::begins))]
pub fn print_script_error(error: &ScriptError, into: &mut Vec<u8>) -> Result<(), Memory>
    ensures ok { OnOk result (into.new.items ≡ into.old.items ++ script_error_text error.now) }
    ensures err { OnErr result (Begins into.old.items into.new.items) }
{
    match error {
        ScriptError::Limit => push(into, b"refused script limit\n"),
        ScriptError::Text => push(into, b"refused script text\n"),
        ScriptError::Field { path } => {
            push(into, b"refused script field ")?;
            push(into, path.as_slice())?;
            push(into, b"\n")
        }
        ScriptError::Memory => Ok(()),
    }
}
