// Reading a script.
ghost use Rattle.std.specs.Prelude.{◌≡◌, ◌≤◌, IfOk, IfErr, length, min};
ghost use Rattle.serde_json.specs.Data.{Data};
ghost use Rattle.serde_json.specs.View.{view};
ghost use Rattle.tool_text.specs.Scripts.{settings_in, join_rows_in, workers_in, script_in, told, most_script, IsScript, IsErrorOf, IsJson};
ghost use Rattle.tool_text.specs.Limits.{IsWithinLimits};
ghost use Rattle.tool_text.specs.Misfits.{Gives, Tells};

use crate::field::{maybe_number, small_or};
use crate::list::list_or_none;
use crate::misfit::Misfit;
use crate::names::{Object, object_of};
use crate::read::MOST_ENTRIES;
use crate::script::{Event, PathText, Script, ScriptError, ScriptRead};
use flash_list::Bytes;
use flash_types::Settings;
use serde_json::Value;
use std::alloc::{AllocError, Global};

/// The most bytes that a script may have.
pub const MOST_SCRIPT: u64 = 16_777_216;

const MOST_ITEMS: usize = 10_000;

const MOST_ROWS: u32 = 1_048_576;

const MOST_PACK_ROWS: u32 = 65_536;

/// The script that the bytes are: one object of JSON (RFC 8259), of whose names the last of equal
/// ones counts. All its fields are optional.
///
/// | Field | Value | Where it isn't there |
/// |---|---|---|
/// | `appliers`, `background`, `scanners` | 0 to 5 | 3, 2, 3 |
/// | `mem_rows`, `tiny_files`, `delta_rows` | 1 to 1,048,576 | 512, 8, 4096 |
/// | `split_rows` | 1 to 1,048,576 | 8192 |
/// | `join_rows` | 1 to `split_rows` | the lesser of 1024 and `split_rows` |
/// | `pack_rows` | 1 to 65,536 | 1024 |
/// | `stop_after` | 0 to 1,048,576 | none |
/// | `events`, `reads` | lists of at most 10,000 | empty |
///
/// An event has `at`, from 0 to 1,048,576, and as `do` the text `flush`, `compact`, `merge_delta`,
/// `split`, `merge`, `checkpoint` or `safe_point`; with the last alone it has a `ts` of 64 bits. A
/// read has a `ts` of 64 bits and `regions`, a list of 1 to 64 objects with `id`, of 32 bits, and
/// `conf_ver`, `version` and `index`, of 64 bits, no id twice; and it may have `low` and `high`, of
/// 64 bits with a sign, which are the least handle and no end where they aren't there, and `after`,
/// from 0 to 1,048,576, which is 0. Numbers are whole: `5.0` and `1e2` are of another type, and so
/// is `-0`.
///
/// `Limit` comes exactly where there are more than 16,777,216 bytes, then `Text` where they are no
/// JSON, then `Field`, with the path of the first of these. In an object first the unknown name
/// that is the least in byte order; then the known names, in the order above, each where it is
/// missing, of another type or out of range. Of a list, its length where it is too long, then its
/// items; regions that can't be asked are told after them, as `regions`. A `ts` in an event that
/// isn't to set the safe point is an unknown name. `Memory` may come in the place of any of these
/// but the first, and of the script.
pub fn read_script(alloc: Global, bytes: &[u8]) -> Result<Script, ScriptError>
    ensures script { IfOk result (λ script. IsScript bytes.now script) }
    ensures within { IfOk result (λ script. IsWithinLimits script) }
    ensures refused { IfErr result (λ error. IsErrorOf bytes.now error) }
{
    if bytes.len() as u64 > MOST_SCRIPT {
        return Err(ScriptError::Limit);
    }
    match Value::from_slice(alloc, bytes) {
        Ok(value) => match script_of(alloc, &value) {
            Ok(script) => Ok(script),
            Err(misfit) => Err(told_error(alloc, misfit)),
        },
        Err(error) => {
            if error.is_memory() {
                return Err(ScriptError::Memory);
            }
            Err(ScriptError::Text)
        }
    }
}

fn told_error(alloc: Global, misfit: Misfit) -> ScriptError
    ensures { Tells misfit result }
{
    match misfit {
        Misfit::Memory => ScriptError::Memory,
        Misfit::At(path) => match told(alloc, path.as_slice()) {
            Ok(path) => ScriptError::Field { path },
            Err(_no_memory) => ScriptError::Memory,
        },
    }
}

fn told(alloc: Global, path: &[u8]) -> Result<PathText, AllocError>
    ensures { IfOk result (λ text. text ≡ told path.now) }
{
    match path {
        [_dot, names @ ..] => Bytes::from_slice(alloc, names),
        [] => Bytes::from_slice(alloc, b"."),
    }
}

#[tactic(auto, unfolding(crate::specs::Scripts::script_in))]
fn script_of(alloc: Global, value: &Value) -> Result<Script, Misfit>
    ensures { Gives result (script_in (view value.now)) }
{
    object_of(alloc, Object::Script, value)?;
    let workers = workers_of(alloc, value)?;
    let settings = settings_of(alloc, value)?;
    let stop_after = maybe_number(alloc, value, "stop_after", 0, MOST_ENTRIES)?;
    let events = list_or_none::<Event>(alloc, value, "events", MOST_ITEMS)?;
    let reads = list_or_none::<ScriptRead>(alloc, value, "reads", MOST_ITEMS)?;
    Ok(Script {
        appliers: workers.appliers,
        background: workers.background,
        scanners: workers.scanners,
        settings,
        stop_after,
        events,
        reads,
    })
}

/// How many workers there are of each kind.
#[derive(Clone, Copy, Debug, PartialEq, Eq)]
pub struct Workers {
    pub appliers: u32,
    pub background: u32,
    pub scanners: u32,
}

#[tactic(auto, unfolding(crate::specs::Scripts::workers_in))]
fn workers_of(alloc: Global, value: &Value) -> Result<Workers, Misfit>
    ensures { Gives result (workers_in (view value.now)) }
{
    let appliers = small_or(alloc, 3, value, "appliers", 0, 5)?;
    let background = small_or(alloc, 2, value, "background", 0, 5)?;
    let scanners = small_or(alloc, 3, value, "scanners", 0, 5)?;
    Ok(Workers {
        appliers,
        background,
        scanners,
    })
}

#[tactic(auto, unfolding(crate::specs::Scripts::settings_in))]
fn settings_of(alloc: Global, value: &Value) -> Result<Settings, Misfit>
    ensures { Gives result (settings_in (view value.now)) }
{
    let mem_rows = small_or(alloc, 512, value, "mem_rows", 1, MOST_ROWS)?;
    let tiny_files = small_or(alloc, 8, value, "tiny_files", 1, MOST_ROWS)?;
    let delta_rows = small_or(alloc, 4096, value, "delta_rows", 1, MOST_ROWS)?;
    let split_rows = small_or(alloc, 8192, value, "split_rows", 1, MOST_ROWS)?;
    let join_rows = join_rows_of(alloc, split_rows, value)?;
    let pack_rows = small_or(alloc, 1024, value, "pack_rows", 1, MOST_PACK_ROWS)?;
    Ok(Settings {
        mem_rows,
        tiny_files,
        delta_rows,
        split_rows,
        join_rows,
        pack_rows,
    })
}

#[tactic(auto, unfolding(crate::specs::Scripts::join_rows_in))]
fn join_rows_of(alloc: Global, split_rows: u32, value: &Value) -> Result<u32, Misfit>
    ensures { Gives result (join_rows_in split_rows (view value.now)) }
{
    small_or(
        alloc,
        join_rows_for(split_rows),
        value,
        "join_rows",
        1,
        split_rows,
    )
}

fn join_rows_for(split_rows: u32) -> u32
    ensures lesser { result ≡ min 1024 split_rows }
    ensures within { result ≤ split_rows }
{
    if split_rows < 1024 { split_rows } else { 1024 }
}
