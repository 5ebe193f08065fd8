// An entry, read for a replica.
ghost use Rattle.std.specs.Prelude.{◌≡◌, ◌<◌, length, IfOk, Some, slice_get};
ghost use Rattle.log_codec.specs.Writable.{BodyCanBeWritten};
ghost use Rattle.raft_apply.specs.Entries.{command_of, parsed};

use crate::command::{Command, Parsed};
use crate::ops::changes;
use column_block::Memory;
use committed_log::Logs;
use flash_types::{Epoch, HandleRange};
use log_codec::Body;
use std::alloc::Global;

fn command_of(alloc: Global, logs: &Logs, position: u64, body: &Body) -> Result<Command, Memory>
    requires position { position < length logs.now.entries }
    requires form { BodyCanBeWritten body.now }
    ensures { IfOk result (λ command. command ≡ command_of logs.now position body.now) }
{
    match body {
        Body::Open {
            conf_ver,
            version,
            low,
            high,
        } => Ok(Command::Open {
            epoch: Epoch {
                conf_ver: *conf_ver,
                version: *version,
            },
            range: HandleRange {
                low: *low,
                high: *high,
            },
        }),
        Body::Write { ops } => {
            let ops = changes(alloc, logs, position, ops.as_slice())?;
            Ok(Command::Write { ops })
        }
        Body::Split { at, child } => Ok(Command::Split {
            at: *at,
            child: *child,
        }),
        Body::Prepare { target } => Ok(Command::Prepare { target: *target }),
        Body::Commit { source } => Ok(Command::Commit { source: *source }),
        Body::Remove => Ok(Command::Remove),
        Body::Install {
            conf_ver,
            version,
            low,
            high,
            ops,
        } => {
            let ops = changes(alloc, logs, position, ops.as_slice())?;
            Ok(Command::Install {
                epoch: Epoch {
                    conf_ver: *conf_ver,
                    version: *version,
                },
                range: HandleRange {
                    low: *low,
                    high: *high,
                },
                ops,
            })
        }
        Body::Empty => Ok(Command::Empty),
    }
}

/// The entry at a position of the log, counted from 0, read for a replica that applies it. `Memory`
/// is want of memory. It copies no bytes, and takes time by the entry's ops alone, and for each of
/// them by the logarithm of the entry's repeats.
pub fn parse(alloc: Global, logs: &Logs, position: u64) -> Result<Parsed, Memory>
    requires { position < length logs.now.entries }
    ensures { IfOk result (λ it. parsed logs.now position ≡ Some it) }
{
    logs.told_lawful();
    let entry = logs.entry(position);
    let command = command_of(alloc, logs, position, &entry.body)?;
    Ok(Parsed {
        position,
        region: entry.region,
        index: entry.index,
        command,
    })
}
