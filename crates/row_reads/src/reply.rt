// The right reply to a read.
ghost use Rattle.std.specs.Prelude.{◌≡◌, IfOk};
ghost use Rattle.committed_log.specs.Reads.{kept, rows};
ghost use Rattle.row_store.specs.Tests.{in_set};
ghost use Rattle.row_reads.specs.Right.{IsRightReply};

use crate::filter::kept;
use crate::refusal::read_regions;
use crate::shown::rows;
use column_block::{Bound, Row};
use flash_list::Items;
use flash_types::{Ask, Cut, Refusal};
use row_store::{SmallLog, Stop};
use std::alloc::Global;

/// A refusal, or the regions as they were read, one cut each, and their rows.
#[derive(Debug, Drop)]
pub enum Reply {
    Refused(Refusal),
    Answered { cuts: Items<Cut>, rows: Items<Row> },
}

// The rows of a read whose regions have these cuts.
fn rows_of(
    alloc: Global,
    log: &SmallLog<'_>,
    ask: &Ask,
    bound: Option<Bound>,
    cuts: &[Cut],
) -> Result<Items<Row>, Stop>
    ensures { IfOk result (λ found. found ≡ kept bound (rows log.now cuts.now ask.now.ts ask.now.clip)) }
{
    let found = match rows(alloc, log, cuts, ask.ts(), ask.clip()) {
        Ok(found) => found,
        Err(stop) => return Err(stop),
    };
    match kept(alloc, bound, found) {
        Ok(left) => Ok(Items::from_vec(left)),
        Err(stop) => Err(stop),
    }
}

/// The reply to a read where these entries are applied, with a safe point and a mark; a bound keeps
/// some of the rows.
pub fn answer(
    alloc: Global,
    log: &SmallLog<'_>,
    ask: &Ask,
    bound: Option<Bound>,
    set: &[bool],
    safe: u64,
    mark: u64,
) -> Result<Reply, Stop>
    ensures { IfOk result (IsRightReply log.now ask.now bound (in_set set.now) safe mark) }
{
    if ask.ts() < safe {
        return Ok(Reply::Refused(Refusal::BelowSafePoint { safe_point: safe }));
    }
    let cuts = match read_regions(alloc, log, ask.ts(), ask.regions(), set, mark) {
        Ok(Ok(cuts)) => cuts,
        Ok(Err(why)) => return Ok(Reply::Refused(why)),
        Err(stop) => return Err(stop),
    };
    match rows_of(alloc, log, ask, bound, cuts.as_slice()) {
        Ok(rows) => Ok(Reply::Answered { cuts, rows }),
        Err(stop) => Err(stop),
    }
}
