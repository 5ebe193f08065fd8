// Why a read is refused.
ghost use Rattle.std.specs.Prelude.{◌≡◌, IfOk, None, Some, Ok, Err};
ghost use Rattle.committed_log.specs.Applied.{applied, next};
ghost use Rattle.committed_log.specs.Replies.{locked, same_epoch, unsettled_refusal, refused_there, refused_at, refused_regions, refused, cut_of};
ghost use Rattle.row_store.specs.Tests.{in_set};
ghost use Rattle.row_reads.specs.Steps.{IsReadOf, AreReadOf};

use crate::shown::store_at;
use committed_log::{Descriptor, Region};
use flash_list::Items;
use flash_types::{Ask, AskRegion, Cut, Epoch, Refusal, Wants};
use row_store::{SmallLog, Stop, applied, first_lock, next};
use std::alloc::Global;

// The lock that is in the way of a read of a region.
fn locked(
    alloc: Global,
    log: &SmallLog<'_>,
    ts: u64,
    region: u32,
    there: Descriptor,
) -> Result<Option<Refusal>, Stop>
    ensures { IfOk result (λ why. why ≡ locked log.now ts region there) }
{
    let store = match store_at(alloc, log, region, there.index) {
        Ok(store) => store,
        Err(stop) => return Err(stop),
    };
    match first_lock(store.locks(), there.range, ts) {
        None => Ok(None),
        Some(found) => Ok(Some(Refusal::Locked {
            region,
            index: there.index,
            handle: found.0,
            start: found.1.start,
        })),
    }
}

fn same_epoch(a: Epoch, b: Epoch) -> bool
    ensures { result ≡ same_epoch a b }
{
    a.conf_ver == b.conf_ver && a.version == b.version
}

// The refusal of a region whose next entry stands at a position below the mark.
fn unsettled_refusal(region: u32, index: u64, next: Option<usize>, mark: u64) -> Option<Refusal>
    ensures { result ≡ unsettled_refusal region index next mark }
{
    match next {
        None => None,
        Some(p) => if (p as u64) < mark {
            Some(Refusal::NotYet {
                region,
                applied: Some(index),
                wants: Wants::Mark {
                    next: p as u64,
                    mark,
                },
            })
        } else {
            None
        },
    }
}

// Why a region that is there can't be read.
fn refused_there(
    alloc: Global,
    log: &SmallLog<'_>,
    ts: u64,
    asked: AskRegion,
    next: Option<usize>,
    mark: u64,
    there: Descriptor,
) -> Result<Option<Refusal>, Stop>
    ensures { IfOk result (λ why. why ≡ refused_there log.now ts asked next mark there) }
{
    if there.index < asked.index {
        return Ok(Some(Refusal::NotYet {
            region: asked.region,
            applied: Some(there.index),
            wants: Wants::Index(asked.index),
        }));
    }
    if let Some(why) = unsettled_refusal(asked.region, there.index, next, mark) {
        return Ok(Some(why));
    }
    if same_epoch(there.epoch, asked.epoch) {
        locked(alloc, log, ts, asked.region, there)
    } else {
        Ok(Some(Refusal::EpochNotMatch {
            region: asked.region,
            index: there.index,
            found: Some(there.epoch),
        }))
    }
}

// The cut of a region that is there, or why it can't be read.
fn read_there(
    alloc: Global,
    log: &SmallLog<'_>,
    ts: u64,
    asked: AskRegion,
    next: Option<usize>,
    mark: u64,
    there: Descriptor,
) -> Result<Result<Cut, Refusal>, Stop>
    ensures { IfOk result (IsReadOf (refused_there log.now ts asked next mark there) (Some (record { region = asked.region; epoch = there.epoch; index = there.index; range = there.range }))) }
{
    match refused_there(alloc, log, ts, asked, next, mark, there) {
        Ok(Some(why)) => Ok(Err(why)),
        Ok(None) => Ok(Ok(Cut {
            region: asked.region,
            epoch: there.epoch,
            index: there.index,
            range: there.range,
        })),
        Err(stop) => Err(stop),
    }
}

// The cut of a region in this state, or why it can't be read.
fn read_at(
    alloc: Global,
    log: &SmallLog<'_>,
    ts: u64,
    asked: AskRegion,
    next: Option<usize>,
    mark: u64,
    state: Region,
) -> Result<Result<Cut, Refusal>, Stop>
    ensures { IfOk result (IsReadOf (refused_at log.now ts asked next mark state) (cut_of asked.region state)) }
{
    match state {
        Region::Unborn => Ok(Err(Refusal::NotYet {
            region: asked.region,
            applied: None,
            wants: Wants::Index(asked.index),
        })),
        Region::Gone(index) => Ok(Err(Refusal::EpochNotMatch {
            region: asked.region,
            index,
            found: None,
        })),
        Region::Live(there) => read_there(alloc, log, ts, asked, next, mark, there),
        Region::Prepared(there, _) => read_there(alloc, log, ts, asked, next, mark, there),
    }
}

// The cut of a region at a set, or why it can't be read.
fn read_one(
    alloc: Global,
    log: &SmallLog<'_>,
    ts: u64,
    asked: AskRegion,
    set: &[bool],
    mark: u64,
) -> Result<Result<Cut, Refusal>, Stop>
    ensures { IfOk result (IsReadOf (refused_at log.now ts asked (next log.now (in_set set.now) asked.region) mark (applied log.now (in_set set.now) asked.region)) (cut_of asked.region (applied log.now (in_set set.now) asked.region))) }
{
    let next = next(log, set, asked.region);
    match applied(alloc, log, set, asked.region) {
        Ok(state) => read_at(alloc, log, ts, asked, next, mark, state),
        Err(stop) => Err(stop),
    }
}

/// The cuts of the regions, in their order, or why the first of them that can't be read can't.
pub fn read_regions(
    alloc: Global,
    log: &SmallLog<'_>,
    ts: u64,
    regions: &[AskRegion],
    set: &[bool],
    mark: u64,
) -> Result<Result<Items<Cut>, Refusal>, Stop>
    ensures { IfOk result (AreReadOf log.now ts regions.now (in_set set.now) mark) }
{
    let mut cuts = Items::new(alloc);
    for asked in regions {
        match read_one(alloc, log, ts, *asked, set, mark) {
            Ok(Ok(cut)) => {
                let Ok(()) = cuts.push(cut) else {
                    return Err(Stop::Memory);
                };
            }
            Ok(Err(why)) => return Ok(Err(why)),
            Err(stop) => return Err(stop),
        }
    }
    Ok(Ok(cuts))
}

/// Why a read is refused where these entries are applied, if it is.
pub fn refused(
    alloc: Global,
    log: &SmallLog<'_>,
    ask: &Ask,
    set: &[bool],
    safe: u64,
    mark: u64,
) -> Result<Option<Refusal>, Stop>
    ensures { IfOk result (λ why. why ≡ refused log.now ask.now (in_set set.now) safe mark) }
{
    if ask.ts() < safe {
        return Ok(Some(Refusal::BelowSafePoint { safe_point: safe }));
    }
    match read_regions(alloc, log, ask.ts(), ask.regions(), set, mark) {
        Ok(Ok(_)) => Ok(None),
        Ok(Err(why)) => Ok(Some(why)),
        Err(stop) => Err(stop),
    }
}
