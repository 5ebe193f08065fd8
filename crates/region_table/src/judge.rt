// Why a read is refused.
ghost use Rattle.std.specs.Prelude.{◌≡◌};
ghost use Rattle.std.specs.Option.{option_or};
ghost use Rattle.committed_log.specs.Replies.{refused, same_epoch, unsettled_refusal};
ghost use Rattle.region_table.specs.Judging.{locked, refused_there, refused_kept, refused_list};
ghost use Rattle.region_table.specs.Table.{AtItsSet, kept_in};

use crate::table::{RegionTable, Regions};
use committed_log::Logs;
use flash_types::{Ask, AskRegion, Epoch, Refusal, RegionId, Ts, Wants};
use region_file::Entry;
use region_state::Region;

// The lock that is in the way of a read of a region.
fn locked(ts: Ts, id: RegionId, region: &Region) -> Option<Refusal>
    ensures { result ≡ locked ts id region.now }
{
    match region.first_lock(region.range(), ts) {
        None => None,
        Some((handle, start)) => Some(Refusal::Locked {
            region: id,
            index: region.index(),
            handle,
            start,
        }),
    }
}

fn same_epoch(a: Epoch, b: Epoch) -> bool
    ensures { result ≡ same_epoch a b }
{
    a.conf_ver == b.conf_ver && a.version == b.version
}

// The refusal of a region whose next entry stands at a position below the mark.
fn unsettled(id: RegionId, index: u64, next: Option<u64>, mark: u64) -> Option<Refusal>
    ensures { result ≡ unsettled_refusal id index next mark }
{
    match next {
        None => None,
        Some(next) => if next < mark {
            Some(Refusal::NotYet {
                region: id,
                applied: Some(index),
                wants: Wants::Mark { next, mark },
            })
        } else {
            None
        },
    }
}

// Why a region that is there can't be read, where its next entry stands at this position.
fn refused_there(
    ts: Ts,
    asked: AskRegion,
    next: Option<u64>,
    mark: u64,
    region: &Region,
) -> Option<Refusal>
    ensures { result ≡ refused_there ts asked next mark region.now }
{
    let index = region.index();
    if index < asked.index {
        return Some(Refusal::NotYet {
            region: asked.region,
            applied: Some(index),
            wants: Wants::Index(asked.index),
        });
    }
    if let Some(why) = unsettled(asked.region, index, next, mark) {
        return Some(why);
    }
    let epoch = region.epoch();
    if same_epoch(epoch, asked.epoch) {
        locked(ts, asked.region, region)
    } else {
        Some(Refusal::EpochNotMatch {
            region: asked.region,
            index,
            found: Some(epoch),
        })
    }
}

// Why a region can't be read, by what is kept of it.
fn refused_kept(
    logs: &Logs,
    regions: &Regions,
    ts: Ts,
    asked: AskRegion,
    mark: u64,
) -> Option<Refusal>
    ensures { result ≡ refused_kept logs.now ts asked mark (kept_in regions.now.entries asked.region) }
{
    match regions.get(&asked.region) {
        None => Some(Refusal::NotYet {
            region: asked.region,
            applied: None,
            wants: Wants::Index(asked.index),
        }),
        Some(Entry::Gone { index }) => Some(Refusal::EpochNotMatch {
            region: asked.region,
            index: *index,
            found: None,
        }),
        Some(Entry::There { region }) => refused_there(
            ts,
            asked,
            logs.next_of(asked.region, region.index()),
            mark,
            region,
        ),
    }
}

// Why an earlier region can't be read, or else this one.
fn first_refused(
    why: Option<Refusal>,
    logs: &Logs,
    regions: &Regions,
    ts: Ts,
    asked: AskRegion,
    mark: u64,
) -> Option<Refusal>
    ensures { result ≡ option_or why (refused_kept logs.now ts asked mark (kept_in regions.now.entries asked.region)) }
{
    match why {
        Some(why) => Some(why),
        None => refused_kept(logs, regions, ts, asked, mark),
    }
}

// The first of the regions that can't be read, and why.
fn refused_list(
    logs: &Logs,
    regions: &Regions,
    ts: Ts,
    asked: &[AskRegion],
    mark: u64,
) -> Option<Refusal>
    ensures { result ≡ refused_list logs.now regions.now.entries ts mark asked.now }
{
    let mut why = None;
    for one in asked {
        why = first_refused(why, logs, regions, ts, *one, mark);
    }
    why
}

impl RegionTable {
    /// Why a read is refused, if it is, in this order: its timestamp is below the safe point; then
    /// for each region of the ask in its order that it isn't born, is gone, has an index below the
    /// asked one, isn't settled for the mark, has another epoch than the asked one, or has a lock in
    /// the way. It takes no memory, and goes over the locks of the asked regions up to the first in
    /// the way.
    pub fn judge(&self, logs: &Logs, ask: &Ask, safe_point: Ts, mark: u64) -> Option<Refusal>
        ensures { AtItsSet logs.now self.now (λ A. result ≡ refused logs.now ask.now A safe_point mark) }
    {
        logs.told_lawful();
        if ask.ts() < safe_point {
            return Some(Refusal::BelowSafePoint { safe_point });
        }
        refused_list(logs, &self.regions, ask.ts(), ask.regions(), mark)
    }
}
