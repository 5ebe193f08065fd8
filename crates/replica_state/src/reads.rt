// Reads: why one is refused, and which regions it sees.
ghost use Rattle.std.specs.Prelude.{◌≡◌, None, Some, map, IfOk, IsSome};
ghost use Rattle.std.specs.List.{All};
ghost use Rattle.committed_log.specs.Replies.{AreCuts, refused};
ghost use Rattle.learner_read.specs.Pieces.{CutsAreApart};
ghost use Rattle.replica_state.specs.Core.{full};
ghost use Rattle.replica_state.specs.Reads.{cut_in};

use crate::Memory;
use crate::state::State;
use flash_types::{Ask, AskRegion, Cut, Refusal};
use region_table::RegionTable;
use std::alloc::Global;

// The cuts of regions that are there.
fn cuts_in(alloc: Global, table: &RegionTable, regions: &[AskRegion]) -> Result<Vec<Cut>, Memory>
    requires { All (λ asked. IsSome (cut_in table.now.regions asked)) regions.now }
    ensures { IfOk result (λ cuts. map (cut_in table.now.regions) regions.now ≡ map Some cuts.items) }
{
    let Ok(mut cuts) = Vec::with_capacity(alloc, regions.len()) else {
        return Err(Memory);
    };
    for asked in regions {
        let Some(cut) = table.cut(asked.region) else {
            unreachable!();
        };
        if cuts.push(cut).is_err() {
            return Err(Memory);
        }
    }
    Ok(cuts)
}

impl<G: Drop> State<G> {
    /// Why a read is refused, if it is: where its timestamp is below the safe point, or the first of
    /// its regions can't be read. It takes no memory.
    pub fn judge(&self, ask: &Ask) -> Option<Refusal>
        ensures { result ≡ refused self.now.log ask.now (full self.now) self.now.numbers.safe_point self.now.numbers.mark }
    {
        self.table.judge(&self.logs, ask, self.numbers.safe_point, self.numbers.mark)
    }

    /// The cuts of a read that isn't refused, one for each of its regions in their order; no handle
    /// lies in two of them.
    pub fn cuts_of(&self, ask: &Ask) -> Result<Vec<Cut>, Memory>
        requires { refused self.now.log ask.now (full self.now) self.now.numbers.safe_point self.now.numbers.mark ≡ None }
        ensures cuts { IfOk result (λ cuts. AreCuts self.now.log (full self.now) ask.now.regions cuts.items) }
        ensures apart { IfOk result (λ cuts. CutsAreApart cuts.items) }
    {
        self.logs.told_lawful();
        let cuts = cuts_in(self.alloc, &self.table, ask.regions())?;
        Ok(cuts)
    }
}
