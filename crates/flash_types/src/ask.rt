// What a read asks for.
ghost use Rattle.std.specs.Prelude.{◌≡◌, ◌≤◌, ◌<◌, List, length, take, Contains, IsTrue, ◌↔◌, IfOk, OnOk, IfErr, IfSome, IsNone};
ghost use Rattle.flash_types.specs.Asks.{Asked, CanBeAsked, IsCause, IsFirstRepeat, AreDistinct, Names};

use crate::range::HandleRange;
use crate::{Epoch, RegionId, Ts};
use std::marker::Model;

/// A region that a read asks for: it is to have this epoch, and an applied index that isn't lower.
#[derive(Clone, Copy, Debug, PartialEq, Eq)]
pub struct AskRegion {
    pub region: RegionId,
    pub epoch: Epoch,
    pub index: u64,
}

/// Why regions can't be asked.
#[derive(Clone, Copy, Debug, PartialEq, Eq)]
pub enum AskError {
    /// There is no region.
    Empty,
    /// There are more than 64 regions.
    TooMany { count: u64 },
    /// The first region that stood earlier in the list.
    Twice { region: RegionId },
    /// Memory ran out.
    Memory,
}

/// A read at a timestamp of 1 to 64 regions, each once. Of their handles those within the clip are
/// wanted; an empty clip gives no rows.
#[derive(Debug, Drop)]
pub struct Ask {
    ts: Ts,
    regions: Vec<AskRegion>,
    clip: HandleRange,
}

impl Model for Ask {
    ghost use Rattle.flash_types.specs.Asks.{Asked, CanBeAsked};

    ghost Value = { Asked };

    ghost view = { λ ask. record { ts = ask.ts; regions = ask.regions.items; clip = ask.clip } };

    ghost invariant = { λ ask. CanBeAsked ask.regions.items };
}

impl Ask {
    /// An ask of these regions, or the first error that stands, in the errors' order. It takes no
    /// memory itself.
    pub fn new(ts: Ts, regions: Vec<AskRegion>, clip: HandleRange) -> Result<Ask, AskError>
        ensures asked { IfOk result (λ ask. ask ≡ record { ts = ts; regions = regions.items; clip = clip }) }
        ensures can { OnOk result (CanBeAsked regions.items) }
        ensures cause { IfErr result (IsCause regions.items) }
        ensures no_memory { result ≡ Err AskError.Memory → ⊥ }
    {
        if regions.is_empty() {
            return Err(AskError::Empty);
        }
        if regions.len() > MOST_REGIONS {
            return Err(AskError::TooMany {
                count: regions.len() as u64,
            });
        }
        if let Some(region) = first_repeat(&regions) {
            return Err(AskError::Twice { region });
        }
        Ok(Ask { ts, regions, clip })
    }

    /// The timestamp that is read at.
    pub fn ts(&self) -> Ts
        ensures { result ≡ self.now.ts }
    {
        self.ts
    }

    /// The handles that are wanted.
    pub fn clip(&self) -> HandleRange
        ensures { result ≡ self.now.clip }
    {
        self.clip
    }

    /// The regions, in the ask's order.
    pub fn regions(&self) -> &[AskRegion]
        ensures order { result.now ≡ self.now.regions }
        ensures can { CanBeAsked result.now }
    {
        self.regions.as_slice()
    }
}

const MOST_REGIONS: usize = 64;

// The id of the first region that stood earlier. Lists are short: 64 regions at most.
fn first_repeat(regions: &[AskRegion]) -> Option<RegionId>
    ensures repeat { IfSome result (IsFirstRepeat regions.now) }
    ensures none { IsNone result → AreDistinct regions.now }
{
    for (place, asked) in regions.iter().enumerate() {
        if stands(&regions[..place], asked.region) {
            return Some(asked.region);
        }
    }
    None
}

fn stands(regions: &[AskRegion], region: RegionId) -> bool
    ensures { IsTrue result ↔ Names regions.now region }
{
    regions.iter().any(|other| other.region == region)
}
