// Reads of a script.
ghost use Rattle.std.specs.Prelude.{◌≡◌, IfOk};
ghost use Rattle.serde_json.specs.View.{view};
ghost use Rattle.tool_text.specs.Scripts.{region_in, clip_in, ask_in, read_in};
ghost use Rattle.tool_text.specs.Misfits.{Gives};

use crate::field::{maybe_signed, needed_number, number_or, signed_or};
use crate::list::{FromJson, needed_list};
use crate::misfit::{Misfit, at_field};
use crate::names::{Object, object_of};
use crate::script::ScriptRead;
use flash_list::Items;
use flash_types::{Ask, AskRegion, Epoch, HandleRange, Ts};
use serde_json::Value;
use std::alloc::Global;

const MOST_REGIONS: usize = 64;

/// The most that `after` and `at` may be.
pub const MOST_ENTRIES: u64 = 1_048_576;

impl FromJson for AskRegion {
    ghost use Rattle.tool_text.specs.Scripts.{region_in};

    ghost reading = { region_in };

    fn from_json(alloc: Global, value: &Value) -> Result<AskRegion, Misfit> {
        region_of(alloc, value)
    }
}

impl FromJson for ScriptRead {
    ghost use Rattle.tool_text.specs.Scripts.{read_in};

    ghost reading = { read_in };

    fn from_json(alloc: Global, value: &Value) -> Result<ScriptRead, Misfit> {
        read_of(alloc, value)
    }
}

#[tactic(auto, unfolding(crate::specs::Scripts::region_in))]
fn region_of(alloc: Global, value: &Value) -> Result<AskRegion, Misfit>
    ensures { Gives result (region_in (view value.now)) }
{
    object_of(alloc, Object::Region, value)?;
    let region = needed_number(alloc, value, "id", 0, u32::MAX as u64)?;
    let conf_ver = needed_number(alloc, value, "conf_ver", 0, u64::MAX)?;
    let version = needed_number(alloc, value, "version", 0, u64::MAX)?;
    let index = needed_number(alloc, value, "index", 0, u64::MAX)?;
    Ok(AskRegion {
        region: region as u32,
        epoch: Epoch { conf_ver, version },
        index,
    })
}

#[tactic(auto, unfolding(crate::specs::Scripts::clip_in))]
fn clip_of(alloc: Global, value: &Value) -> Result<HandleRange, Misfit>
    ensures { Gives result (clip_in (view value.now)) }
{
    let low = signed_or(alloc, i64::MIN, value, "low")?;
    let high = maybe_signed(alloc, value, "high")?;
    Ok(HandleRange { low, high })
}

// Regions that can't be asked are told before a clip that can't be read.
#[tactic(auto, unfolding(crate::specs::Scripts::ask_in), using(crate::proofs::Failing::failing, crate::proofs::Asking::can_ask, crate::proofs::Asking::can_not_ask))]
fn ask_of(alloc: Global, ts: Ts, regions: Items<AskRegion>, value: &Value) -> Result<Ask, Misfit>
    ensures { Gives result (ask_in ts regions (view value.now)) }
{
    let clip = clip_of(alloc, value);
    match Ask::new(ts, regions.into_vec(), clip_or_all(&clip)) {
        Ok(ask) => match clip {
            Ok(_clip) => Ok(ask),
            Err(misfit) => Err(misfit),
        },
        Err(_error) => Err(at_field(alloc, b"regions")),
    }
}

fn clip_or_all(clip: &Result<HandleRange, Misfit>) -> HandleRange
    ensures { IfOk clip.now (λ range. result ≡ range) }
{
    match clip {
        Ok(range) => *range,
        Err(_misfit) => HandleRange {
            low: i64::MIN,
            high: None,
        },
    }
}

#[tactic(auto, unfolding(crate::specs::Scripts::read_in))]
fn read_of(alloc: Global, value: &Value) -> Result<ScriptRead, Misfit>
    ensures { Gives result (read_in (view value.now)) }
{
    object_of(alloc, Object::Read, value)?;
    let ts = needed_number(alloc, value, "ts", 0, u64::MAX)?;
    let regions = needed_list::<AskRegion>(alloc, value, "regions", MOST_REGIONS)?;
    let ask = ask_of(alloc, ts, regions, value)?;
    let after = number_or(alloc, 0, value, "after", 0, MOST_ENTRIES)?;
    Ok(ScriptRead { ask, after })
}
