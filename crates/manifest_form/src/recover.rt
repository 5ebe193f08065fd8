// What a manifest's file has.
ghost use Rattle.std.specs.Prelude.{◌≡◌, ◌≤◌, ◌-◌, ◌+◌, ◌++◌, List, ℕ, length, true, Some, None, OnOk, IfOk};
ghost use Rattle.column_block.specs.Schemas.{IsSchema};
ghost use Rattle.manifest_form.specs.Faults.{Gives};
ghost use Rattle.manifest_form.specs.States.{changed, is_formed, AllFormed};
ghost use Rattle.manifest_form.specs.Takes.{Takes, ClosedAt, Closes, IsManifest};
ghost use Rattle.manifest_form.specs.Walk.{walk, manifest_step, state_of, manifest_of};
ghost use Rattle.manifest_form.specs.Whole.{IdsDiffer};

use crate::apply::sets_marks;
use crate::edit::edits_of;
use crate::fault::Fault;
use crate::field::here;
use crate::growing::{Growing, apply_all};
use crate::header::{Header, header_of};
use crate::root::record_of;
use crate::state::{Edit, State};
use flash_io::FileId;
use std::alloc::Global;

/// What a store is of, and what it has named.
#[derive(Debug, Drop)]
pub struct Recovered {
    pub header: Header,
    pub state: State,
}

// The state that a record changes.
fn changed(alloc: Global, before: Option<Growing>, edits: &[Edit]) -> Option<Growing>
    ensures { result ≡ changed before edits.now }
{
    match before {
        Some(state) => Some(state),
        None => {
            if sets_marks(edits) {
                Some(Growing::new(alloc))
            } else {
                None
            }
        }
    }
}

// One record. Its gate stands at `gate`, and it ends at `stop`.
#[tactic(auto, unfolding(crate::specs::Walk::manifest_step))]
fn step(
    alloc: Global,
    file: FileId,
    gate: u64,
    stop: u64,
    before: Option<Growing>,
    bytes: &[u8],
) -> Result<Growing, Fault>
    ensures gives { Gives Some result (manifest_step file gate stop before bytes.now) }
    ensures formed { IfOk result (λ s. is_formed file s ≡ true) }
{
    let edits = edits_of(alloc, stop, bytes)?;
    let Some(before) = changed(alloc, before, edits.as_slice()) else {
        return Err(Fault::At { at: gate });
    };
    let after = apply_all(before, edits)?;
    if !after.is_formed(file) {
        return Err(Fault::At { at: gate });
    }
    Ok(after)
}

// What the records make of a state that isn't there yet, and the place of the gate behind them.
fn walked(
    alloc: Global,
    file: FileId,
    len: u64,
    bytes: &[u8],
) -> Result<(Option<Growing>, u64), Fault>
    requires within { length bytes.now ≤ len }
    ensures gives { Gives (λ x. x.0) result (walk (manifest_step file) None len (length bytes.now) None bytes.now) }
    ensures formed { IfOk result (λ x. AllFormed file x.0) }
    ensures found { IfOk result (λ x. (part : List ℕ) × ClosedAt part bytes.now × (len - length bytes.now + length part ≡ x.1) × Takes (manifest_step file) None (len - length bytes.now) None part x.0) }
{
    let mut state = None;
    let mut rest = bytes;
    for _ in 0..bytes.len() {
        let gate = len.saturating_sub(rest.len() as u64);
        let Some((edits, after)) = record_of(None, len, rest)? else {
            return Ok((state, gate));
        };
        let stop = len.saturating_sub(after.len() as u64);
        let next = step(alloc, file, gate, stop, state, edits)?;
        state = Some(next);
        rest = after;
    }
    Err(Fault::At { at: len })
}

#[tactic(auto, unfolding(crate::specs::Walk::state_of))]
fn state_of(alloc: Global, file: FileId, end: u64, bytes: &[u8]) -> Result<(State, u64), Fault>
    requires within { length bytes.now ≤ end }
    ensures gives { Gives (λ x. x.0) result (state_of file end bytes.now) }
    ensures formed { IfOk result (λ x. is_formed file x.0 ≡ true) }
    ensures found { IfOk result (λ x. (part : List ℕ) × ClosedAt part bytes.now × (end - length bytes.now + length part ≡ x.1) × Takes (manifest_step file) None (end - length bytes.now) None part (Some x.0)) }
{
    let (found, at) = walked(alloc, file, end, bytes)?;
    match found {
        None => Err(here(end, bytes)),
        Some(state) => Ok((state.into_state(), at)),
    }
}

/// What the manifest of this number has, of which these are the bytes, and the place of the gate
/// behind the records that count.
#[tactic(auto, unfolding(crate::specs::Walk::manifest_of))]
pub fn manifest_of(alloc: Global, file: FileId, bytes: &[u8]) -> Result<(Recovered, u64), Fault>
    ensures gives { Gives (λ x. x.0) result (manifest_of file bytes.now) }
    ensures formed { IfOk result (λ x. is_formed file x.0.state ≡ true) }
    ensures found { IfOk result (λ x. Closes (IsManifest file x.0) x.1 bytes.now) }

    // The columns make a schema, and no two segments have the same id.
    ensures lawful { IfOk result (λ x. IsSchema x.0.header.columns) }
    ensures differ { IfOk result (λ x. IdsDiffer x.0.state.segments) }
{
    let end = bytes.len() as u64;
    let (header, rest) = header_of(alloc, end, bytes)?;
    let (state, at) = state_of(alloc, file, end, rest)?;
    Ok((Recovered { header, state }, at))
}
