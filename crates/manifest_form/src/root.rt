// The root: which file is the manifest.
ghost use Rattle.std.specs.Prelude.{◌≡◌, length, Some, None};
ghost use Rattle.std.specs.Option.{option_map};
ghost use Rattle.flash_list.specs.Steps.{seen};
ghost use Rattle.manifest_form.specs.Walk.{may_have, sized_at, record_at, walk, root_step, root_of};
ghost use Rattle.manifest_form.specs.Takes.{IsRoot};
ghost use Rattle.manifest_form.specs.Roots.{file_named, NamesAt};

use crate::fault::Fault;
use crate::field::here;
use flash_io::FileId;
use flash_list::{u32_or, u64_or};

fn may_have(wanted: Option<u64>, len: u64) -> bool
    ensures { result ≡ may_have wanted len }
{
    match wanted {
        None => true,
        Some(wanted) => len == wanted,
    }
}

#[tactic(auto, unfolding(crate::specs::Walk::sized_at))]
fn sized_of(wanted: Option<u64>, end: u64, bytes: &[u8]) -> Result<(&[u8], &[u8]), Fault>
    ensures { seen (λ x. (x.0.now, x.1.now)) result ≡ sized_at wanted end bytes.now }
{
    let (len, rest) = u64_or(Fault::At { at: end }, bytes)?;
    if !may_have(wanted, len) {
        return Err(here(end, bytes));
    }
    if (rest.len() as u64) < len {
        return Err(Fault::At { at: end });
    }
    let (front, back) = rest.split_at(len as usize);
    Ok((front, back))
}

/// The record behind the gate at the front, and what stands behind it, in a file that ends at
/// `end`. None where the gate is closed.
#[tactic(auto, unfolding(crate::specs::Walk::record_at))]
pub fn record_of(
    wanted: Option<u64>,
    end: u64,
    bytes: &[u8],
) -> Result<Option<(&[u8], &[u8])>, Fault>
    ensures { seen (λ found. option_map (λ x. (x.0.now, x.1.now)) found) result ≡ record_at wanted end bytes.now }
{
    match bytes {
        [] => Err(Fault::At { at: end }),
        [gate, rest @ ..] => {
            if *gate != 1 {
                return Ok(None);
            }
            let found = sized_of(wanted, end, rest)?;
            Ok(Some(found))
        }
    }
}

/// The file that a root names, and where its records end.
#[derive(Clone, Copy, Debug)]
pub struct RootEnd {
    /// The number of the manifest's file.
    pub file: FileId,
    /// The place of the gate behind the records that count.
    pub at: u64,
}

// What the last record names.
fn last_of(bytes: &[u8]) -> Result<Option<RootEnd>, Fault>
    ensures name { seen file_named result ≡ walk root_step (Some 4) (length bytes.now) (length bytes.now) None bytes.now }
    ensures place { NamesAt bytes.now result }
{
    let stop = bytes.len() as u64;
    let mut name = None;
    let mut rest = bytes;
    for _ in 0..bytes.len() {
        let gate = stop.saturating_sub(rest.len() as u64);
        let Some((number, after)) = record_of(Some(4), stop, rest)? else {
            return Ok(placed(name, gate));
        };
        let (file, _) = u32_or(Fault::At { at: gate }, number)?;
        name = Some(file);
        rest = after;
    }
    Err(Fault::At { at: stop })
}

fn placed(name: Option<FileId>, at: u64) -> Option<RootEnd>
    ensures { result ≡ option_map (λ file. record { file = file; at = at }) name }
{
    match name {
        Some(file) => Some(RootEnd { file, at }),
        None => None,
    }
}

/// What a root names. None where nothing was ever committed: where the root is shorter than 2
/// bytes, or its first gate is closed.
#[tactic(auto, unfolding(crate::specs::Walk::root_of))]
pub fn named(bytes: &[u8]) -> Result<Option<RootEnd>, Fault>
    ensures name { seen file_named result ≡ root_of bytes.now }
    ensures place { NamesAt bytes.now result }
{
    if bytes.len() < 2 {
        return Ok(None);
    }
    last_of(bytes)
}

/// The file that a root names, as `named` has it.
pub fn root_of(bytes: &[u8]) -> Result<Option<FileId>, Fault>
    ensures { result ≡ root_of bytes.now }
{
    match named(bytes) {
        Ok(Some(name)) => Ok(Some(name.file)),
        Ok(None) => Ok(None),
        Err(fault) => Err(fault),
    }
}
