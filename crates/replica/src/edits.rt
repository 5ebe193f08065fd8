// What a commit that writes says of Next and High.
ghost use Rattle.std.specs.Prelude.{◌≡◌, ◌≤◌, ◌∷◌, [], length, max, IfOk, IsErrOf};
ghost use Rattle.log_laws.specs.Chains.{chain_at};
ghost use Rattle.manifest_form.specs.declared.state.Edit.TheVariants as edit;
ghost use Rattle.replica.specs.Steps.{reached};

use committed_log::Logs;
use flash_io::FileId;
use log_laws::laws::chains_are_extended;
use manifest::CommitError;
use manifest_form::Edit;
use replica_state::State;
use std::alloc::Global;

/// One past the greatest position that is applied, or High where that is above it.
pub fn reached<G: Drop>(state: &State<G>) -> u64
    ensures { result ≡ reached state.now }
{
    let high = state.high();
    let highest = state.highest();
    if high < highest { highest } else { high }
}

/// The edits of Next and High, where the digest of the log's entries below the old High is given.
pub fn heads(
    logs: &Logs,
    next: FileId,
    chain: [u8; 32],
    old: u64,
    high: u64,
    alloc: Global,
) -> Result<Vec<Edit>, CommitError>
    requires chain { chain ≡ chain_at logs.now old }
    requires order { old ≤ high }
    requires within { high ≤ length logs.now.entries }
    ensures edits { IfOk result (λ edits. edits.items ≡ edit.Next next ∷ edit.High high (chain_at logs.now high) ∷ []) }
    ensures memory { IsErrOf result CommitError.Device → ⊥ }
{
    chains_are_extended();
    let Ok(mut edits) = Vec::with_capacity(alloc, 3) else {
        return Err(CommitError::Memory);
    };
    if edits.push(Edit::Next { file: next }).is_err() {
        return Err(CommitError::Memory);
    }
    let chain = logs.extended_chain(chain, old, high);
    if edits
        .push(Edit::High {
            entries: high,
            chain,
        })
        .is_err()
    {
        return Err(CommitError::Memory);
    }
    Ok(edits)
}
