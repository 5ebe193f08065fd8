// Why a log is refused, and what is printed of it.
ghost use Rattle.std.specs.Prelude.{◌≡◌, ◌++◌, OnOk, codes};
ghost use Rattle.std.specs.Fmt.{decimal, signed_decimal};
ghost use Rattle.log_file.specs.Causes.{frame_text, state_text, entry_text, cause_text, refusal_text};

use committed_log::{RegionState, Unlawful};
use log_codec::FrameError;
use std::alloc::{AllocError, Global};

/// Why a frame is refused: it can't be read, or its entry can't follow the log before it.
#[derive(Clone, Copy, Debug, PartialEq, Eq)]
pub enum Cause {
    OfFrame(FrameError),
    OfEntry(Unlawful),
}

/// The first frame that is refused, the header being frame 0.
#[derive(Clone, Copy, Debug, PartialEq, Eq)]
pub struct Refusal {
    pub frame: u64,
    pub cause: Cause,
}

/// Adds the line that says what is refused and why.
pub fn push_refusal(alloc: Global, refusal: Refusal, into: &mut Vec<u8>) -> Result<(), AllocError>
    ensures { OnOk result (into.new.items ≡ into.old.items ++ refusal_text refusal) }
{
    push_number(alloc, b"refused log frame ", refusal.frame, into)?;
    push_end(alloc, refusal.cause, into)
}

fn push_end(alloc: Global, cause: Cause, into: &mut Vec<u8>) -> Result<(), AllocError>
    ensures { OnOk result (into.new.items ≡ into.old.items ++ (codes " " ++ (cause_text cause ++ codes "\n"))) }
{
    into.extend_from_slice(b" ")?;
    push_cause(alloc, cause, into)?;
    into.extend_from_slice(b"\n")
}

fn push_cause(alloc: Global, cause: Cause, into: &mut Vec<u8>) -> Result<(), AllocError>
    ensures { OnOk result (into.new.items ≡ into.old.items ++ cause_text cause) }
{
    match cause {
        Cause::OfFrame(error) => push_frame_error(alloc, error, into),
        Cause::OfEntry(error) => push_unlawful(alloc, error, into),
    }
}

fn push_frame_error(alloc: Global, error: FrameError, into: &mut Vec<u8>) -> Result<(), AllocError>
    ensures { OnOk result (into.new.items ≡ into.old.items ++ frame_text error) }
{
    match error {
        FrameError::Short { at } => push_number(alloc, b"short ", at, into),
        FrameError::Bad { at } => push_number(alloc, b"bad ", at, into),
        FrameError::Long { at } => push_number(alloc, b"long ", at, into),
        FrameError::Memory => Ok(()),
    }
}

fn push_unlawful(alloc: Global, error: Unlawful, into: &mut Vec<u8>) -> Result<(), AllocError>
    ensures { OnOk result (into.new.items ≡ into.old.items ++ entry_text error) }
{
    match error {
        Unlawful::Count => into.extend_from_slice(b"count"),
        Unlawful::Region { region, state } => {
            push_number(alloc, b"region ", region as u64, into)?;
            into.extend_from_slice(b" ")?;
            into.extend_from_slice(state_of(state))
        }
        Unlawful::Index { wants } => push_number(alloc, b"index ", wants, into),
        Unlawful::Range { handle } => push_handle(alloc, handle, into),
        Unlawful::Key { op } => push_number(alloc, b"key ", op as u64, into),
        Unlawful::Record { op } => push_number(alloc, b"record ", op as u64, into),
        Unlawful::Backdated { op, last } => {
            push_number(alloc, b"backdated ", op as u64, into)?;
            push_number(alloc, b" ", last, into)
        }
        Unlawful::NoValue { op } => push_number(alloc, b"no-value ", op as u64, into),
        Unlawful::Row { op } => push_number(alloc, b"row ", op as u64, into),
        Unlawful::UnknownColumn { op, id } => {
            push_number(alloc, b"column ", op as u64, into)?;
            push_number(alloc, b" ", id as u64, into)
        }
        Unlawful::Memory => Ok(()),
    }
}

fn state_of(state: RegionState) -> &'static [u8]
    ensures { result.now ≡ state_text state }
{
    match state {
        RegionState::Unborn => b"unborn",
        RegionState::Live => b"live",
        RegionState::Prepared => b"prepared",
        RegionState::Gone => b"gone",
    }
}

/// Adds a word, and a number in decimal.
pub fn push_number(
    alloc: Global,
    word: &[u8],
    number: u64,
    into: &mut Vec<u8>,
) -> Result<(), AllocError>
    ensures { OnOk result (into.new.items ≡ into.old.items ++ (word.now ++ decimal number)) }
{
    into.extend_from_slice(word)?;
    let digits = format!(in alloc; "{number}")?;
    into.extend_from_slice(digits.as_bytes())
}

fn push_handle(alloc: Global, handle: i64, into: &mut Vec<u8>) -> Result<(), AllocError>
    ensures { OnOk result (into.new.items ≡ into.old.items ++ (codes "range " ++ signed_decimal handle)) }
{
    let text = format!(in alloc; "range {handle}")?;
    into.extend_from_slice(text.as_bytes())
}
