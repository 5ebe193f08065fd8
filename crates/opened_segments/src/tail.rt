// The last bytes of a stable file.
ghost use Rattle.std.specs.Prelude.{◌≡◌, ◌≤◌, ◌-◌, ◌++◌, length, Ok, IfOk, IfErr, IsErrOf, IsTrue};
ghost use Rattle.flash_io.specs.Faults.{Rose};
ghost use Rattle.flash_io.specs.Image.{IsThere};
ghost use Rattle.flash_io.specs.Runs.{Counted, Untouched};
ghost use Rattle.stable_file.specs.Footer as footer;
ghost use Rattle.stable_file.specs.Opened.{IsTailOf};
ghost use Rattle.opened_segments.specs.Tails.{HasSlice, IsOutside, IsSizeFault, IsTail, IsTailFault, OfContent};

use crate::fault::OpenFault;
use flash_io::{Disk, FileId};
use flash_list::{u32_or, u64_or};
use pack_codec::FormError;
use std::alloc::Global;

// `FLSE`
const END_MAGIC: u32 = 0x464C_5345;

// Whether a footer has this length in a file of that one, of which so many bytes are at hand before
// the last twelve.
fn may_have_size(len: u64, front: u64, size: u64) -> bool
    ensures exact { result ≡ footer.may_have_size len front size }
    ensures within { IsTrue result → size ≤ front }
{
    8 <= size && 16 <= len && size <= len - 16 && size <= front
}

// The footer's length, in the last twelve bytes of a file.
#[tactic(auto, unfolding(stable_file::specs::Footer::size_at))]
fn size_of(len: u64, front: u64, last: &[u8]) -> Result<u64, FormError>
    ensures exact { result ≡ footer.size_at len front last.now }
    ensures within { IfOk result (λ size. size ≤ front) }
{
    let short = FormError::Damaged { at: len };
    let (size, rest) = u64_or(short, last)?;
    let (magic, _) = u32_or(short, rest)?;
    if !may_have_size(len, front, size) {
        return Err(FormError::Damaged {
            at: len.saturating_sub(12),
        });
    }
    if magic != END_MAGIC {
        return Err(FormError::Damaged {
            at: len.saturating_sub(4),
        });
    }
    Ok(size)
}

// The same of the file of this number.
fn sized(file: FileId, len: u64, last: &[u8]) -> Result<u64, OpenFault>
    requires some { 12 ≤ len }
    ensures within { IfOk result (λ size. size ≤ len - 12) }
    ensures told { IfOk result (λ size. footer.size_at len (len - 12) last.now ≡ Ok size) }
    ensures refused { IfErr result (IsSizeFault file len last.now) }
    ensures never { IsErrOf result OpenFault.Device → ⊥ }
{
    match size_of(len, len - 12, last) {
        Ok(size) => Ok(size),
        Err(FormError::Damaged { at }) => Err(OpenFault::Damaged { file, at }),
        Err(FormError::Memory) => Err(OpenFault::Memory),
    }
}

// At most so many bytes of a file from a place on. So many that their number hasn't 32 bits find no
// memory.
fn part_at<D: Disk>(
    disk: &mut D,
    file: FileId,
    at: u64,
    len: u64,
    alloc: Global,
) -> Result<Vec<u8>, OpenFault>
    requires there { D.tells → IsThere (D.files disk.old) file }
    ensures told { D.tells → IfOk result (λ bytes. HasSlice (D.files disk.old) file at len bytes.items) }
    ensures most { IfOk result (λ bytes. length bytes.items ≤ len) }
    ensures outside { IfErr result IsOutside }
    ensures untouched { Untouched D.files D.may_leave D.moment D.left_since disk.old disk.new }
    ensures counted { Counted D.fault_count D.reader_fault_count D.never_fails disk.old disk.new }
    ensures device { IsErrOf result OpenFault.Device → Rose (D.fault_count disk.old) (D.fault_count disk.new) }
{
    let Ok(len) = u32::try_from(len) else {
        return Err(OpenFault::Memory);
    };
    let mut bytes = Vec::new(alloc);
    disk.read(file, at, len, &mut bytes)?;
    Ok(bytes)
}

// Bytes, and others behind them.
fn joined(mut front: Vec<u8>, back: &[u8]) -> Result<Vec<u8>, OpenFault>
    ensures ok { IfOk result (λ all. all.items ≡ front.items ++ back.now) }
    ensures memory { IfErr result (λ e. e ≡ OpenFault.Memory) }
{
    match front.extend_from_slice(back) {
        Ok(()) => Ok(front),
        Err(_) => Err(OpenFault::Memory),
    }
}

// The footer of a file, with its last twelve bytes, which are at hand.
fn with_footer<D: Disk>(
    disk: &mut D,
    file: FileId,
    len: u64,
    last: &[u8],
    alloc: Global,
) -> Result<Vec<u8>, OpenFault>
    requires there { D.tells → IsThere (D.files disk.old) file }
    requires some { 12 ≤ len }
    requires most { length last.now ≤ 12 }
    requires last { D.tells → HasSlice (D.files disk.old) file (len - 12) 12 last.now }
    ensures refused { D.tells → IfErr result (IsTailFault (D.files disk.old) file len) }
    ensures told { D.tells → IfOk result (λ tail. OfContent (D.files disk.old) file len (IsTailOf len tail.items)) }
    ensures tail { IfOk result (λ tail. IsTail len tail.items) }
    ensures untouched { Untouched D.files D.may_leave D.moment D.left_since disk.old disk.new }
    ensures counted { Counted D.fault_count D.reader_fault_count D.never_fails disk.old disk.new }
    ensures device { IsErrOf result OpenFault.Device → Rose (D.fault_count disk.old) (D.fault_count disk.new) }
{
    let size = sized(file, len, last)?;
    let footer = part_at(disk, file, len - 12 - size, size, alloc)?;
    if (footer.len() as u64) < size {
        return Err(OpenFault::Damaged { file, at: len });
    }
    joined(footer, last)
}

/// The last bytes of a stable file of this length: its footer and the twelve bytes behind it. It reads
/// no pack. `Damaged` where the last twelve bytes tell no footer.
pub fn tail_of<D: Disk>(
    disk: &mut D,
    file: FileId,
    len: u64,
    alloc: Global,
) -> Result<Vec<u8>, OpenFault>
    requires there { D.tells → IsThere (D.files disk.old) file }
    ensures refused { D.tells → IfErr result (IsTailFault (D.files disk.old) file len) }
    ensures told { D.tells → IfOk result (λ tail. OfContent (D.files disk.old) file len (IsTailOf len tail.items)) }
    ensures tail { IfOk result (λ tail. IsTail len tail.items) }
    ensures untouched { Untouched D.files D.may_leave D.moment D.left_since disk.old disk.new }
    ensures counted { Counted D.fault_count D.reader_fault_count D.never_fails disk.old disk.new }
    ensures device { IsErrOf result OpenFault.Device → Rose (D.fault_count disk.old) (D.fault_count disk.new) }
{
    if len < 12 {
        return Err(OpenFault::Damaged { file, at: len });
    }
    let last = part_at(disk, file, len - 12, 12, alloc)?;
    with_footer(disk, file, len, last.as_slice(), alloc)
}
