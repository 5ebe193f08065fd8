// Stable files that are open.
ghost use Rattle.std.specs.Prelude.{◌≡◌, ◌<◌, ◌≤◌, ◌+◌, ◌^◌, ◌++◌, length, slice_get, slice_index_or, map, List, ℕ, IfOk, OnOk, Some};
ghost use Rattle.stable_file.specs.Faults.{Gives};
ghost use Rattle.stable_file.specs.Footer.{tail_at};
ghost use Rattle.stable_file.specs.Opened.{packs_of, schema_of, grip_of, HasEnd, ArePacks, count_in};

use crate::counts::count_in;
use crate::fault::ReadError;
use crate::footer::tail_of;
use crate::pack::Pack;
use column_block::{Memory, MinMax, Schema};
use flash_io::Gripped;
use flash_list::Items;
use flash_types::HandleRange;
use std::alloc::{AllocError, Global};
use std::marker::Model;
use std::sync::Arc;

/// What the owners of a stable file share.
#[derive(Drop)]
pub struct Parts<G> {
    /// The hold on its bytes.
    pub grip: G,
    /// The columns of its versions.
    pub schema: Schema,
    /// Its packs, as the footer tells them.
    pub packs: Items<Pack>,
}

/// A stable file that is open: what its footer tells, and a grip on its bytes. Its owners share
/// these; contracts see what they share.
#[derive(Drop)]
pub struct StableFile<G> {
    shared: Arc<Parts<G>, Global>,
}

impl<G> Model for StableFile<G> {
    ghost use Rattle.std.specs.Arc.{arc_value};
    ghost use Rattle.stable_file.specs.declared.file.Parts.{Parts};

    ghost Value = { Parts G };

    ghost use Rattle.stable_file.specs.Opened.{ArePacks};

    ghost view = { λ file. arc_value file.shared };

    ghost invariant = { λ file. ArePacks (arc_value file.shared).packs };
}

// The same schema once more.
fn copied(alloc: Global, schema: &Schema) -> Result<Schema, AllocError>
    ensures { IfOk result (λ copy. copy ≡ schema.now) }
{
    let columns = Vec::from_slice(alloc, schema.columns())?;
    match Schema::new(columns) {
        Ok(copy) => Ok(copy),
        Err(_) => unreachable!(),
    }
}

// The file with these packs.
pub fn made<G: Drop>(
    alloc: Global,
    grip: G,
    schema: &Schema,
    packs: Items<Pack>,
) -> Result<StableFile<G>, AllocError>
    requires { ArePacks packs }
    ensures packs { IfOk result (λ file. packs_of file ≡ packs) }
    ensures schema { IfOk result (λ file. schema_of file ≡ schema.now) }
    ensures grip { IfOk result (λ file. grip_of file ≡ grip) }
{
    let schema = copied(alloc, schema)?;
    let parts = Parts {
        grip,
        schema,
        packs,
    };
    match Arc::new(alloc, parts) {
        Ok(shared) => Ok(StableFile { shared }),
        Err(_) => Err(AllocError),
    }
}

/// Opens the stable file of this length, of which `tail` is the last bytes: all of them, or at
/// least the footer and the twelve bytes behind it. It reads no device.
///
/// The form is this project's own, its numbers big-endian: `FLST`; the packs, one behind the other,
/// as `pack_codec` describes them; the footer; the footer's length in 8 bytes; and `FLSE`. The
/// footer has an entry a pack, and then the number of packs in 8 bytes. An entry has the pack's place
/// 8 and length 8, the number of its versions 4, the least handle 8, the greatest handle 8, and for
/// each column of numbers a byte 0 where it has none, or 1, the least 8 and the greatest 8.
///
/// `Damaged` names the first place in the file that isn't of the form: its length where it has fewer
/// than twelve bytes; the footer's length where it is below 8 or passes the file's magic; the last
/// four bytes where they aren't `FLSE`; the number of packs where it is 0; then, entry by entry, a
/// place that isn't the end of the pack before, a length that passes the footer or, of the last
/// pack, doesn't reach it, a number of versions that is 0 or not the first pack's (the last pack may
/// have fewer), a handle that is below the one before it, a byte above 1, and a greatest number below
/// the least; the number of packs again where the entries end too early; and what stands behind the
/// last entry. `Memory` is want of memory. It never answers `Device`.
pub fn attach<G: Gripped>(
    alloc: Global,
    grip: G,
    len: u64,
    tail: &[u8],
    schema: &Schema,
) -> Result<StableFile<G>, ReadError>
    requires shorter { length tail.now ≤ len }
    requires footer { HasEnd len tail.now }
    ensures exact { Gives packs_of result (tail_at len schema.now tail.now) }
    ensures schema { IfOk result (λ file. schema_of file ≡ schema.now) }
    ensures grip { IfOk result (λ file. grip_of file ≡ grip) }
{
    let packs = tail_of(alloc, len, schema.columns(), tail)?;
    let Ok(file) = made(alloc, grip, schema, packs) else {
        return Err(ReadError::Memory);
    };
    Ok(file)
}

impl<G> StableFile<G> {
    // What the owners share.
    pub(crate) fn parts(&self) -> &Parts<G>
        ensures { result.now ≡ self.now }
    {
        &self.shared
    }

    /// One more owner of the open file. It copies nothing of it.
    pub fn share(&self) -> Result<StableFile<G>, Memory>
        ensures { IfOk result (λ file. file ≡ self.now) }
    {
        match Arc::try_clone(&self.shared) {
            Ok(shared) => Ok(StableFile { shared }),
            Err(_) => Err(Memory),
        }
    }

    /// The number of packs, at least one.
    pub fn packs(&self) -> u64
        ensures number { result ≡ length (packs_of self.now) }
        ensures some { 0 < result }
        ensures lawful { ArePacks (packs_of self.now) }
    {
        self.shared.packs.len() as u64
    }

    /// The place of a pack in the file, and the number of its bytes: so many from there on are what
    /// `pack_of` takes. Packs are counted from 0.
    pub fn place(&self, k: u64) -> (u64, u64)
        requires { k < length (packs_of self.now) }
        ensures exact { slice_get (map (λ (pack : Pack). (pack.place, pack.len)) (packs_of self.now)) k ≡ Some result }
        ensures reach { result.0 + result.1 < 2 ^ 64 }
    {
        let pack = self.shared.packs.at(k as usize);
        (pack.place, pack.len)
    }

    /// The number of versions in a pack, at least one.
    pub fn count(&self, k: u64) -> u32
        requires { k < length (packs_of self.now) }
        ensures { slice_get (map (λ (pack : Pack). pack.count) (packs_of self.now)) k ≡ Some result }
    {
        self.shared.packs.at(k as usize).count
    }

    /// The number of versions in the packs whose least handle is below the range's end and whose
    /// greatest isn't below its low: of the packs that may have a version in the range, at most 2^64
    /// less one. It reads no device.
    pub fn versions_in(&self, range: HandleRange) -> u64
        ensures { result ≡ count_in range (packs_of self.now) }
    {
        count_in(range, self.shared.packs.as_slice())
    }

    /// The least handle of a pack.
    pub fn low(&self, k: u64) -> i64
        requires { k < length (packs_of self.now) }
        ensures { slice_get (map (λ (pack : Pack). pack.low) (packs_of self.now)) k ≡ Some result }
    {
        self.shared.packs.at(k as usize).low
    }

    /// The greatest handle of a pack.
    pub fn high(&self, k: u64) -> i64
        requires { k < length (packs_of self.now) }
        ensures { slice_get (map (λ (pack : Pack). pack.high) (packs_of self.now)) k ≡ Some result }
    {
        self.shared.packs.at(k as usize).high
    }

    /// The range of the numbers that a pack has in a column. The column is a place in the schema;
    /// one that isn't of numbers has none.
    pub fn min_max(&self, k: u64, column: u32) -> MinMax
        requires { k < length (packs_of self.now) }
        ensures { slice_get (map (λ (pack : Pack). slice_index_or pack.ranges column MinMax.Empty) (packs_of self.now)) k ≡ Some result }
    {
        let pack = self.shared.packs.at(k as usize);
        range_at(pack, column as usize)
    }
}

fn range_at(pack: &Pack, column: usize) -> MinMax
    ensures { result ≡ slice_index_or pack.now.ranges column MinMax.Empty }
{
    if pack.ranges.len() <= column {
        return MinMax::Empty;
    }
    *pack.ranges.at(column)
}
