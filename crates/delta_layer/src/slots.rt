// The files of a layer, each with the index over the files up to and with it.
ghost use Rattle.std.specs.Prelude.{◌≡◌, ◌≤◌, [], ◌∷◌, ◌++◌, length, take, map, IfOk, OnOk, IfErr, OnErr, MatchOption};
ghost use Rattle.std.specs.Arc.{arc_value};
ghost use Rattle.delta_index.specs.Indexes.{extended};
ghost use Rattle.delta_layer.specs.Files.{indexed, index_of, IsLayered};
ghost use Rattle.delta_layer.specs.Slots.{files_in, indexes_in, AreSlots};

use crate::Memory;
use column_block::Block;
use column_file::ColumnFile;
use delta_index::DeltaIndex;
use std::alloc::Global;
use std::sync::Arc;

// A file, and the index over the files up to and with it.
#[derive(Drop)]
pub struct Slot {
    pub file: Arc<ColumnFile, Global>,
    pub index: Arc<DeltaIndex, Global>,
}

fn extended(index: &DeltaIndex, number: u64, block: &Block) -> Result<DeltaIndex, Memory>
    ensures { IfOk result (λ more. more ≡ extended index.now number block.now) }
{
    match index.extended(number, block) {
        Ok(more) => Ok(more),
        Err(_) => Err(Memory),
    }
}

// The index with one more file, of this number.
fn indexed(index: &DeltaIndex, number: u64, file: &ColumnFile) -> Result<DeltaIndex, Memory>
    ensures { IfOk result (λ more. more ≡ indexed number index.now file.now) }
{
    match file {
        ColumnFile::Mem { block } => extended(index, number, block),
        ColumnFile::Tiny { block, .. } => extended(index, number, block),
        ColumnFile::DeleteRange { range } => match index.cleared(*range) {
            Ok(less) => Ok(less),
            Err(_) => Err(Memory),
        },
    }
}

// The same, as several owners have it.
pub fn next_index(
    alloc: Global,
    index: &DeltaIndex,
    number: usize,
    file: &ColumnFile,
) -> Result<Arc<DeltaIndex, Global>, Memory>
    ensures { IfOk result (λ more. arc_value more ≡ indexed number index.now file.now) }
{
    let made = indexed(index, number as u64, file)?;
    match Arc::new(alloc, made) {
        Ok(shared) => Ok(shared),
        Err(_) => Err(Memory),
    }
}

// Adds a file with the index over the files up to and with it, or hands the file back for want of
// memory.
pub fn add_file(
    alloc: Global,
    slots: &mut Vec<Slot>,
    file: ColumnFile,
    index: Arc<DeltaIndex, Global>,
) -> Result<(), ColumnFile>
    requires slots { AreSlots (files_in slots.old.items) (indexes_in slots.old.items) }
    requires layered { IsLayered (files_in slots.old.items ++ file ∷ []) }
    requires index { arc_value index ≡ indexed (length (files_in slots.old.items)) (index_of (files_in slots.old.items)) file }
    ensures slots { AreSlots (files_in slots.new.items) (indexes_in slots.new.items) }
    ensures ok { OnOk result (files_in slots.new.items ≡ files_in slots.old.items ++ file ∷ []) }
    ensures err { OnErr result (files_in slots.new.items ≡ files_in slots.old.items) }
    ensures back { IfErr result (λ back. back ≡ file) }
{
    if slots.reserve(1).is_err() {
        return Err(file);
    }
    match Arc::new(alloc, file) {
        Ok(file) => {
            let Ok(()) = slots.push(Slot { file, index }) else {
                unreachable!();
            };
            Ok(())
        }
        Err(failed) => Err(failed.value),
    }
}

// The same of a file that others have too.
pub fn add_shared(
    slots: &mut Vec<Slot>,
    file: Arc<ColumnFile, Global>,
    index: Arc<DeltaIndex, Global>,
) -> Result<(), Memory>
    requires slots { AreSlots (files_in slots.old.items) (indexes_in slots.old.items) }
    requires layered { IsLayered (files_in slots.old.items ++ arc_value file ∷ []) }
    requires index { arc_value index ≡ indexed (length (files_in slots.old.items)) (index_of (files_in slots.old.items)) (arc_value file) }
    ensures slots { AreSlots (files_in slots.new.items) (indexes_in slots.new.items) }
    ensures ok { OnOk result (files_in slots.new.items ≡ files_in slots.old.items ++ arc_value file ∷ []) }
{
    let Ok(()) = slots.push(Slot { file, index }) else {
        return Err(Memory);
    };
    Ok(())
}

// Takes the last file off; none where there is none.
pub fn take_last(slots: &mut Vec<Slot>) -> Option<Arc<ColumnFile, Global>>
    requires { AreSlots (files_in slots.old.items) (indexes_in slots.old.items) }
    ensures slots { AreSlots (files_in slots.new.items) (indexes_in slots.new.items) }
    ensures last { MatchOption result ((files_in slots.old.items ≡ []) × (files_in slots.new.items ≡ [])) (λ last. files_in slots.old.items ≡ files_in slots.new.items ++ arc_value last ∷ []) }
{
    match slots.pop() {
        None => None,
        Some(slot) => {
            let Slot { file, .. } = slot;
            Some(file)
        }
    }
}

// One more owner of a slot's file.
pub fn share_file(slot: &Slot) -> Result<Arc<ColumnFile, Global>, Memory>
    ensures { IfOk result (λ file. arc_value file ≡ arc_value slot.now.file) }
{
    match Arc::try_clone(&slot.file) {
        Ok(shared) => Ok(shared),
        Err(_) => Err(Memory),
    }
}

// One more owner of a slot's index.
pub fn share_index(slot: &Slot) -> Result<Arc<DeltaIndex, Global>, Memory>
    ensures { IfOk result (λ index. arc_value index ≡ arc_value slot.now.index) }
{
    match Arc::try_clone(&slot.index) {
        Ok(shared) => Ok(shared),
        Err(_) => Err(Memory),
    }
}

// One more owner of each file.
pub fn files_in(alloc: Global, slots: &[Slot]) -> Result<Vec<Arc<ColumnFile, Global>>, Memory>
    ensures { IfOk result (λ files. map arc_value files.items ≡ files_in slots.now) }
{
    let mut files = Vec::new(alloc);
    for slot in slots {
        let file = share_file(slot)?;
        let Ok(()) = files.push(file) else {
            return Err(Memory);
        };
    }
    Ok(files)
}

// One more owner of each of the first files and of its index.
pub fn front_of(alloc: Global, slots: &[Slot], to: usize) -> Result<Vec<Slot>, Memory>
    requires slots { AreSlots (files_in slots.now) (indexes_in slots.now) }
    requires within { to ≤ length (files_in slots.now) }
    ensures files { IfOk result (λ copy. files_in copy.items ≡ take to (files_in slots.now)) }
    ensures slots { IfOk result (λ copy. AreSlots (files_in copy.items) (indexes_in copy.items)) }
{
    let (front, _) = slots.split_at(to);
    let copy = shared_slots(alloc, front)?;
    Ok(copy)
}

// One more owner of each file and of its index.
fn shared_slots(alloc: Global, slots: &[Slot]) -> Result<Vec<Slot>, Memory>
    ensures files { IfOk result (λ copy. files_in copy.items ≡ files_in slots.now) }
    ensures indexes { IfOk result (λ copy. indexes_in copy.items ≡ indexes_in slots.now) }
{
    let mut copy = Vec::new(alloc);
    for slot in slots {
        let file = share_file(slot)?;
        let index = share_index(slot)?;
        let Ok(()) = copy.push(Slot { file, index }) else {
            return Err(Memory);
        };
    }
    Ok(copy)
}
