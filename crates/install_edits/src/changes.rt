// The edits of slots that give way to others.
ghost use Rattle.std.specs.Prelude.{◌≡◌, ◌++◌, ◌∷◌, [], OnOk, map};
ghost use Rattle.std.specs.List.{filter_map};
ghost use Rattle.segment_flush.specs.Flushing.{segment_edits};
ghost use Rattle.segment_flush.specs.Names.{stored_of};
ghost use Rattle.install_edits.specs.Edits.{change_edits, drop_of, has_number};

use crate::stored::stored_named;
use flash_types::SegId;
use manifest_form::Edit;
use segment_list::{Memory, Slot};
use std::alloc::Global;

// Whether one of the slots has this number.
fn has_number<G: Drop>(id: SegId, slots: &[Slot<G>]) -> bool
    ensures { result ≡ has_number id slots.now }
{
    for i in 0..slots.len() {
        if slots[i].id() == id {
            return true;
        }
    }
    false
}

// Adds an edit.
fn append(edits: &mut Vec<Edit>, edit: Edit) -> Result<(), Memory>
    ensures { OnOk result (edits.new.items ≡ edits.old.items ++ edit ∷ []) }
{
    match edits.push(edit) {
        Ok(()) => Ok(()),
        Err(_) => Err(Memory),
    }
}

// Adds the drop of a slot, unless one of the new ones has its number.
fn append_drop<G: Drop>(
    edits: &mut Vec<Edit>,
    old: &Slot<G>,
    news: &[Slot<G>],
) -> Result<(), Memory>
    ensures { OnOk result (edits.new.items ≡ edits.old.items ++ filter_map (drop_of news.now) (old.now ∷ [])) }
{
    if has_number(old.id(), news) {
        return Ok(());
    }
    append(edits, Edit::Drop { id: old.id() })
}

// Adds the drops of slots that give way.
fn append_drops<G: Drop>(
    edits: &mut Vec<Edit>,
    olds: &[Slot<G>],
    news: &[Slot<G>],
) -> Result<(), Memory>
    ensures { OnOk result (edits.new.items ≡ edits.old.items ++ filter_map (drop_of news.now) olds.now) }
{
    for i in 0..olds.len() {
        append_drop(edits, &olds[i], news)?;
    }
    Ok(())
}

// Adds the edit that puts a slot.
fn append_put<G: Drop>(edits: &mut Vec<Edit>, new: &Slot<G>, alloc: Global) -> Result<(), Memory>
    ensures { OnOk result (edits.new.items ≡ edits.old.items ++ segment_edits (map stored_of (new.now ∷ []))) }
{
    let segment = stored_named(new, alloc)?;
    append(edits, Edit::Segment { segment })
}

// Adds the edits that put slots.
fn append_puts<G: Drop>(
    edits: &mut Vec<Edit>,
    news: &[Slot<G>],
    alloc: Global,
) -> Result<(), Memory>
    ensures { OnOk result (edits.new.items ≡ edits.old.items ++ segment_edits (map stored_of news.now)) }
{
    for i in 0..news.len() {
        append_put(edits, &news[i], alloc)?;
    }
    Ok(())
}

/// Adds the edits of slots that give way to others: those whose numbers none of the new ones has are
/// dropped, and then the new ones are put, each with the files that are named.
pub fn append_changes<G: Drop>(
    edits: &mut Vec<Edit>,
    olds: &[Slot<G>],
    news: &[Slot<G>],
    alloc: Global,
) -> Result<(), Memory>
    ensures { OnOk result (edits.new.items ≡ edits.old.items ++ change_edits olds.now news.now) }
{
    append_drops(edits, olds, news)?;
    append_puts(edits, news, alloc)
}
