// The bounds of a script over a log of some length.
ghost use Rattle.std.specs.Prelude.{◌≡◌, ◌<◌, ◌==◌, ◌∷◌, [], ℕ, Some, cond, length, slice_get, OnOk, IfOk};
ghost use Rattle.std.specs.BTreeMap.{get};
ghost use Rattle.std.specs.Ordering.{nat_cmp};
ghost use Rattle.script_rounds.specs.Building.{HasEvent, HasEvents, HasMore, HasReads, HasTaken};
ghost use Rattle.script_rounds.specs.Rounds.{AreRounds, Done, bound_of, end_of};

use crate::rounds::{Round, Rounds};
use column_block::Memory;
use std::alloc::Global;
use std::collections::BTreeMap;
use tool_text::{Event, Script, ScriptRead};

/// The count at which a run over a log of this length ends: where the script stops it, or the log's
/// length where that is less.
pub fn end_of(script: &Script, length: u64) -> u64
    ensures { result ≡ end_of script.now length }
{
    match script.stop_after {
        Some(stop) => stop.min(length),
        None => length,
    }
}

/// The count at which a read is made, in a run that ends at `end`.
pub fn bound_of(read: &ScriptRead, end: u64) -> u64
    ensures { result ≡ bound_of end read.now }
{
    read.after.min(end)
}

// Takes out what is done at a bound.
fn taken(rounds: &mut BTreeMap<u64, Round>, bound: u64, alloc: Global) -> Round
    ensures { HasTaken bound (get nat_cmp rounds.old) (get nat_cmp rounds.new) result }
{
    match rounds.remove(&bound) {
        Some(round) => round,
        None => Round {
            events: Vec::new(alloc),
            reads: Vec::new(alloc),
        },
    }
}

fn put(rounds: &mut BTreeMap<u64, Round>, bound: u64, round: Round) -> Result<(), Memory>
    ensures { OnOk result ((b : ℕ) → get nat_cmp rounds.new b ≡ cond (bound == b) (Some round) (get nat_cmp rounds.old b)) }
{
    match rounds.insert(bound, round) {
        Ok(_) => Ok(()),
        Err(_) => Err(Memory),
    }
}

// Makes a count a bound.
fn add_bound(rounds: &mut BTreeMap<u64, Round>, bound: u64, alloc: Global) -> Result<(), Memory>
    ensures { OnOk result (HasMore bound [] [] (get nat_cmp rounds.old) (get nat_cmp rounds.new)) }
{
    let round = taken(rounds, bound, alloc);
    put(rounds, bound, round)
}

// Adds the place of an event to a bound.
fn add_event_at(
    rounds: &mut BTreeMap<u64, Round>,
    bound: u64,
    place: usize,
    alloc: Global,
) -> Result<(), Memory>
    ensures { OnOk result (HasMore bound (place ∷ []) [] (get nat_cmp rounds.old) (get nat_cmp rounds.new)) }
{
    let mut round = taken(rounds, bound, alloc);
    if round.events.push(place).is_err() {
        return Err(Memory);
    }
    put(rounds, bound, round)
}

// Adds the place of a read to its bound.
fn add_read(
    rounds: &mut BTreeMap<u64, Round>,
    bound: u64,
    place: usize,
    alloc: Global,
) -> Result<(), Memory>
    ensures { OnOk result (HasMore bound [] (place ∷ []) (get nat_cmp rounds.old) (get nat_cmp rounds.new)) }
{
    let mut round = taken(rounds, bound, alloc);
    if round.reads.push(place).is_err() {
        return Err(Memory);
    }
    put(rounds, bound, round)
}

// Adds an event at its count, if the run comes so far.
fn add_event(
    rounds: &mut BTreeMap<u64, Round>,
    event: Event,
    place: usize,
    end: u64,
    alloc: Global,
) -> Result<(), Memory>
    ensures { OnOk result (HasEvent end place event (get nat_cmp rounds.old) (get nat_cmp rounds.new)) }
{
    if event.at > end {
        return Ok(());
    }
    add_event_at(rounds, event.at, place, alloc)?;
    Ok(())
}

fn event_at(events: &[Event], place: usize) -> Event
    requires { place < length events.now }
    ensures { slice_get events.now place ≡ Some result }
{
    events[place]
}

// Adds events, each at its count, if the run comes so far.
fn add_events(
    rounds: &mut BTreeMap<u64, Round>,
    events: &[Event],
    end: u64,
    alloc: Global,
) -> Result<(), Memory>
    ensures { OnOk result (HasEvents end events.now (get nat_cmp rounds.old) (get nat_cmp rounds.new)) }
{
    for i in 0..events.len() {
        let event = event_at(events, i);
        add_event(rounds, event, i, end, alloc)?;
    }
    Ok(())
}

// Adds reads, each at the count where it is made.
fn add_reads(
    rounds: &mut BTreeMap<u64, Round>,
    reads: &[ScriptRead],
    end: u64,
    alloc: Global,
) -> Result<(), Memory>
    ensures { OnOk result (HasReads end reads.now (get nat_cmp rounds.old) (get nat_cmp rounds.new)) }
{
    for i in 0..reads.len() {
        let bound = bound_of(&reads[i], end);
        add_read(rounds, bound, i, alloc)?;
    }
    Ok(())
}

impl Rounds {
    /// The bounds of a run of the script over a log of this length, with what is done at each.
    pub fn of(script: &Script, length: u64, alloc: Global) -> Result<Rounds, Memory>
        ensures { IfOk result (AreRounds script.now length) }
    {
        let end = end_of(script, length);
        let mut rounds = BTreeMap::new(alloc);
        add_bound(&mut rounds, 0, alloc)?;
        add_bound(&mut rounds, end, alloc)?;
        add_events(&mut rounds, script.events.as_slice(), end, alloc)?;
        add_reads(&mut rounds, script.reads.as_slice(), end, alloc)?;
        Ok(Rounds { end, rounds })
    }
}
