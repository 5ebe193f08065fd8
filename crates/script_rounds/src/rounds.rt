// The bounds of a run with what is done at each.
ghost use Rattle.std.specs.Prelude.{◌≡◌, ◌<◌, ℕ, None, IsNone, IfSome};
ghost use Rattle.script_rounds.specs.Rounds.{IsNextBound, events_of, reads_of, round};

use std::collections::BTreeMap;
use std::marker::Model;
use std::ops::Bound;

/// What is done at a bound: places of the script's events and reads, in its order.
#[derive(Debug, Drop)]
pub struct Round {
    pub(crate) events: Vec<usize>,
    pub(crate) reads: Vec<usize>,
}

impl Model for Round {
    ghost use Rattle.script_rounds.specs.Rounds.{Done};

    ghost Value = { Done };

    ghost view = { λ r. record { events = r.events.items; reads = r.reads.items } };
}

/// The bounds of a run, in rising order, from 0 to its end. A bound is a count of applied entries
/// at which something is done: once the entries below it are applied, its events are run and then
/// its reads are made.
#[derive(Drop)]
pub struct Rounds {
    pub(crate) end: u64,
    pub(crate) rounds: BTreeMap<u64, Round>,
}

impl Model for Rounds {
    ghost use Rattle.script_rounds.specs.Rounds.{Planned};

    ghost Value = { Planned };

    ghost view = { λ r. record { end = r.end; rounds = r.rounds.entries } };
}

impl Rounds {
    /// The count at which the run ends.
    pub fn end(&self) -> u64
        ensures { result ≡ self.now.end }
    {
        self.end
    }

    /// The next bound above a count, or None where that is the end or above it.
    pub fn next_bound(&self, bound: u64) -> Option<u64>
        ensures next { IfSome result (IsNextBound self.now bound) }
        ensures none { IsNone result → (b : ℕ) → bound < b → round self.now b ≡ None }
    {
        let (next, _) = self
            .rounds
            .range((Bound::Excluded(bound), Bound::<u64>::Unbounded))
            .next()?;
        Some(*next)
    }

    /// The places of the events that are run at a bound, in the script's order; none at a count that
    /// is no bound.
    pub fn events_at(&self, bound: u64) -> &[usize]
        ensures { result.now ≡ events_of (round self.now bound) }
    {
        match self.rounds.get(&bound) {
            Some(round) => round.events.as_slice(),
            None => &[],
        }
    }

    /// The places of the reads that are made at a bound, in the script's order; none at a count that
    /// is no bound.
    pub fn reads_at(&self, bound: u64) -> &[usize]
        ensures { result.now ≡ reads_of (round self.now bound) }
    {
        match self.rounds.get(&bound) {
            Some(round) => round.reads.as_slice(),
            None => &[],
        }
    }
}
