//! Turns at work, in one thread and in several.
ghost use Rattle.std.specs.Prelude.{◌≡◌, ℕ, ◌+◌, ◌≤◌, ◌<◌, ◌^◌, None, All, vec_len, vec_capacity};
ghost use Rattle.turnstile.specs.Seats.{IsIdle, parting};

use std::sync::Wait;
use std::test::Fail;
use std::thread::{Threads, for_each_mut};
use turnstile::{Held, Seat, Turn};

/// A number that grows, with generations of which the older ones go.
#[derive(Drop)]
pub struct Tally {
    count: u64,
    generation: u64,
    kept_from: u64,
    ghost kept: { kept_from ≤ generation },
}

impl Held for Tally {
    ghost use Rattle.std.proofs.Common.{arith};

    ghost counted = { λ t. t.count };

    ghost aged = { λ t. t.generation };

    ghost kept_from = { λ t. t.kept_from };

    ghost follows = { λ x y. y.count ≤ x.count };

    fn count(&self) -> u64 {
        self.count
    }

    fn generation(&self) -> u64 {
        self.generation
    }

    ghost follows_itself = { λ x. Prim.omega arith };

    ghost follows_on = { λ x y z a b. Prim.omega (arith, a, b) };

    ghost kept_below = { λ t. t.kept };
}

fn new_tally(count: u64, generation: u64) -> Tally
    ensures { (result.count ≡ count) × (result.generation ≡ generation) }
{
    Tally {
        count,
        generation,
        kept_from: generation,
    }
}

// One more, a generation later, with what is older than `kept_from` gone.
fn next(tally: Tally, kept_from: u64) -> Tally
    requires { kept_from ≤ tally.generation }
    ensures grows { (tally.count ≤ result.count) × (tally.generation ≤ result.generation) }
    ensures kept { result.kept_from ≡ kept_from }
{
    Tally {
        count: tally.count.saturating_add(1),
        generation: tally.generation.saturating_add(1),
        kept_from,
    }
}

#[test]
fn two_seats_no_third_and_a_pinned_floor(rt: HostRuntime) {
    let (turn, mut first) = match Turn::new(rt.alloc(), new_tally(3, 7), 2) {
        Ok(made) => made,
        Err(_) => panic!(rt; "memory"),
    };
    let Some(mut second) = turn.split(&mut first) else {
        unreachable!()
    };
    let third = turn.split(&mut first);
    let None = third else { unreachable!() };
    let held = turn.take(&rt, &mut first);
    let pinned = held.generation;
    assert_eq!(rt; pinned, 7);
    turn.pin(&mut first, pinned);
    let kept_from = held.kept_from;
    turn.give(&mut first, next(held, kept_from));
    assert_eq!(rt; turn.progress(&mut second), 4);
    let held = turn.take(&rt, &mut second);
    let floor = turn.raise_floor(&mut second, held.generation);
    assert_eq!(rt; floor, 7);
    turn.give(&mut second, next(held, floor));
    turn.unpin(&mut first);
    let held = turn.take(&rt, &mut second);
    let floor = turn.raise_floor(&mut second, held.generation);
    assert_eq!(rt; floor, 9);
    turn.give(&mut second, next(held, floor));
    turn.join(&mut first, second);
    assert_eq!(rt; turn.close(first).count, 6);
}

// Takes, pins, raises, changes, gives and unpins.
fn work_once<R: Wait>(rt: &R, turn: &Turn<Tally>, seat: &mut Seat<Tally>)
    requires { IsIdle turn.now.place seat.old }
    ensures idle { IsIdle turn.now.place seat.new }
    ensures parts { seat.new.parts ≡ seat.old.parts }
{
    let held = turn.take(rt, seat);
    let generation = held.generation;
    if generation >= 1 << 63 {
        turn.give(seat, held);
        return;
    }
    turn.pin(seat, generation);
    let floor = turn.raise_floor(seat, generation);
    turn.give(seat, next(held, floor));
    turn.unpin(seat);
}

fn work<R: Wait>(rt: &R, turn: &Turn<Tally>, seat: &mut Seat<Tally>)
    requires { IsIdle turn.now.place seat.old }
    ensures idle { IsIdle turn.now.place seat.new }
    ensures parts { seat.new.parts ≡ seat.old.parts }
{
    for _ in 0..400u32 {
        work_once(rt, turn, seat);
    }
}

// One more seat for the team, which has room for it.
fn hire(turn: &Turn<Tally>, seat: &mut Seat<Tally>, team: &mut Vec<Seat<Tally>>)
    requires own { seat.old.place ≡ turn.now.place }
    requires spare { 1 < seat.old.parts }
    requires room { vec_len team.old < vec_capacity team.old }
    requires team { All (λ s. IsIdle turn.now.place s × (s.parts ≡ 1)) team.old.items }
    ensures seat { seat.new ≡ parting seat.old }
    ensures room { (vec_len team.new ≡ vec_len team.old + 1) × (vec_capacity team.old ≤ vec_capacity team.new) }
    ensures team { All (λ s. IsIdle turn.now.place s × (s.parts ≡ 1)) team.new.items }
{
    let Some(own) = turn.split(seat) else {
        unreachable!()
    };
    match team.push(own) {
        Ok(()) => (),
        Err(_) => unreachable!(),
    }
}

// Fifteen more.
fn hire_all(turn: &Turn<Tally>, seat: &mut Seat<Tally>, team: &mut Vec<Seat<Tally>>)
    requires own { seat.old.place ≡ turn.now.place }
    requires spare { seat.old.parts ≡ 16 }
    requires room { (vec_len team.old ≡ 0) × (16 ≤ vec_capacity team.old) }
    ensures seat { (seat.new.place ≡ seat.old.place) × (seat.new.held ≡ seat.old.held) × (seat.new.parts ≡ 1) }
    ensures length { vec_len team.new ≡ 15 }
    ensures team { All (λ s. IsIdle turn.now.place s × (s.parts ≡ 1)) team.new.items }
{
    for _ in 0..15u32 {
        hire(turn, seat, team);
    }
}

// Each seat of the team is joined.
fn dismiss_all(turn: &Turn<Tally>, seat: &mut Seat<Tally>, mut team: Vec<Seat<Tally>>)
    requires own { seat.old.place ≡ turn.now.place }
    requires team { All (λ s. IsIdle turn.now.place s × (s.parts ≡ 1)) team.items }
    ensures { (seat.new.place ≡ seat.old.place) × (seat.new.held ≡ seat.old.held) × (seat.new.parts ≡ seat.old.parts + vec_len team) }
{
    while let Some(other) = team.pop() {
        turn.join(seat, other);
    }
    team.destroy_empty();
}

fn work_all<R: Threads + Wait + Sync>(rt: &R, turn: &Turn<Tally>, team: &mut [Seat<Tally>])
    requires { All (λ s. IsIdle turn.now.place s × (s.parts ≡ 1)) team.old }
    ensures { All (λ s. IsIdle turn.now.place s × (s.parts ≡ 1)) team.new }
{
    for_each_mut(
        rt,
        team,
        15,
        &|_, seat: &mut Seat<Tally>| work(rt, turn, seat),
    );
}

// As many seats as a turn can have, each in a thread of its own: no take is lost.
#[test]
fn sixteen_seats_take_turns(rt: HostRuntime) -> Result<(), Fail> {
    let mut team = Vec::with_capacity(rt.alloc(), 16)?;
    let (turn, mut first) = match Turn::new(rt.alloc(), new_tally(5, 0), 16) {
        Ok(made) => made,
        Err(_) => panic!(rt; "memory"),
    };
    hire_all(&turn, &mut first, &mut team);
    work_all(&rt, &turn, team.as_mut_slice());
    dismiss_all(&turn, &mut first, team);
    assert_eq!(rt; turn.close(first).count, 6005);
    Ok(())
}
