//! The numbers of a seat, as an array that is true at each of them.
ghost use Rattle.std.specs.Prelude.{◌≡◌, ℕ, ◌<◌, ◌≤◌, true, false, slice_index_or, IfSome, IfNone, set};
ghost use Rattle.turnstile.specs.Numbers.{bit, total, first_true, either_true, all_but_first};

// All numbers below `seats` but 0.
pub(crate) fn spare_below(seats: u32) -> [bool; 16]
    requires { (0 < seats) × (seats ≤ 16) }
    ensures { result ≡ all_but_first seats }
{
    let mut spare = [false; 16];
    for k in 1..seats {
        spare[k as usize] = true;
    }
    spare
}

// The least number that is spare.
pub(crate) fn first_spare(spare: &[bool; 16]) -> Option<u32>
    ensures some { IfSome result (λ k. (k ≡ first_true spare.now) × (k < 16) × (slice_index_or spare.now k false ≡ true)) }
    ensures none { IfNone result (total bit spare.now ≡ 0) }
{
    for k in 0..16 {
        if spare[k as usize] {
            return Some(k);
        }
    }
    None
}

// All that are spare, but this one.
pub(crate) fn without(spare: &[bool; 16], number: u32) -> [bool; 16]
    requires { number < 16 }
    ensures { result ≡ set spare.now number false }
{
    let mut left = *spare;
    left[number as usize] = false;
    left
}

pub(crate) fn merged(mine: &[bool; 16], theirs: &[bool; 16]) -> [bool; 16]
    ensures { result ≡ either_true mine.now theirs.now }
{
    let mut all = *mine;
    for k in 0..16 {
        all[k] = mine[k] || theirs[k];
    }
    all
}
