// How counts of faults rise over several calls.
ghost use Rattle.std.specs.Prelude.{◌≡◌, ◌≤◌, ◌+◌, ◌-◌, ◌^◌, ℕ, min};
ghost use Rattle.flash_io.specs.Faults.{RoseBy};

/// A count that rose and then rose again, rose by the sum.
pub fn rises_add_up()
    ensures { (m n before mid now : ℕ) → RoseBy m before mid → RoseBy n mid now → RoseBy (m + n) before now }
{}

/// A reader that is taken back hands on by how much its count rose from 0 on.
pub fn retired_rises_are_handed_on()
    ensures { (n own before now : ℕ) → RoseBy n 0 own → now ≡ min (2 ^ 64 - 1) (before + own) → RoseBy n before now }
{}
