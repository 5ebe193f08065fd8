// Calls that are to fail.
ghost use Rattle.std.specs.Prelude.{◌≡◌, ◌+◌, ◌^◌, ◌-◌, ◌≤◌, IsTrue, min, nat_eq, if◌then◌else◌};
ghost use Rattle.std.specs.List.{list_any};
ghost use Rattle.flash_io.specs.Faults.{Rose};

/// Counts a call from 1 on, and a fault where the call is listed. Both counts stop at the last
/// value of a `u64`.
pub fn fails(failing: &[u64], calls: &mut u64, faults: &mut u64) -> bool
    ensures counted { calls.new ≡ min (calls.old + 1) (2 ^ 64 - 1) }
    ensures listed { result ≡ list_any (λ call. nat_eq call calls.new) failing.now }
    ensures faults { faults.new ≡ (if result then min (faults.old + 1) (2 ^ 64 - 1) else faults.old) }
    ensures rose { IsTrue result → Rose faults.old faults.new }
    ensures later { faults.old ≤ faults.new }
{
    *calls = calls.saturating_add(1);
    if failing.contains(calls) {
        *faults = faults.saturating_add(1);
        return true;
    }
    false
}
