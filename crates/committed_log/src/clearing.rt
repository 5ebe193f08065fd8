// What a region that is gone leaves in the look-up tables: nothing.
ghost use Rattle.std.specs.Prelude.{◌≡◌, ℕ, ℤ, true, IfSome, IsSome, IsNone, None};
ghost use Rattle.std.specs.BTreeMap.{get};
ghost use Rattle.std.specs.Ordering.{int_cmp};
ghost use Rattle.flash_types.specs.Ranges.{holds};
ghost use Rattle.committed_log.specs.Families.{Holds, IsSettled, held};
ghost use Rattle.committed_log.specs.Store.{Store, value, value_cmp, last_commit, cleared};

use crate::admit_head::is_below_end;
use crate::families::{Families, Lasts, Values, remove_last, remove_value};
use flash_types::{Handle, HandleRange, Ts};

// The least handle of the range that has a last commit.
fn last_in(last: &Lasts, range: HandleRange) -> Option<Handle>
    ensures within { IfSome result (λ h. holds range h ≡ true) }
    ensures there { IfSome result (λ h. IsSome (get int_cmp last.now h)) }
    ensures none { IsNone result → (h : ℤ) → holds range h ≡ true → get int_cmp last.now h ≡ None }
{
    match last.range(range.low..).next() {
        Some((handle, _)) => {
            if is_below_end(*handle, range.high) {
                Some(*handle)
            } else {
                None
            }
        }
        None => None,
    }
}

// The first place of the range in the default family.
fn value_in(values: &Values, range: HandleRange) -> Option<(Handle, Ts)>
    ensures within { IfSome result (λ k. holds range k.0 ≡ true) }
    ensures there { IfSome result (λ k. IsSome (get value_cmp values.now k)) }
    ensures none { IsNone result → (h : ℤ) (start : ℕ) → holds range h ≡ true → get value_cmp values.now (h, start) ≡ None }
{
    match values.range((range.low, 0)..).next() {
        Some((key, _)) => {
            if is_below_end(key.0, range.high) {
                Some((key.0, key.1))
            } else {
                None
            }
        }
        None => None,
    }
}

fn clear_last(last: &mut Lasts, range: HandleRange)
    ghost store: { Store }
    requires { (h : ℤ) → get int_cmp last.old h ≡ last_commit store.commits h }
    ensures { (h : ℤ) → get int_cmp last.new h ≡ last_commit (cleared range store).commits h }
{
    while let Some(handle) = last_in(last, range) {
        remove_last(last, handle);
    }
}

fn clear_values(values: &mut Values, range: HandleRange)
    ghost store: { Store }
    requires { (h : ℤ) (start : ℕ) → held (get value_cmp values.old (h, start)) ≡ value store.values h start }
    ensures { (h : ℤ) (start : ℕ) → held (get value_cmp values.new (h, start)) ≡ value (cleared range store).values h start }
{
    while let Some((handle, start)) = value_in(values, range) {
        remove_value(values, handle, start);
    }
}

/// Takes what the handles of a range have out of the tables.
pub fn clear_range(families: &mut Families, range: HandleRange)
    ghost store: { Store }
    requires holds { Holds families.old store }
    requires settled { IsSettled families.old }
    ensures holds { Holds families.new (cleared range store) }
    ensures settled { IsSettled families.new }
{
    clear_values(&mut families.values, range);
    clear_last(&mut families.last, range);
}
