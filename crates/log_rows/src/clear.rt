// Taking out of a map what lies in a range of handles. It costs a look-up for each entry taken.
ghost use Rattle.std.specs.Prelude.{◌≡◌, true, not, filter, IfSome, IsNone, IsSome, [], length, ◌<◌};
ghost use Rattle.std.specs.Ordering.{int_cmp};
ghost use Rattle.std.specs.BTreeMap.{get, is_at};
ghost use Rattle.std.specs.Map.{remove_entry};
ghost use Rattle.flash_types.specs.Ranges.{holds};
ghost use Rattle.committed_log.specs.Store.{value_cmp};

use crate::fold::Known;
use flash_types::{Handle, HandleRange, Ts};
use log_codec::OpBytes;
use std::collections::BTreeMap;

/// Takes out the values of a range's handles.
pub fn clear_values(values: &mut BTreeMap<(Handle, Ts), OpBytes>, range: HandleRange)
    ensures { values.new.entries ≡ filter (λ e. not (holds range e.0.0)) values.old.entries }
{
    while let Some(key) = first_value(values, range) {
        drop_value(values, key);
    }
}

/// Takes out what is known of a range's handles.
pub fn clear_handles(handles: &mut BTreeMap<Handle, Known>, range: HandleRange)
    ensures { handles.new.entries ≡ filter (λ e. not (holds range e.0)) handles.old.entries }
{
    while let Some(handle) = first_handle(handles, range) {
        drop_handle(handles, handle);
    }
}

fn drop_value(values: &mut BTreeMap<(Handle, Ts), OpBytes>, key: (Handle, Ts))
    ensures entries { values.new.entries ≡ remove_entry (is_at (value_cmp key)) values.old.entries }
    ensures len { IsSome (get value_cmp values.old key) → length values.new.entries < length values.old.entries }
{
    values.remove(&key);
}

fn drop_handle(handles: &mut BTreeMap<Handle, Known>, handle: Handle)
    ensures entries { handles.new.entries ≡ remove_entry (is_at (int_cmp handle)) handles.old.entries }
    ensures len { IsSome (get int_cmp handles.old handle) → length handles.new.entries < length handles.old.entries }
{
    handles.remove(&handle);
}

// The first key whose handle the range holds.
fn first_value(values: &BTreeMap<(Handle, Ts), OpBytes>, range: HandleRange) -> Option<(Handle, Ts)>
    ensures none { IsNone result → filter (λ e. holds range e.0.0) values.now.entries ≡ [] }
    ensures some { IfSome result (λ key. (holds range key.0 ≡ true) × IsSome (get value_cmp values.now key)) }
{
    let Some(high) = range.high else {
        let (key, _) = values.range((range.low, 0)..).next()?;
        return Some(*key);
    };
    if high <= range.low {
        return None;
    }
    let (key, _) = values.range((range.low, 0)..(high, 0)).next()?;
    Some(*key)
}

// The first handle that the range holds.
fn first_handle(handles: &BTreeMap<Handle, Known>, range: HandleRange) -> Option<Handle>
    ensures none { IsNone result → filter (λ e. holds range e.0) handles.now.entries ≡ [] }
    ensures some { IfSome result (λ handle. (holds range handle ≡ true) × IsSome (get int_cmp handles.now handle)) }
{
    let Some(high) = range.high else {
        let (handle, _) = handles.range(range.low..).next()?;
        return Some(*handle);
    };
    if high <= range.low {
        return None;
    }
    let (handle, _) = handles.range(range.low..high).next()?;
    Some(*handle)
}
