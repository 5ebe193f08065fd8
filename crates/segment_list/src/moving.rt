// Slots that are moved from one list to another.
ghost use Rattle.std.specs.Prelude.{◌≡◌, ◌+◌, ◌-◌, ◌≤◌, ◌++◌, drop, reverse, take, vec_capacity, vec_len};

// Moves what stands from a place on to the end of another list, the last one first.
fn move_back<T: Drop>(from: &mut Vec<T>, place: usize, to: &mut Vec<T>)
    requires within { place ≤ vec_len from.old }
    requires room { vec_len to.old + (vec_len from.old - place) ≤ vec_capacity to.old }
    ensures left { from.new.items ≡ take place from.old.items }
    ensures left_len { vec_len from.new ≡ place }
    ensures moved { to.new.items ≡ to.old.items ++ reverse (drop place from.old.items) }
    ensures moved_len { vec_len to.new ≡ vec_len to.old + (vec_len from.old - place) }
    ensures capacity { vec_capacity to.new ≡ vec_capacity to.old }
{
    while from.len() > place {
        to.push_reserved(from.take_last());
    }
}

/// Puts elements in the place of `count` others. All of them move to `spare`, which has none and
/// room for them.
pub fn put_slots<T: Drop>(
    slots: &mut Vec<T>,
    place: usize,
    count: usize,
    news: Vec<T>,
    spare: Vec<T>,
)
    requires within { place + count ≤ vec_len slots.old }
    requires empty { vec_len spare ≡ 0 }
    requires room { vec_len news + (vec_len slots.old - count) ≤ vec_capacity spare }
    ensures { slots.new.items
        ≡ take place slots.old.items ++ (news.items ++ drop (place + count) slots.old.items) }
{
    let mut news = news;
    let mut moved = spare;
    move_back(slots, place + count, &mut moved);
    slots.truncate(place);
    move_back(&mut news, 0, &mut moved);
    move_back(slots, 0, &mut moved);
    moved.reverse();
    *slots = moved;
}
