// The end of a hold in which the value stayed as it was.
ghost use Rattle.std.specs.Prelude.{◌≡◌, ◌≤◌, ◌<◌, ◌^◌, None, Some};
ghost use Rattle.turnstile.specs.Seats.{giving, pinning_at};

use turnstile::{Held, Seat, Turn};

/// Gives back the value that the seat took, as it was.
pub fn give_same<V: Held>(turn: &Turn<V>, seat: &mut Seat<V>, value: V)
    requires own { seat.old.place ≡ turn.now.place }
    requires held { seat.old.held ≡ Some value }
    requires kept { V.kept_from value ≤ seat.old.floor }
    ensures { seat.new ≡ giving seat.old value (V.counted value) (V.counted value) }
{
    turn.give(seat, value);
}

/// Pins the generation of the value that the seat took, and gives the value back, as it was.
pub fn pin_same<V: Held>(turn: &Turn<V>, seat: &mut Seat<V>, value: V)
    requires own { seat.old.place ≡ turn.now.place }
    requires held { seat.old.held ≡ Some value }
    requires kept { V.kept_from value ≤ seat.old.floor }
    requires free { (seat.old.pin ≡ None) × (V.aged value < 2 ^ 63) }
    ensures { seat.new ≡ giving (pinning_at seat.old (Some (V.aged value))) value (V.counted value) (V.counted value) }
{
    let generation = value.generation();
    turn.pin(seat, generation);
    give_same(turn, seat, value);
}
