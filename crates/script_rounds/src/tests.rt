// The rounds of one script, worked out by hand: flush at 4, compact at 2, checkpoint at 4, flush at 9
// and a read from 10 on, stopped at 8.
ghost use Rattle.std.specs.Prelude.{◌≡◌, [], ◌∷◌, true, false};
ghost use Rattle.script_rounds.specs.Rounds.{is_bound, is_run_at, places_from};
ghost use Rattle.script_rounds.specs.Rows.{four_events};

use crate::Rounds;
use std::test::Fail;
use tool_text::read_script;

fn of_four_events()
    ensures first { is_bound 8 four_events [] 0 ≡ true }
    ensures second { is_bound 8 four_events [] 2 ≡ true }
    ensures between { is_bound 8 four_events [] 3 ≡ false }
    ensures last { is_bound 8 four_events [] 8 ≡ true }
    ensures beyond { is_bound 8 four_events [] 9 ≡ false }
    ensures two { places_from (is_run_at 8 4) 0 four_events ≡ 0 ∷ 2 ∷ [] }
    ensures none { places_from (is_run_at 8 9) 0 four_events ≡ [] }
{}

#[test]
fn bounds_rise_from_zero_to_the_end(rt: HostRuntime) -> Result<(), Fail> {
    of_four_events();
    let alloc = rt.alloc();
    let text =
        b"{\"stop_after\":8,\"events\":[{\"at\":4,\"do\":\"flush\"},{\"at\":2,\"do\":\"compact\"},\
{\"at\":4,\"do\":\"checkpoint\"},{\"at\":9,\"do\":\"flush\"}],\"reads\":[{\"ts\":1,\"after\":10,\
\"regions\":[{\"id\":1,\"conf_ver\":1,\"version\":1,\"index\":1}]}]}";
    let script = read_script(alloc, text).map_err(|_| "no script")?;
    let rounds = Rounds::of(&script, 20, alloc).map_err(|_| "memory")?;
    assert_eq!(rt; rounds.end(), 8);
    assert_eq!(rt; rounds.next_bound(0), Some(2));
    assert_eq!(rt; rounds.next_bound(2), Some(4));
    assert_eq!(rt; rounds.next_bound(4), Some(8));
    assert_eq!(rt; rounds.next_bound(8), None);
    assert!(rt; rounds.events_at(2) == [1].as_slice() && rounds.events_at(4) == [0, 2].as_slice());
    assert!(rt; rounds.events_at(8).is_empty() && rounds.events_at(9).is_empty());
    assert!(rt; rounds.reads_at(8) == [0].as_slice() && rounds.reads_at(4).is_empty());
    Ok(())
}
