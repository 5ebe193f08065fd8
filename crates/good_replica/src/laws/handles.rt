// What keeps a handle good, whatever the files that its trail comes from.
ghost use Rattle.std.specs.Prelude.{◌≡◌, ◌≢◌, ◌≤◌, ◌<◌, ◌++◌, ℕ, ℤ, Bool, true, Some, None, List};
ghost use Rattle.column_block.specs.declared.cell.Version.{Version};
ghost use Rattle.committed_log.specs.Lawful.{IsLawful};
ghost use Rattle.committed_log.specs.Log.{Log};
ghost use Rattle.good_replica.specs.Changed.{ShowsSame, IsCollected, trail_of, seen, left};
ghost use Rattle.good_replica.specs.Good.{EachIsCommitted, EachIsThere, NewerFollows, IsGoodOn};
ghost use Rattle.good_replica.specs.Trail.{Trail, Step};
ghost use Rattle.good_replica.specs.Versions.{written};

/// A higher mark: more of what the files have may be past the front.
pub fn mark_goes_up()
    ensures { (log : Log) → IsLawful log → (h : ℤ) (f m n safe : ℕ) (t : Trail) → m ≤ n → IsGoodOn log h f m safe t → IsGoodOn log h f n safe t }
{}

/// A lower front, which a crash gives, where the mark isn't below the higher one.
pub fn front_goes_down()
    ensures { (log : Log) → IsLawful log → (h : ℤ) (k f m safe : ℕ) (t : Trail) → k ≤ f → f ≤ m → IsGoodOn log h f m safe t → IsGoodOn log h k m safe t }
{}

/// A higher safe point: fewer reads are allowed.
pub fn safe_point_goes_up()
    ensures { (log : Log) (h : ℤ) (f m safe higher : ℕ) (t : Trail) → safe ≤ higher → IsGoodOn log h f m safe t → IsGoodOn log h f m higher t }
{}

/// The same versions, packed into other files.
pub fn packing_anew_shows_same()
    ensures { (log : Log) (h : ℤ) (f m safe : ℕ) (t u : Trail) → ShowsSame t u → IsGoodOn log h f m safe t → IsGoodOn log h f m safe u }
{}

/// The stable part and the first steps give way to a stable part that was collected at a safe point
/// not above the present one. That each commit is still there or excused rests on the order of the
/// steps: newer follows older.
pub fn collections_are_untold()
    ensures good { (log : Log) → IsLawful log → (h : ℤ) (f m safe at : ℕ) (stable new : List Version) (taken rest : List Step) → at ≤ safe →
        IsCollected at (seen stable taken) (left new) → IsGoodOn log h f m safe (trail_of stable (taken ++ rest)) → IsGoodOn log h f m safe (trail_of new rest) }
    ensures by_order { (log : Log) → IsLawful log → (h : ℤ) (f safe at : ℕ) (stable new : List Version) (taken rest : List Step) → at ≤ safe →
        IsCollected at (seen stable taken) (left new) → EachIsCommitted (written log h f) (trail_of stable (taken ++ rest)) → EachIsThere (written log h f) (written log h f) safe (trail_of stable (taken ++ rest)) →
        NewerFollows (written log h f) (trail_of stable (taken ++ rest)) → EachIsThere (written log h f) (written log h f) safe (trail_of new rest) }
{}

/// A delete not above the safe point may go, where nothing older stands beside it.
pub fn lone_deletes_go()
    ensures { (log : Log) → IsLawful log → (h : ℤ) (f m safe : ℕ) (stable new : List Version) (taken rest : List Step) (ts : ℕ) (v : Version) →
        seen stable taken ts ≡ Some v → v.gone ≡ true → ts ≤ safe → ((older : ℕ) → older < ts → seen stable taken older ≡ None) →
        left new ts ≡ None → ((d : ℕ) → d ≢ ts → left new d ≡ seen stable taken d) →
        IsGoodOn log h f m safe (trail_of stable (taken ++ rest)) → IsGoodOn log h f m safe (trail_of new rest) }
{}
