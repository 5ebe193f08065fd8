// What applies, checkpoints, openings, higher marks and safe points do to what is there at each
// count.
ghost use Rattle.std.specs.Prelude.{◌≡◌, ◌≤◌, ◌<◌, ◌++◌, ℕ, suc, Bool, true, false, List, [], ◌∷◌, length, map};
ghost use Rattle.committed_log.specs.Applied.{IsClosed, with_position};
ghost use Rattle.committed_log.specs.Lawful.{IsLawful};
ghost use Rattle.committed_log.specs.Log.{Log};
ghost use Rattle.good_replica.specs.Effect.{added, clearing};
ghost use Rattle.good_replica.specs.Good.{AreGood};
ghost use Rattle.prefix_laws.specs.Clipped.{absorb};
ghost use Rattle.prefix_laws.specs.Prefixes.{ArePrefixesGood, AreSteps, upto};
ghost use Rattle.prefix_laws.specs.Tagged.{TaggedSegment, content};
ghost use Rattle.prefix_laws.specs.Views.{AllBy, AreRetagged};

/// An entry that is ready is applied: its files come last, with the next count.
pub fn applies_keep_counts()
    ensures { (log : Log) → IsLawful log
        → (opened : ℕ → Bool) (listed : List ℕ) (p m safe from : ℕ)
        → IsClosed log (upto opened listed (length listed))
        → upto opened listed (length listed) p ≡ false
        → IsClosed log (with_position (upto opened listed (length listed)) p)
        → from ≤ length listed
        → (segments : List TaggedSegment)
        → AllBy (length listed) segments
        → ArePrefixesGood log (upto opened listed) m safe from (length listed) segments
        → ArePrefixesGood log (upto opened (listed ++ p ∷ [])) m safe from (suc (length listed))
        (map (absorb (suc (length listed)) (clearing log p) (added log p)) segments) }
{}

/// A checkpoint names all files, and the last count is the committed one.
pub fn checkpoints_keep_counts()
    ensures { (log : Log) (S : ℕ → ℕ → Bool) (m safe from last : ℕ) (some named : List TaggedSegment)
        → from ≤ last
        → AllBy last some
        → AreRetagged last some named
        → ArePrefixesGood log S m safe from last some
        → ArePrefixesGood log S m safe last last named }
{}

/// At an opening nothing is listed: there is one count.
pub fn openings_have_one_count()
    ensures { (log : Log) (opened : ℕ → Bool) (m safe : ℕ) (segments : List TaggedSegment)
        → AreGood log opened m safe (map (content 0) segments)
        → ArePrefixesGood log (upto opened []) m safe 0 0 segments }
{}

/// A higher mark, within the log.
pub fn marks_rise_at_counts()
    ensures { (log : Log) → IsLawful log
        → (S : ℕ → ℕ → Bool) (m safe from last n : ℕ) (segments : List TaggedSegment)
        → m ≤ n
        → n ≤ length log.entries
        → ArePrefixesGood log S m safe from last segments
        → ArePrefixesGood log S n safe from last segments }
{}

/// A higher safe point.
pub fn safe_points_rise_at_counts()
    ensures { (log : Log) (S : ℕ → ℕ → Bool) (m safe from last higher : ℕ)
        → (segments : List TaggedSegment)
        → safe ≤ higher
        → ArePrefixesGood log S m safe from last segments
        → ArePrefixesGood log S m higher from last segments }
{}

/// The sets of the applied positions grow with the count.
pub fn lists_grow()
    ensures { (opened : ℕ → Bool) (listed : List ℕ) (m last : ℕ)
        → ((p : ℕ) → upto opened listed last p ≡ true → p < m)
        → AreSteps (upto opened listed) m last }
{}
