// What files say at each count.
ghost use Rattle.std.specs.Prelude.{◌≡◌, ◌++◌, ℕ, ℤ, Bool, true, false, List, [], filter};
ghost use Rattle.flash_types.specs.Ranges.{holds};
ghost use Rattle.flash_types.specs.declared.range.HandleRange.{HandleRange};
ghost use Rattle.committed_log.specs.Log.{Log};
ghost use Rattle.good_replica.specs.Good.{AreGood, EachGood, IsGoodSegment};
ghost use Rattle.good_replica.specs.Trail.{DeltaFile, Segment, steps_on, trail};
ghost use Rattle.prefix_laws.specs.Clipped.{SaySame, clip, says, speaks};
ghost use Rattle.prefix_laws.specs.Prefixes.{IsPrefixGood};
ghost use Rattle.prefix_laws.specs.Same.{AreSame, HasTrail};
ghost use Rattle.prefix_laws.specs.Tagged.{Tagged, TaggedSegment, files_at};
ghost use Rattle.prefix_laws.specs.Views.{Side, behind, rest_of};

/// Segments with the same ranges and the same trails of their handles are good together; and a
/// segment is good where each of its trails is one of good segments.
pub fn same_trails_are_good()
    ensures lists { (log : Log) (A : ℕ → Bool) (m safe : ℕ) (some others : List Segment)
        → AreSame some others
        → (AreGood log A m safe some → AreGood log A m safe others)
        × (AreGood log A m safe others → AreGood log A m safe some) }
    ensures anywhere { (log : Log) (A : ℕ → Bool) (m safe : ℕ) (segments : List Segment) (t : Segment)
        → ((h : ℤ) → holds t.range h ≡ true → HasTrail h (trail h t) segments)
        → EachGood log A m safe segments
        → IsGoodSegment log A m safe t }
{}

/// A segment whose files say the same of each handle is good at each count where the other one is.
pub fn same_files_keep_counts()
    ensures { (log : Log) (S : ℕ → ℕ → Bool) (m safe from last : ℕ) (s t : TaggedSegment)
        → t.range ≡ s.range
        → t.stable ≡ s.stable
        → ((h : ℤ) → holds s.range h ≡ true → SaySame h t.files s.files)
        → IsPrefixGood log S m safe from last s
        → IsPrefixGood log S m safe from last t }
{}

/// Files that say nothing may stay or be left out.
pub fn silent_files_may_stay()
    ensures tagged { (stays : Tagged → Bool)
        → ((f : Tagged) → says f ≡ true → stays f ≡ true)
        → (h : ℤ) (files : List Tagged)
        → SaySame h (filter stays files) files }
    ensures plain { (stays : DeltaFile → Bool)
        → ((f : DeltaFile) → speaks f ≡ true → stays f ≡ true)
        → (h : ℤ) (files : List DeltaFile)
        → steps_on h (filter stays files) ≡ steps_on h files }
{}

/// Files that are kept to a range say of its handles what they said, and nothing of others. So the
/// files of two segments that become one say of each handle what those of its own segment said.
pub fn clipped_files_say_their_part()
    ensures inside { (range : HandleRange) (h : ℤ) (files : List Tagged)
        → holds range h ≡ true
        → SaySame h (clip range files) files }
    ensures outside { (range : HandleRange) (h : ℤ) (k : ℕ) (files : List Tagged)
        → holds range h ≡ false
        → steps_on h (files_at k (clip range files)) ≡ [] }
    ensures left { (left right : Side) (h : ℤ)
        → holds left.range h ≡ true
        → holds right.range h ≡ false
        → SaySame h (rest_of left right) (behind left) }
    ensures right { (left right : Side) (h : ℤ)
        → holds right.range h ≡ true
        → holds left.range h ≡ false
        → SaySame h (rest_of left right) (behind right) }
{}
