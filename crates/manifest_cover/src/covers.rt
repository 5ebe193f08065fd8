// The cover of all handles, as a manifest and as a replica say it.
ghost use Rattle.std.specs.Prelude.{◌≡◌, ℕ, ℤ, List, Some, true};
ghost use Rattle.flash_types.specs.Ranges.{least_handle};
ghost use Rattle.manifest_form.specs.declared.state.StoredSegment.{StoredSegment};
ghost use Rattle.manifest_form.specs.declared.state.State.{State};
ghost use Rattle.manifest_form.specs.States.{cover_from, all_below, is_formed};
ghost use Rattle.good_replica.specs.Good.{CoversFrom};
ghost use Rattle.good_replica.specs.Trail.{Segment};
ghost use Rattle.manifest_cover.specs.Covers.{SameRanges};

/// Segments that are stored cover the handles from one on just where a replica's segments with the
/// same ranges do; so those of a state that a store may have are as a replica's must be, and a state
/// with a replica's ranges needs only small numbers.
pub fn covers_agree()
    ensures told { (low : ℤ) (stored : List StoredSegment) (segments : List Segment)
        → SameRanges stored segments
        → cover_from (Some low) stored ≡ true
        → CoversFrom low segments }
    ensures back { (low : ℤ) (stored : List StoredSegment) (segments : List Segment)
        → SameRanges stored segments
        → CoversFrom low segments
        → cover_from (Some low) stored ≡ true }
    ensures formed_told { (file : ℕ) (s : State) (segments : List Segment)
        → SameRanges s.segments segments
        → is_formed file s ≡ true
        → CoversFrom least_handle segments }
    ensures formed_back { (file : ℕ) (s : State) (segments : List Segment)
        → SameRanges s.segments segments
        → all_below s.next file s ≡ true
        → CoversFrom least_handle segments
        → is_formed file s ≡ true }
{}
