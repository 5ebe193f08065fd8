// Rows of what is due, worked out by hand.
ghost use Rattle.std.specs.Prelude.{◌≡◌, [], ◌∷◌, Some, None};
ghost use Rattle.delta_layer.specs.declared.built.Job.TheVariants.{Compact, MergeDelta, Split, Merge};
ghost use Rattle.segment_due.specs.declared.works.Due.TheVariants.{Flush, Work};
ghost use Rattle.segment_due.specs.Rows.{sizes, told};
ghost use Rattle.segment_due.specs.Works.{due_of};

use std::test::Fail;

// Of one segment that has much of everything the flush comes first, and each of the others once
// what comes before it is below its size.
fn of_one_segment()
    ensures flush { due_of (sizes 3) (told 7 4 3 8 21 ∷ []) ≡ Some (Flush 7) }
    ensures compact { due_of (sizes 3) (told 7 3 3 8 21 ∷ []) ≡ Some (Work (Compact 7)) }
    ensures delta { due_of (sizes 3) (told 7 3 2 8 21 ∷ []) ≡ Some (Work (MergeDelta 7)) }
    ensures split { due_of (sizes 3) (told 7 3 2 7 21 ∷ []) ≡ Some (Work (Split 7)) }
    ensures none { due_of (sizes 3) (told 7 3 2 7 20 ∷ []) ≡ None }
    ensures alone { due_of (sizes 3) (told 7 0 0 0 0 ∷ []) ≡ None }
    ensures two_files { due_of (sizes 1) (told 7 3 2 7 20 ∷ []) ≡ Some (Work (Compact 7)) }
    ensures one_file { due_of (sizes 1) (told 7 3 1 7 20 ∷ []) ≡ None }
{}

// The lower segment is looked at first, its merge too.
fn of_two_segments()
    ensures one { due_of (sizes 3) (told 7 0 0 0 6 ∷ told 9 4 0 4 4 ∷ []) ≡ Some (Work (Merge 7)) }
    ensures too_many { due_of (sizes 3) (told 7 0 0 0 7 ∷ told 9 4 0 4 4 ∷ []) ≡ Some (Flush 9) }
    ensures none { due_of (sizes 3) (told 7 0 0 0 8 ∷ told 9 0 0 0 3 ∷ []) ≡ None }
{}

#[test]
fn rows_are_as_worked_out(_rt: HostRuntime) -> Result<(), Fail> {
    of_one_segment();
    of_two_segments();
    Ok(())
}
