// What the rows of the scans' cases show at each timestamp, by the rule of reads.
ghost use Rattle.std.specs.Prelude.{◌≡◌, [], ◌∷◌};
ghost use Rattle.learner_read.specs.Rows.{shown_rows};
ghost use Rattle.learner_read.specs.Worked.{five_at_10, five_at_20, seven_at_10, worked};

/// Two rows put at 10, one of them again at 20 and deleted at 30.
pub fn worked_rows()
    ensures at_9 { shown_rows 9 worked ≡ [] }
    ensures at_10 { shown_rows 10 worked ≡ five_at_10 ∷ seven_at_10 ∷ [] }
    ensures at_20 { shown_rows 20 worked ≡ five_at_20 ∷ seven_at_10 ∷ [] }
    ensures at_30 { shown_rows 30 worked ≡ seven_at_10 ∷ [] }
{}
