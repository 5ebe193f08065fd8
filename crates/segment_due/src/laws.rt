// A law, which does nothing when it runs.
ghost use Rattle.std.specs.Prelude.{List};
ghost use Rattle.column_file.specs.declared.file.ColumnFile.{ColumnFile};
ghost use Rattle.segment_due.specs.Infos.{IsLongestRun, longest_run};

/// As many tiny files as are told of the longest run stand side by side somewhere in a delta, and
/// nowhere more.
pub fn longest_runs_are_longest()
    ensures { (files : List ColumnFile) → IsLongestRun files (longest_run files) }
{}
