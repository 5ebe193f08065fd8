// Laws of region files, which callers may use: they do nothing when they run.
ghost use Rattle.std.specs.Prelude.{◌≡◌, ℕ, List, Ok};
ghost use Rattle.region_file.specs.declared.entry.Entry.{Entry};
ghost use Rattle.region_file.specs.Regions.{regions_of};
ghost use Rattle.region_file.specs.Spelling as spelling;
ghost use Rattle.region_file.specs.Spelling.{CanBeWritten, AreApart};

/// What is written of regions whose ranges have no handle in common is read again as the same
/// regions.
pub fn files_are_read_again()
    ensures { (entries : List (ℕ × Entry)) → CanBeWritten entries → AreApart entries → regions_of (spelling.file entries) ≡ Ok entries }
{}
