//! For tests: the bytes of each format's example, computed from the definitions. The bytes were made
//! by hand from docs/FORMATS.md. The functions do nothing when they run; their contracts are proved
//! by computing.
#![tactic(auto)]

ghost use Rattle.format_examples.specs.Files.{FilesInBytes};
ghost use Rattle.format_examples.specs.Lists.{BytesAsLists, ListsInBytes};
ghost use Rattle.format_examples.specs.Logs.{LogsInBytes};
ghost use Rattle.format_examples.specs.Regions.{RegionsInBytes};
ghost use Rattle.format_examples.specs.Stores.{StoresInBytes};

/// Column lists: several numbers with a null, equal ones, one, texts, none.
pub fn lists_in_bytes()
    ensures written { ListsInBytes }
    ensures read { BytesAsLists }
{}

/// A pack, a tiny file with it, and a stable file of two packs with its footer.
pub fn files_in_bytes()
    ensures { FilesInBytes }
{}

/// A root that names file 1, a manifest's header, and each edit.
pub fn stores_in_bytes()
    ensures { StoresInBytes }
{}

/// A file with a live region, a prepared one, and one that is gone.
pub fn regions_in_bytes()
    ensures { RegionsInBytes }
{}

/// A log's header, and a frame of each kind.
pub fn logs_in_bytes()
    ensures { LogsInBytes }
{}
