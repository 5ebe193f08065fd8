// The steps of a delta's index.
ghost use Rattle.std.specs.Prelude.{◌<◌, length};

use crate::trouble::Trouble;
use crate::words::{range, signed};
use column_block::Block;
use delta_index::DeltaIndex;
use std::alloc::Global;

/// An index over so many files, and the one that it was before its last file.
#[derive(Drop)]
pub struct Indexes {
    now: DeltaIndex,
    before: DeltaIndex,
    files: u64,
}

impl Indexes {
    /// Indexes of no file.
    pub fn new(alloc: Global) -> Indexes {
        Indexes {
            now: DeltaIndex::new(alloc),
            before: DeltaIndex::new(alloc),
            files: 0,
        }
    }

    /// Adds a file, and prints what the index then has, and what the one before it has.
    pub fn extend<R: Print>(&mut self, rt: &R, block: &Block) -> Result<(), Trouble> {
        let more = self.now.extended(self.files, block)?;
        let old = std::mem::replace(&mut self.now, more);
        self.before = old;
        self.files = self.files.saturating_add(1);
        show_counts(rt, "", &self.now)?;
        show_counts(rt, "before ", &self.before)
    }

    /// Prints what the index has without a range.
    pub fn clear<R: Print>(&self, rt: &R, word: &str) -> Result<(), Trouble> {
        let left = self.now.cleared(range(word)?)?;
        show_counts(rt, "left ", &left)
    }

    /// Prints the index's entries, one a line.
    pub fn entries<R: Print>(&self, rt: &R) -> Result<(), Trouble> {
        for k in 0..self.now.len() {
            show_entry(rt, &self.now, k)?;
        }
        Ok(())
    }

    /// Prints the places that handles begin at.
    pub fn firsts<R: Print>(&self, rt: &R, words: &[&str]) -> Result<(), Trouble> {
        for word in words {
            let place = self.now.first_from(signed(word)?);
            println!(rt; "{word} begins at {place}")?;
        }
        Ok(())
    }
}

fn show_entry<R: Print>(rt: &R, index: &DeltaIndex, k: usize) -> Result<(), Trouble>
    requires { k < length index.now }
{
    let row = index.at(k);
    println!(rt;
        "{}@{} file {} row {}",
        row.handle, row.ts, row.number, row.row
    )?;
    Ok(())
}

fn show_counts<R: Print>(rt: &R, what: &str, index: &DeltaIndex) -> Result<(), Trouble> {
    println!(rt;
        "{what}{} versions in {} chunks, {} of them shared",
        index.len(),
        index.chunk_count(),
        index.shared_chunk_count()
    )?;
    Ok(())
}
