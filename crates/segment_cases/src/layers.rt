// The steps of a delta.
use crate::trouble::Trouble;
use column_block::Block;
use column_file::ColumnFile;
use delta_layer::{DeltaLayer, DeltaView};
use flash_types::HandleRange;
use std::alloc::Global;

/// A delta, and a view of it that was kept.
#[derive(Drop)]
pub struct Deltas {
    layer: DeltaLayer,
    kept: Option<DeltaView>,
}

impl Deltas {
    /// A delta of no file.
    pub fn new(alloc: Global) -> Deltas {
        Deltas {
            layer: DeltaLayer::new(alloc),
            kept: None,
        }
    }

    /// A view of the delta.
    pub fn view(&self) -> Result<DeltaView, Trouble> {
        Ok(self.layer.view()?)
    }

    /// Adds a block in memory.
    pub fn add<R: Print>(&mut self, rt: &R, block: Block) -> Result<(), Trouble> {
        let Ok(()) = self.layer.append(ColumnFile::Mem { block }) else {
            return Err(Trouble::Memory);
        };
        show_layer(rt, "", &self.layer)
    }

    /// Adds a delete-range.
    pub fn delete<R: Print>(&mut self, rt: &R, range: HandleRange) -> Result<(), Trouble> {
        let Ok(()) = self.layer.append(ColumnFile::DeleteRange { range }) else {
            return Err(Trouble::Memory);
        };
        show_layer(rt, "", &self.layer)
    }

    /// Takes the last file back.
    pub fn take_back<R: Print>(&mut self, rt: &R) -> Result<(), Trouble> {
        match self.layer.take_back() {
            Some(_) => show_layer(rt, "a file is back, ", &self.layer),
            None => show_layer(rt, "no file is back, ", &self.layer),
        }
    }

    /// Keeps a view of the delta.
    pub fn keep<R: Print>(&mut self, rt: &R) -> Result<(), Trouble> {
        let view = self.layer.view()?;
        show_view(rt, &view)?;
        self.kept = Some(view);
        Ok(())
    }

    /// Prints what one more owner of the view that was kept sees.
    pub fn show_kept<R: Print>(&self, rt: &R) -> Result<(), Trouble> {
        match &self.kept {
            Some(view) => show_view(rt, &view.share()?),
            None => Err(Trouble::Word),
        }
    }
}

/// Prints how many files and versions a delta has.
pub fn show_layer<R: Print>(rt: &R, what: &str, layer: &DeltaLayer) -> Result<(), Trouble> {
    println!(rt;
        "{what}{} files, {} versions",
        layer.files(),
        layer.index().len()
    )?;
    Ok(())
}

/// The same of a view.
pub fn show_view<R: Print>(rt: &R, view: &DeltaView) -> Result<(), Trouble> {
    println!(rt;
        "seen {} files, {} versions",
        view.files(),
        view.index().len()
    )?;
    Ok(())
}
