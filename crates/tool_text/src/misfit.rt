// Why a value isn't read, and where.
ghost use Rattle.std.specs.Prelude.{◌≡◌, ◌++◌, IfOk, codes, []};
ghost use Rattle.tool_text.specs.Reading.{path_to};
ghost use Rattle.tool_text.specs.Misfits.{IsInside, IsAt};

use crate::push::push;
use column_block::Memory;
use flash_list::Bytes;
use std::alloc::Global;

/// Why a value isn't read.
#[derive(Debug, Drop)]
pub enum Misfit {
    /// The path of what isn't as it must be: names and places, each behind a dot.
    At(Bytes),
    Memory,
}

/// What stands under the name, seen from the object or list around it.
pub fn inside(alloc: Global, name: &[u8], misfit: Misfit) -> Misfit
    ensures { IsInside name.now misfit result }
{
    match misfit {
        Misfit::Memory => Misfit::Memory,
        Misfit::At(path) => match path_to(alloc, name, path.as_slice()) {
            Ok(path) => Misfit::At(path),
            Err(_no_memory) => Misfit::Memory,
        },
    }
}

/// The field of this name.
pub fn at_field(alloc: Global, name: &[u8]) -> Misfit
    ensures { IsAt (path_to name.now []) result }
{
    match path_to(alloc, name, b"") {
        Ok(path) => Misfit::At(path),
        Err(_no_memory) => Misfit::Memory,
    }
}

/// The value itself.
pub fn at_itself(alloc: Global) -> Misfit
    ensures { IsAt [] result }
{
    Misfit::At(Bytes::new(alloc))
}

#[tactic(auto, using(crate::proofs::Begins::begins))]
fn path_to(alloc: Global, name: &[u8], path: &[u8]) -> Result<Bytes, Memory>
    ensures { IfOk result (λ text. text ≡ path_to name.now path.now) }
{
    let mut text = Vec::new(alloc);
    push(&mut text, b".")?;
    push(&mut text, name)?;
    push(&mut text, path)?;
    Ok(Bytes::from_vec(text))
}
