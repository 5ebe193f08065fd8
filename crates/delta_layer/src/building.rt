// The versions that are present in a segment, for those who build of it.
ghost use Rattle.std.specs.Prelude.{◌≡◌, IfOk};
ghost use Rattle.column_block.specs.Order.{Rise};
ghost use Rattle.delta_layer.specs.Built.{GivesForBuild, HasBuildCause, NeverOneHandle};
ghost use Rattle.delta_layer.specs.Present.{AreWithin};

use crate::built::BuildError;
use crate::presence::present;
use crate::view::SegmentView;
use column_block::Block;
use flash_io::Reader;
use std::alloc::Global;

/// The versions that are present in a segment, as [`present`] gives them, with the errors of a build.
pub fn present_for_build<R: Reader>(
    alloc: Global,
    view: &SegmentView<R::Grip>,
    reader: &mut R,
) -> Result<Block, BuildError>
    ensures exact { R.Grip.tells → GivesForBuild R.Grip.bytes view.now.range view.now.stable view.now.delta result }
    ensures rising { IfOk result (λ versions. Rise versions) }
    ensures within { IfOk result (λ versions. AreWithin view.now.range versions) }
    ensures cause { HasBuildCause (R.fault_count reader.old) (R.fault_count reader.new) result }
    ensures many { NeverOneHandle result }
{
    match present(alloc, view, reader) {
        Ok(versions) => Ok(versions),
        Err(fault) => Err(BuildError::from(fault)),
    }
}
