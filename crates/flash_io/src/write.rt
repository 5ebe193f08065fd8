// Writing everything.
ghost use Rattle.std.specs.Prelude.{OnOk};
ghost use Rattle.std.specs.Io.KnownBytes.{Appends};
ghost use Rattle.flash_io.specs.Faults.{HasCause};
ghost use Rattle.flash_io.specs.Streams.{TakesFront};

use crate::stream::{Failed, Sink};

/// Writes all the bytes, and offers the sink all that is left each time. After `Failed` the sink
/// has taken some of them, from the first on.
pub fn write_all<W: Sink>(sink: &mut W, bytes: &[u8]) -> Result<(), Failed>
    ensures all { OnOk result (Appends (W.contents sink.old) (W.contents sink.new) bytes.now) }
    ensures front { TakesFront (W.contents sink.old) (W.contents sink.new) bytes.now }
    ensures cause { HasCause (W.fault_count sink.old) (W.fault_count sink.new) result }
{
    let mut at = 0;
    while at < bytes.len() {
        at += sink.write(&bytes[at..])?;
    }
    Ok(())
}
