// Files that are held, and their readers.
ghost use Rattle.std.specs.Prelude.{◌≡◌, List, [], IfOk, OnErr};
ghost use Rattle.flash_io.specs.Image.{HasPart};

use crate::opened::{Opened, Stamp};
use crate::part::read_part;
use crate::standing::fault_of;
use flash_io::{DiskFault, FileId, Gripped, Reader};
use std::fs::File;
use std::rt::Files;

/// A file that is held. It is opened when it is read, so any number of files can be held. Reads fail
/// once it was removed, or made anew.
#[derive(Drop)]
pub struct HostGrip {
    pub(crate) file: FileId,
    pub(crate) stamp: Stamp,
}

impl Gripped for HostGrip {
    ghost tells = { ⊥ };

    ghost bytes = { λ _. [] };
}

/// A reader of files that are held. It keeps at most eight of them open. One that there wasn't
/// memory for answers `Memory` to each read.
#[derive(Drop)]
pub struct HostReader<R: Files<File = File> + AllocGlobal + Clone + Drop> {
    pub(crate) opened: Option<Opened<R>>,
    pub(crate) faults: u64,
}

// Appends a part of a file that is held. An error leaves `into` as it was.
fn read_held<R: Files<File = File> + AllocGlobal + Clone + Drop>(
    opened: &mut Option<Opened<R>>,
    grip: &HostGrip,
    at: u64,
    len: u32,
    into: &mut Vec<u8>,
) -> Result<usize, DiskFault>
    ensures appended { IfOk result (λ n. HasPart n len into.old.items into.new.items) }
    ensures kept { OnErr result (into.new.items ≡ into.old.items) }
{
    let Some(opened) = opened else {
        return Err(DiskFault::Memory);
    };
    match opened.get(grip.file, grip.stamp) {
        Ok(file) => read_part(file, at, len, into),
        Err(error) => Err(fault_of(&error)),
    }
}

impl<R: Files<File = File> + AllocGlobal + Clone + Drop> Reader for HostReader<R> {
    type Grip = HostGrip;

    ghost fault_count = { λ reader. reader.faults };

    fn read_at(
        &mut self,
        grip: &HostGrip,
        at: u64,
        len: u32,
        into: &mut Vec<u8>,
    ) -> Result<usize, DiskFault> {
        match read_held(&mut self.opened, grip, at, len, into) {
            Ok(count) => Ok(count),
            Err(DiskFault::Memory) => Err(DiskFault::Memory),
            Err(DiskFault::Failed) => {
                self.faults = self.faults.saturating_add(1);
                Err(DiskFault::Failed)
            }
        }
    }
}
