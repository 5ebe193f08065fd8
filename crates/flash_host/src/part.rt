// Reading a part of a file.
ghost use Rattle.std.specs.Prelude.{◌≡◌, ◌≤◌, ◌++◌, IfOk, OnErr};
ghost use Rattle.std.specs.Io.{ReadsAtMost};
ghost use Rattle.flash_io.specs.Image.{HasPart};

use flash_io::DiskFault;
use std::fs::File;
use std::io;
use std::io::ErrorKind;
use std::os::unix::fs::FileExt;

// The bytes that are asked for at a time.
const PIECE: usize = 262144;

/// Appends the file's bytes from `at` on, at most `len`, fewer only at its end. An error leaves
/// `into` as it was.
pub fn read_part(file: &File, at: u64, len: u32, into: &mut Vec<u8>) -> Result<usize, DiskFault>
    ensures appended { IfOk result (λ n. HasPart n len into.old.items into.new.items) }
    ensures kept { OnErr result (into.new.items ≡ into.old.items) }
{
    let start = into.len();
    match append_part(file, at, len, into) {
        Ok(count) => Ok(count),
        Err(fault) => {
            into.truncate(start);
            Err(fault)
        }
    }
}

// The same, but an error leaves some bytes more.
fn append_part(file: &File, at: u64, len: u32, into: &mut Vec<u8>) -> Result<usize, DiskFault>
    ensures appended { IfOk result (λ n. HasPart n len into.old.items into.new.items) }
    ensures front { (bytes : _) × (into.new.items ≡ into.old.items ++ bytes) }
{
    let len = len as usize;
    let mut taken = 0;
    while taken < len {
        let room = PIECE.min(len - taken);
        let count = append_some(file, at.saturating_add(taken as u64), room, into)?;
        if count == 0 {
            break;
        }
        taken += count;
    }
    Ok(taken)
}

// Appends what one read gives, none only at the end or with no room.
fn append_some(file: &File, at: u64, room: usize, into: &mut Vec<u8>) -> Result<usize, DiskFault>
    ensures appended { IfOk result (λ n. HasPart n room into.old.items into.new.items) }
    ensures kept { OnErr result (into.new.items ≡ into.old.items) }
{
    let start = into.len();
    let Some(end) = start.checked_add(room) else {
        return Err(DiskFault::Memory);
    };
    into.resize(end, 0)?;
    match read_once(file, at, &mut into[start..]) {
        Ok(count) => {
            into.truncate(start + count);
            Ok(count)
        }
        Err(_) => {
            into.truncate(start);
            Err(DiskFault::Failed)
        }
    }
}

// One read of a file, tried again where a signal came in between.
fn read_once(file: &File, at: u64, into: &mut [u8]) -> io::Result<usize>
    ensures { ReadsAtMost result into.new }
{
    for _ in 0..u64::MAX {
        match file.read_at(into, at) {
            Err(error) if error.kind() == ErrorKind::Interrupted => {}
            answer => return answer,
        }
    }
    Err(io::Error::from(ErrorKind::Interrupted))
}
