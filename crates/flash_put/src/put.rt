// Numbers and bytes at the end of what was written, big-endian.
ghost use Rattle.std.specs.Prelude.{◌≡◌, ◌∷◌, []};
ghost use Rattle.std.specs.Int.{w16, w32, w64, to_be_bytes, cast_unsigned};
ghost use Rattle.flash_put.specs.Appending.{Appends};

use byteorder::{BigEndian, ByteOrder};
use std::alloc::AllocError;

/// Adds these bytes. `AllocError` is want of memory here and below.
pub fn put_bytes(bytes: &[u8], into: &mut Vec<u8>) -> Result<(), AllocError>
    ensures { Appends result into.old.items bytes.now into.new.items }
{
    into.extend_from_slice(bytes)
}

/// Adds a number as one byte.
pub fn put_u8(n: u8, into: &mut Vec<u8>) -> Result<(), AllocError>
    ensures { Appends result into.old.items (n ∷ []) into.new.items }
{
    put_bytes(&[n], into)
}

/// Adds a number as two bytes.
pub fn put_u16(n: u16, into: &mut Vec<u8>) -> Result<(), AllocError>
    ensures { Appends result into.old.items (to_be_bytes w16 n) into.new.items }
{
    let mut bytes = [0; 2];
    BigEndian::write_u16(&mut bytes, n);
    put_bytes(&bytes, into)
}

/// Adds a number as four bytes.
pub fn put_u32(n: u32, into: &mut Vec<u8>) -> Result<(), AllocError>
    ensures { Appends result into.old.items (to_be_bytes w32 n) into.new.items }
{
    let mut bytes = [0; 4];
    BigEndian::write_u32(&mut bytes, n);
    put_bytes(&bytes, into)
}

/// Adds a number as eight bytes.
pub fn put_u64(n: u64, into: &mut Vec<u8>) -> Result<(), AllocError>
    ensures { Appends result into.old.items (to_be_bytes w64 n) into.new.items }
{
    let mut bytes = [0; 8];
    BigEndian::write_u64(&mut bytes, n);
    put_bytes(&bytes, into)
}

/// Adds a signed number as its eight bytes in two's complement.
pub fn put_i64(n: i64, into: &mut Vec<u8>) -> Result<(), AllocError>
    ensures { Appends result into.old.items (to_be_bytes w64 (cast_unsigned w64 n)) into.new.items }
{
    put_u64(n.cast_unsigned(), into)
}
