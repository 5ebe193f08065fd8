// The numbers that values are.
ghost use Rattle.std.specs.Prelude.{◌≡◌};
ghost use Rattle.column_block.specs.Cells.{int_of, uint_of};

use byteorder::{ByteOrder, LittleEndian};

/// The signed number that a value is: 1, 2, 4 or 8 bytes, little-endian, sign-extended. `None`
/// exactly where it has another width.
pub fn int(bytes: &[u8]) -> Option<i64>
    ensures { result ≡ int_of bytes.now }
{
    match bytes.len() {
        1 => Some(LittleEndian::read_int(bytes, 1)),
        2 => Some(LittleEndian::read_int(bytes, 2)),
        4 => Some(LittleEndian::read_int(bytes, 4)),
        8 => Some(LittleEndian::read_int(bytes, 8)),
        _ => None,
    }
}

/// The unsigned number that a value is: 1, 2, 4 or 8 bytes, little-endian, zero-extended. `None`
/// exactly where it has another width.
pub fn uint(bytes: &[u8]) -> Option<u64>
    ensures { result ≡ uint_of bytes.now }
{
    match bytes.len() {
        1 => Some(LittleEndian::read_uint(bytes, 1)),
        2 => Some(LittleEndian::read_uint(bytes, 2)),
        4 => Some(LittleEndian::read_uint(bytes, 4)),
        8 => Some(LittleEndian::read_uint(bytes, 8)),
        _ => None,
    }
}
