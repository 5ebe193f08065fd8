// The bytes of files, which a file shares with those who hold it.
ghost use Rattle.std.specs.Prelude.{◌≡◌, ◌≤◌, ◌+◌, ◌++◌, ℕ, length, take, drop, IfOk, OnOk, OnErr};
ghost use Rattle.std.specs.Option.{option_map};
ghost use Rattle.std.specs.BTreeMap.{btree_map_len};
ghost use Rattle.flash_mem.specs.Files.{image_of, bytes_of, set_file, written};

use flash_io::FileId;
use std::alloc::{AllocError, Global};
use std::collections::BTreeMap;
use std::sync::Arc;

pub type Files = BTreeMap<FileId, Arc<Vec<u8>>>;

/// Puts the bytes in the place of those from `at` on.
pub fn write_over(content: &mut Vec<u8>, at: usize, bytes: &[u8]) -> Result<(), AllocError>
    requires { at ≤ length content.old.items }
    ensures ok { OnOk result (content.new.items ≡ take at content.old.items ++ bytes.now ++ drop (at + length bytes.now) content.old.items) }
    ensures err { OnErr result (content.new.items ≡ content.old.items) }
{
    let room = content.len() - at;
    if bytes.len() <= room {
        content[at..at + bytes.len()].copy_from_slice(bytes);
        return Ok(());
    }
    let (over, past) = bytes.split_at(room);
    content.extend_from_slice(past)?;
    content[at..at + room].copy_from_slice(over);
    Ok(())
}

/// The content with the bytes in the place of those from `at` on, as a copy.
pub fn overwritten(
    alloc: Global,
    content: &[u8],
    at: usize,
    bytes: &[u8],
) -> Result<Vec<u8>, AllocError>
    requires { at ≤ length content.now }
    ensures { IfOk result (λ next. next.items ≡ take at content.now ++ bytes.now ++ drop (at + length bytes.now) content.now) }
{
    let mut next = content[..at].to_vec(alloc)?;
    next.extend_from_slice(bytes)?;
    if bytes.len() < content.len() - at {
        next.extend_from_slice(&content[at + bytes.len()..])?;
    }
    Ok(next)
}

/// Puts the bytes in the place of those from `at` on, in a copy where someone else holds them.
pub fn change_content(
    alloc: Global,
    content: &mut Arc<Vec<u8>>,
    at: usize,
    bytes: &[u8],
) -> Result<(), AllocError>
    requires { at ≤ length (bytes_of content.old) }
    ensures ok { OnOk result (bytes_of content.new ≡ take at (bytes_of content.old) ++ bytes.now ++ drop (at + length bytes.now) (bytes_of content.old)) }
    ensures err { OnErr result (bytes_of content.new ≡ bytes_of content.old) }
{
    if let Some(own) = Arc::get_mut(content) {
        return write_over(own, at, bytes);
    }
    let copy = overwritten(alloc, content, at, bytes)?;
    *content = Arc::new(alloc, copy)?;
    Ok(())
}

/// Writes over a part of one file, or past its end. Nothing happens where the file isn't there or
/// is shorter than `at`.
pub fn change_file(
    alloc: Global,
    files: &mut Files,
    file: FileId,
    at: u64,
    bytes: &[u8],
) -> Result<(), AllocError>
    ensures ok { OnOk result ((f : ℕ) → image_of files.new f ≡ set_file file (option_map (written at bytes.now) (image_of files.old file)) (image_of files.old) f) }
    ensures err { OnErr result ((f : ℕ) → image_of files.new f ≡ image_of files.old f) }
    ensures len { btree_map_len files.new ≡ btree_map_len files.old }
{
    let Some(content) = files.get_mut(&file) else {
        return Ok(());
    };
    if at > content.len() as u64 {
        return Ok(());
    }
    change_content(alloc, content, at as usize, bytes)
}
