// Bytes and numbers behind a text.
ghost use Rattle.std.specs.Prelude.{◌≡◌, ◌++◌, OnOk, OnErr};
ghost use Rattle.std.specs.Fmt.{decimal, signed_decimal};
ghost use Rattle.tool_text.specs.Texts.{Begins};

use column_block::Memory;
use itoa::Buffer;

pub fn push(into: &mut Vec<u8>, text: &[u8]) -> Result<(), Memory>
    ensures ok { OnOk result (into.new.items ≡ into.old.items ++ text.now) }
    ensures err { OnErr result (into.new.items ≡ into.old.items) }
{
    match into.extend_from_slice(text) {
        Ok(()) => Ok(()),
        Err(_) => Err(Memory),
    }
}

// A word, and a number in decimal.
#[tactic(auto, using(crate::proofs::Begins::begins))]
pub fn push_number(word: &[u8], number: u64, into: &mut Vec<u8>) -> Result<(), Memory>
    ensures ok { OnOk result (into.new.items ≡ into.old.items ++ (word.now ++ decimal number)) }
    ensures err { OnErr result (Begins into.old.items into.new.items) }
{
    push(into, word)?;
    push(into, Buffer::new().format(number).as_bytes())
}

// A word, and a handle in decimal.
#[tactic(auto, using(crate::proofs::Begins::begins))]
pub fn push_handle(word: &[u8], handle: i64, into: &mut Vec<u8>) -> Result<(), Memory>
    ensures ok { OnOk result (into.new.items ≡ into.old.items ++ (word.now ++ signed_decimal handle)) }
    ensures err { OnErr result (Begins into.old.items into.new.items) }
{
    push(into, word)?;
    push(into, Buffer::new().format(handle).as_bytes())
}
