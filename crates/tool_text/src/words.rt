// The words of a command.
ghost use Rattle.std.specs.Prelude.{List, ◌≡◌, ◌≢◌, ◌⊎◌, ◌<◌, ◌≤◌, ◌^◌, ℕ, false, IsTrue, slice_index, length, IfOk, OnErr, IfSome, IfNone, ◌↔◌, codes};
ghost use Rattle.std.specs.Fmt.{decimal};
ghost use Rattle.tool_text.specs.Words.{AsksFor, IsCommand};
ghost use Rattle.tool_text.specs.declared.words.Words.{Words};

use flash_io::WordList;

/// A command.
#[derive(Clone, Copy, Debug, PartialEq, Eq)]
pub enum Words {
    /// `show N`: the rows at the log's end at the timestamp N.
    Show { ts: u64 },
    /// `check`: what the log and the script count.
    Check,
    /// `replay`: the script is run over the log, and with `settle` the store is settled then. No
    /// words ask for it yet.
    Replay { settle: bool },
    /// `gen N`: the generated log of N transactions is run. No words ask for it yet.
    Gen { n: u64 },
}

/// The words are no command.
#[derive(Clone, Copy, Debug, PartialEq, Eq)]
pub struct Usage;

/// The command that the words are. They are `show` and a number from 0 to 18446744073709551615 in
/// decimal digits, with no sign and no leading zero, or `check` alone; all other words are `Usage`.
pub fn read_words(words: &WordList) -> Result<Words, Usage>
    ensures command { IfOk result (AsksFor words.now) }
    ensures usage { OnErr result (IsCommand words.now → ⊥) }
{
    match words.as_slice() {
        [command] => {
            if is_check(command.as_slice()) {
                Ok(Words::Check)
            } else {
                Err(Usage)
            }
        }
        [command, number] => {
            if !is_show(command.as_slice()) {
                return Err(Usage);
            }
            match read_number(number.as_slice()) {
                Some(ts) => Ok(Words::Show { ts }),
                None => Err(Usage),
            }
        }
        _ => Err(Usage),
    }
}

/// Words ask for one command at most.
pub fn words_ask_for_one_command()
    ensures { (words : List (List ℕ)) (a b : Words) → AsksFor words a → AsksFor words b → a ≡ b }
{}

// A number with no sign and no leading zero.
fn read_number(word: &[u8]) -> Option<u64>
    ensures found { IfSome result (λ n. (n < 2 ^ 64) × (word.now ≡ decimal n)) }
    ensures other { IfNone result ((n : ℕ) → n < 2 ^ 64 → word.now ≡ decimal n → ⊥) }
{
    if has_other_front(word) {
        return None;
    }
    match str::from_utf8(word) {
        Ok(text) => text.parse::<u64>().ok(),
        Err(_not_text) => None,
    }
}

// A plus, or a zero before other digits.
fn has_other_front(word: &[u8]) -> bool
    ensures yes { IsTrue result → (slice_index word.now 0 ≡ 43) ⊎ ((slice_index word.now 0 ≡ 48) × (2 ≤ length word.now)) }
    ensures plus { result ≡ false → slice_index word.now 0 ≢ 43 }
    ensures zero { result ≡ false → slice_index word.now 0 ≡ 48 → length word.now < 2 }
{
    match word {
        [b'+', ..] => true,
        [b'0', _, ..] => true,
        _ => false,
    }
}

fn is_show(word: &[u8]) -> bool
    ensures { IsTrue result ↔ (word.now ≡ codes "show") }
{
    word == b"show".as_slice()
}

fn is_check(word: &[u8]) -> bool
    ensures { IsTrue result ↔ (word.now ≡ codes "check") }
{
    word == b"check".as_slice()
}
