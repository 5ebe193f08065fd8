// Words of commands.
use flash_io::{Word, WordList};
use flash_list::Items;
use std::test::*;
use tool_text::{Usage, Words, read_words};

fn list_of(rt: &HostRuntime, texts: &[&str]) -> Result<WordList, Fail> {
    let mut words: WordList = Items::new(rt.alloc());
    for text in texts {
        let word = Word::from_slice(rt.alloc(), text.as_bytes())?;
        words.push(word).ok().ok_or("memory")?;
    }
    Ok(words)
}

fn reads(rt: &HostRuntime, texts: &[&str], wanted: Option<Words>) -> Result<(), Fail> {
    let words = list_of(rt, texts)?;
    let found = match read_words(&words) {
        Ok(command) => Some(command),
        Err(Usage) => None,
    };
    if found == wanted {
        return Ok(());
    }
    Err(Fail::from(words))
}

#[test]
fn the_words_of_the_commands(rt: HostRuntime) -> Result<(), Fail> {
    reads(&rt, &["check"], Some(Words::Check))?;
    reads(&rt, &["show", "0"], Some(Words::Show { ts: 0 }))?;
    let most = Words::Show { ts: u64::MAX };
    reads(&rt, &["show", "18446744073709551615"], Some(most))
}

#[test]
fn words_with_spaces_and_empty_ones_are_none(rt: HostRuntime) -> Result<(), Fail> {
    reads(&rt, &["show", ""], None)?;
    reads(&rt, &["show", " 1"], None)?;
    reads(&rt, &["check "], None)?;
    reads(&rt, &[""], None)
}
