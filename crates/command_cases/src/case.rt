// A case, as a line says it.
use flash_io::{Word, WordList};
use flash_list::Items;
use std::alloc::{AllocError, Global};
use std::rt::Files;
use std::{fs, io};

/// What a command is run on. A source that can't be opened is none.
#[derive(Drop)]
pub struct Case {
    pub log: Option<Vec<u8>>,
    pub script: Option<Vec<u8>>,
    pub words: WordList,
}

/// The case of a line; none where it isn't one.
pub fn read_case<R: Files + AllocGlobal>(rt: &R, line: &str) -> io::Result<Option<Case>> {
    let Some((log, rest)) = line.split_once('|') else {
        return Ok(None);
    };
    let Some((script, words)) = rest.split_once('|') else {
        return Ok(None);
    };
    let log = read_log(rt, log)?;
    let script = read_script(rt, script.trim())?;
    let words = read_words(rt.alloc(), words)?;
    Ok(Some(Case { log, script, words }))
}

fn read_log<R: Files + AllocGlobal>(rt: &R, text: &str) -> io::Result<Option<Vec<u8>>> {
    let parts: Vec<&str> = text.split_whitespace().collect(rt.alloc())?;
    match *parts.as_slice() {
        [text] => match text.strip_prefix("x") {
            Some(digits) => Ok(hex::decode(rt.alloc(), digits).ok()),
            None => Ok(fs::read(rt, text).ok()),
        },
        [file, "to", count] => {
            let mut log = fs::read(rt, file)?;
            log.truncate(count.parse::<usize>().unwrap_or(0));
            Ok(Some(log))
        }
        [file, "with", at, byte] => {
            let mut log = fs::read(rt, file)?;
            let at = at.parse::<usize>().unwrap_or(usize::MAX);
            if let Some(place) = log.get_mut(at) {
                *place = byte.parse::<u8>().unwrap_or(0);
            }
            Ok(Some(log))
        }
        _ => Ok(None),
    }
}

fn read_script<R: Files + AllocGlobal>(rt: &R, text: &str) -> io::Result<Option<Vec<u8>>> {
    if text == "-" {
        return Ok(None);
    }
    if let Some(file) = text.strip_prefix("@") {
        return Ok(fs::read(rt, file).ok());
    }
    let script = Vec::from_slice(rt.alloc(), text.as_bytes())?;
    Ok(Some(script))
}

fn read_words(alloc: Global, text: &str) -> Result<WordList, AllocError> {
    let mut words = Items::new(alloc);
    for part in text.split_whitespace() {
        let word = Word::from_slice(alloc, part.as_bytes())?;
        let Ok(()) = words.push(word) else {
            return Err(AllocError);
        };
    }
    Ok(words)
}
