// The command line.
use flash_io::{Word, WordList};
use flash_list::Items;
use std::alloc::AllocError;
use std::env;
use std::env::Env;
use std::io::ErrorKind;

/// What the command line says.
#[derive(Drop)]
pub struct Input {
    /// The path of the log. A missing one is the empty text.
    pub log: String,
    /// The path of the script. A missing one is the empty text.
    pub script: String,
    /// The words behind the three paths.
    pub words: WordList,
}

/// Reads the command line. One that isn't text has no words.
pub fn read_input<R: Env + AllocGlobal>(rt: &R) -> Result<Input, AllocError> {
    let mut log = String::new(rt.alloc());
    let mut script = String::new(rt.alloc());
    let mut words = Items::new(rt.alloc());
    match env::args(rt) {
        Ok(args) => {
            for (place, arg) in args.enumerate() {
                if place == LOG {
                    log = arg;
                } else if place == SCRIPT {
                    script = arg;
                } else if place > DIR {
                    let word = Word::from_slice(rt.alloc(), arg.as_bytes())?;
                    let Ok(()) = words.push(word) else {
                        return Err(AllocError);
                    };
                }
            }
        }
        Err(error) => {
            if error.kind() == ErrorKind::OutOfMemory {
                return Err(AllocError);
            }
        }
    }
    Ok(Input { log, script, words })
}

// The places of the paths of the log, of the script and of the store's directory.
const LOG: usize = 1;

const SCRIPT: usize = 2;

const DIR: usize = 3;
