// The words of a command line.
use flash_list::{Bytes, Items};

/// One word, seen as a list of bytes.
pub type Word = Bytes;

/// Words, seen as a list of them.
pub type WordList = Items<Word>;
