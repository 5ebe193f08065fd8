//! What the tool prints.
#![tactic(auto)]

mod event;
mod field;
mod list;
mod misfit;
mod names;
mod push;
mod read;
mod reader;
mod refusal;
mod reply;
mod row;
mod script;
mod words;

pub use column_block::Memory;
pub use reader::{MOST_SCRIPT, read_script};
pub use refusal::print_script_error;
pub use reply::{Cuts, ReadReply, Rows, print_reply};
pub use row::print_row;
pub use script::{Action, Event, Events, PathText, Reads, Script, ScriptError, ScriptRead};
pub use words::{Usage, Words, read_words, words_ask_for_one_command};
