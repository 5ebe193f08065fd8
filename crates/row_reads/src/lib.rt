//! For tests: the rows, the refusal and the reply of a read, computed by a plain and slow program
//! over lists alone whose contracts are the definitions.
#![tactic(auto)]

mod filter;
mod refusal;
mod reply;
mod shown;

pub use filter::kept;
pub use refusal::refused;
pub use reply::{Reply, answer};
pub use shown::rows;
