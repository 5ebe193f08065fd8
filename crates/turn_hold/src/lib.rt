//! One hold of a turn: a seat takes the value, looks at it or changes it, and gives it back. What the
//! seat has seen then is one record, `Saw`.
#![tactic(auto)]

mod hold;

pub use hold::{give_same, pin_same};
