//! Tests of the tool: the texts that it reads and prints, and its commands.
#![tactic(auto)]

#[cfg(test)]
mod commands;
#[cfg(test)]
mod text;
