//! What the words of a command line denote.
//!
//! `clap` reads the words as one simple command: two arguments by place, and options. A table of the commands says which of
//! these each command takes. So a command is added by a line of the table, and an option by one of the arguments.
#![tactic(auto)]

mod arguments;
mod commands;
mod forms;
mod help;
mod laws;
mod matching;
mod options;
mod parsing;

pub use commands::{Command, DemoOptions, QueryOptions};
pub use help::help_text;
pub use laws::name_changes_nothing;
pub use parsing::{WordsError, command_of};

#[cfg(test)]
mod tests;
