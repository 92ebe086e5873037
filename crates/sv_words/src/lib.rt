//! The words of the program: which command they ask for.
//!
//! The first word names the command, and the other words are read by `clap`, as one simple command
//! each. [`read_words`] gives the [`Command`], or what is wrong with the words. [`help_asked`] and
//! [`help_text`] are for who answers `secv COMMAND --help`, which is no command's words.
//!
//! Which words a command takes is said in `specs/Lines.antt`, in the words of `clap`'s own
//! specification of a simple command, and what they ask for in `specs/Words.antt`. `Found.antt` is
//! private: it says how the code goes; the meaning stands in those two.
#![tactic(auto)]

mod command;
mod help;
mod lines;
mod read;

pub use command::{Command, CommandName, UsageKind, WordFault};
pub use help::{help_asked, help_text};
pub use read::read_words;
pub use std::alloc::AllocError as OutOfMemory;
