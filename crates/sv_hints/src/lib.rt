//! What a person is told of a text from its tokens and its tree alone.
//!
//! Takes a refusal of a rule that needs no flat design, with the text, and gives the words of its
//! line ([`words_of`]); `sv_messages` makes the lines, and the words of all else, from the flat
//! design on. The calls by which both show names, numbers and lines of a text stand here too.
//!
//! Nothing is proved of the words: a cause is found anew in the text, by the calls of the layers
//! below, and where it is not found less is said. Promised is that each call ends safely whatever
//! text and refusal are given, and that it fails only where memory runs out.
#![tactic(auto)]

mod assigns;
mod cases;
mod constants;
mod contexts;
mod excerpts;
mod forms;
mod instances;
mod links;
mod maps;
mod mistakes;
mod modules;
mod named;
mod names;
mod numerals;
mod origins;
mod rows;
mod rules;
mod selects;
mod sentences;
mod syntax;
mod tables;

pub use assigns::instance_words;
pub use cases::{Case, owned};
pub use excerpts::push_excerpt;
pub use links::{PortLink, port_link};
pub use origins::{Origin, first_unbuilt, place_of};
pub use rows::{Row, file_name, shown, shown_word};
pub use rules::words_of;
pub use sentences::{Hole, told};
pub use std::alloc::AllocError as OutOfMemory;
