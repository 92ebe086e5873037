//! What a person is told of a refusal, in the words of a hardware designer.
//!
//! Takes what a command was asked, the text that it read, what else it was given, and why the
//! answer was no (`Broken` of `sv_report`). [`message`] gives a line that says what is wrong and,
//! where there is a usual one, the mend; where the refusal has a place the line begins with it, and
//! below stand the line of the text and a caret. What is said of a text by its tokens and its tree
//! alone comes from `sv_hints`.
//!
//! A message is nothing proved: a cause is found anew in the text, by the calls of the layers
//! below, and where it is not found the message says less. Promised is that a message ends safely
//! whatever text, command and refusal are given, and that it fails only where memory runs out. Its
//! caller shows none then, and changes nothing else.
#![tactic(auto)]

mod clocks;
mod comparisons;
mod counts;
mod designs;
mod drivers;
mod flows;
mod limits;
mod messages;
mod said;
mod stimuli;
mod uses;

pub use messages::{message, spent_message};
pub use std::alloc::AllocError as OutOfMemory;
pub use stimuli::Given;
