//! The sample of `secv gen`: a design of so many lanes, for trying the program at any size.
//!
//! Takes a number of lanes, and gives the text of the design, or a [`GenFault`]. Each lane takes
//! turns between two domains: what comes in the one's turn is kept apart from what comes in the
//! other's, so that nothing leaks.
//!
//! Promises that the text is its definition: `specs/Sample.antt` has the text, line by line, and
//! how many lanes there may be. None is private.
#![tactic(auto)]

mod faults;
mod sample;

pub use faults::GenFault;
pub use sample::generate;
pub use std::alloc::AllocError as OutOfMemory;
