//! Rules over flat designs: which of the rules 601 to 606 a design breaks first, and where.
//!
//! Takes a flat design of `sv_flat` that is sound. `check_drivers` gives its clocks and the first
//! two processes that assign each signal where it breaks none of the rules 601 to 604, and
//! `check_blocks` says that it breaks neither 605 nor 606; else each gives the fault of the first
//! rule that is broken. What the layer above asks of a design by the same words stands here too:
//! the names in expressions with the bits that they read, the bits of pieces and of the blocks
//! around a statement, and tables of what statements assign.
//!
//! Promises that a rule is asked as its definition in `sv_flat` has it (`specs/Assignments.antt`,
//! `Clocks.antt`, `Drivers.antt`, `Blocks.antt`), and that what is found first is the first by
//! number, then place, then signal (here `specs/First.antt`, `Faults.antt`).
//!
//! `Arms.antt`, `ClockTables.antt`, `DriverTables.antt`, `Links.antt`, `Phases.antt`,
//! `Pieces.antt`, `ReadForms.antt`, `ReadMarks.antt`, `Refusals.antt`, `Surroundings.antt`,
//! `Selectors.antt`, `Tops.antt` and `WrongAssigns.antt` are private: they say how the code goes;
//! the meaning stands in the files before. Graphs, searches and sets of bits are those of
//! `sv_graph`.
#![tactic(auto)]

mod assignments;
mod blocks;
mod checks;
mod clock_rule;
mod clocks;
mod drivers;
mod found;
mod links;
mod marks;
mod names;
mod pieces;
mod refusals;
mod surroundings;
mod tops;
mod uses;

pub use checks::{Driven, check_blocks, check_drivers};
pub use clocks::{is_clock_link, is_top};
pub use drivers::{Driver, Drivers, driver_numbers};
pub use found::{Found, first_of, is_before};
pub use marks::{mark_targets, unmarked};
pub use names::{Read, bits_read, indexed, is_below_zero, names_in, part, whole};
pub use pieces::add_pieces;
pub use refusals::refusal;
pub use std::alloc::AllocError as OutOfMemory;
pub use surroundings::Surrounding;
