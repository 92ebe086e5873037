//! Admission: flat designs that break no rule, with what is worked out of them once.
//!
//! Takes a flat design of `sv_flat` that is sound. `Design::admit` gives the design where it breaks
//! none of the rules 601 to 607, or else the first that it breaks. With a design come its clock,
//! its registers, its combinational signals by depth, its processes without links to clocks, each
//! signal's driver, and the signals read for each signal.
//!
//! Promises that each part is its definition in `sv_flat` (`specs/Admission.antt`, `Clocks.antt`,
//! `Loops.antt`, `Processes.antt`, `Reads.antt`, `SignalLists.antt`), and that of the circles of
//! rule 607 the first is found (here `specs/Circles.antt`); the rules before it are those of
//! `sv_rules`, which says what a fault tells (`First.antt`, `Faults.antt`). A contract sees an
//! admitted design as the flat design that was admitted: `Designs.antt` says what holds of it,
//! `Tables.antt` what its lists are, and `Numbers.antt` has the words for signals by their numbers.
//!
//! `Depths.antt`, `Feeds.antt` and `Orders.antt` are private: they say how the code goes; the
//! meaning stands in the files before. Graphs, searches and sets of bits are those of `sv_graph`:
//! its `components` and `nests` promise no more than to end safely, for what circles there are is
//! the same by any order that they find, and only the time to find the first one is not.
#![tactic(auto)]

mod admit;
mod depths;
mod design;
mod loops;
mod orders;
mod processes;
mod reads;
mod registers;
mod signal_lists;
mod tables;

pub use design::Design;
pub use std::alloc::AllocError as OutOfMemory;
