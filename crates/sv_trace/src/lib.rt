//! Stimuli, which `secv sim` reads, and the lines of traces, which it prints.
//!
//! A stimulus gives registers their starting values and the inputs theirs, cycle by cycle. What one
//! says, and which of its lines is the first wrong one, stands in `specs/Stimulus.antt`, over what
//! a stimulus has to know of a design (`specs/Forms.antt`). [`StimReader`] reads one in pieces:
//! however its bytes are cut, the start, the cycles and the fault are those of the whole text
//! (`HasFed` and `HasRead` of `specs/Reading.antt`), and it keeps only the rest of the current line
//! and the cycles that were not taken. A fault is answered from then on. [`read_stim`] reads a
//! whole text. The values of either fit the design, as `sv_sim` asks.
//!
//! [`trace_line`] gives the line of a cycle, with a level the view of that level
//! (`specs/Traces.antt`).
//!
//! `specs/Steps.antt` is private: it says how the code goes, line by line; the meaning stands in
//! `Stimulus.antt` and `Reading.antt`.
#![tactic(auto)]

mod cycles;
mod faults;
mod fields;
mod forms;
mod pieces;
mod reader;
mod starts;
mod state;
mod stim;
mod trace;

pub use faults::StimFault;
pub use reader::StimReader;
pub use std::alloc::AllocError as OutOfMemory;
pub use stim::{Stim, read_stim};
pub use sv_texts::StimKind;
pub use trace::trace_line;
