//! What `sim` writes of a design for a stimulus.
//!
//! Takes an admitted design (`sv_design`), a source that gives the stimulus and a sink (`sv_io`).
//! [`simulate`] takes the stimulus in pieces, reads it (`sv_trace`), runs its cycles (`sv_sim`, or
//! `sv_event` where an order is asked for), and writes the lines of a piece before it takes more:
//! no clause says when, but that where the input fails all lines of the cycles until then are
//! written (`prompt`).
//! A wrong line and an exceeded limit are told by the texts of `sv_report`.
//!
//! Promises that what is written is the trace of the stimulus, and then why it ends, which is told
//! at its end or holds whatever follows: by `specs/Simulated.antt` over a flat design, whose traces
//! and lines stand in `Traces.antt` for every kind of signal name. `Runs.antt`, `Progress.antt`,
//! `Fronts.antt` and `Runners.antt` are private: they say how the code goes; the meaning stands in
//! those two. `Faults.antt` says what a sink's fault becomes.
#![tactic(auto)]

mod endings;
mod laws;
mod lines;
mod runners;
mod simulations;
mod stimuli;

pub use endings::{Ending, SimFault};
pub use laws::each_stimulus_has_one_text;
pub use std::alloc::AllocError as OutOfMemory;
pub use stimuli::simulate;
