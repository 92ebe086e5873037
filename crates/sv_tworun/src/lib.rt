//! Two runs of one design: what a level sees of each, and whether it tells them apart.
//!
//! Takes an admitted design of `sv_design`, simulations of `sv_sim` and stimuli of `sv_trace`.
//! `view` gives the signals that a level sees in a settled simulation, with their values, and
//! `same_view` compares two. `compare` runs a design on two stimuli and finds the first cycle and
//! signal in which a level sees two things. `accept` of `sv_accept` is handed on: the logs that it
//! takes for all obligations of a design show that it is noninterferent.
//!
//! Promises that the view is that of `sv_system/specs/System.antt`, and that `compare` finds what
//! `specs/Comparisons.antt` says of the traces of both runs, which is one thing; and that for a
//! noninterferent design it never finds that what was given looks alike and the views do not.
//! `Forms.antt` has the plain forms of views and findings, and the runs that stimuli ask for.
//!
//! `Sights.antt` is private: it says how the code goes; the meaning stands in the files before.
#![tactic(auto)]

mod compared;
mod comparing;
mod differences;
mod laws;
mod levels;
mod sights;
mod views;

pub use compared::Compared;
pub use comparing::compare;
pub use laws::{comparisons_find_one_thing, findings_are_one, noninterferent_systems_show_no_leak};
pub use levels::view;
pub use std::alloc::AllocError as OutOfMemory;
pub use sv_accept::{AcceptFault, accept};
pub use views::{View, same_view};
