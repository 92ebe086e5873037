//! Acceptance: logs of resolution that show that the obligations of a design are valid, whoever
//! made them.
//!
//! Takes a design, some of its obligations as queries, and a log for each. `check_query` makes the
//! encoding of one obligation anew and checks that the log refutes it; `accept` does so for all of
//! them, in order, and names the first that fails. Where it answers `Ok`, all of them are valid,
//! and if they are the design's obligations, no level of the design learns more than it may.
//!
//! `specs/Accepting.antt` says when logs are accepted and what each fault means, over
//! `Deciding.antt` of `sv_encoding` and `Checking.antt` of `sv_proof`. None is private.
#![tactic(auto)]

mod faults;
mod laws;
mod logs;

pub use faults::{AcceptFault, QueryFault};
pub use laws::refuted_obligations_are_valid;
pub use logs::{accept, check_query};
pub use std::alloc::AllocError as OutOfMemory;
