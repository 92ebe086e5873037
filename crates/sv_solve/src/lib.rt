//! Decides clauses by conflict-driven clause learning: values that make them all true, a log that
//! refutes them, or a spent log.
//!
//! The search decides a literal, makes true what watched literals show to be implied, and at a
//! false clause learns a conflict clause at the first unique implication point, minimizes it and
//! backjumps. `order` picks decisions by activity and phase.
//!
//! [`solve`] takes clauses over numbered variables and a budget of conflict clauses. Values that it
//! finds satisfy every clause, a log that it gives refutes them, and a spent log has as many steps
//! as the budget, each derived and new. The crate does not promise which literal is decided next.
//!
//! What each answer means is said in `specs/Answers.antt`, and in `sv_clause`: `Satisfies` in
//! `specs/Literals.antt`, `Refutes` in `Logs.antt`, `IsSpentLog` in `Units.antt`.
//!
//! The other files in `specs/` are private: they say how the code goes; the meaning stands in the
//! files above. `Codes.antt` says by which number a literal stands in tables, `Lists.antt` what a
//! list of literals and the trail keep, `Search.antt` which clauses are false or settled under such
//! a list and which literals they imply, `Values.antt` what value a trail gives each variable,
//! `Conflicts.antt` when a clause is a false one, `ConflictClauses.antt` what is learned from it,
//! `Watching.antt` which literals each clause watches, `Known.antt` what was given and learned so
//! far, `States.antt` what the state of the search keeps at each moment, and `Outcomes.antt` what a
//! search comes to.
#![tactic(auto)]

mod activity;
mod analysis;
mod heap;
mod kept;
mod knowledge;
mod lists;
mod literal;
mod minimization;
mod order;
mod phases;
mod search;
mod solver;
mod state;
mod trail;
mod watches;

pub use solver::{Solved, is_within, solve};
pub use std::alloc::AllocError as OutOfMemory;
