//! Clauses, resolution and logs of resolution, and what they show.
//!
//! Takes literals for a clause, and two clauses for a resolvent. Gives a clause in normal form, or
//! the resolvent on the only variable on which the two clash; promises both exactly. A contract
//! sees a [`Clause`] as the list of its literals.
//!
//! On plain lists `specs/Literals.antt` says when values make a clause true, `Resolution.antt` what
//! a resolvent is, `Logs.antt` when a log refutes clauses, and `Units.antt` what unit resolution
//! reaches; the laws tie them together. None is private.
#![tactic(auto)]

mod clause;
mod laws;
mod logs;
mod resolution;

pub use clause::Clause;
pub use laws::{
    new_contains_no_earlier, refuted_has_no_solution, resolvent_holds_where_both_do,
    same_literals_same_clause, unit_conflict_has_no_solution,
};
pub use logs::{Derived, Log};
pub use resolution::{ResolveFault, resolve, resolve_into};
pub use std::alloc::AllocError as OutOfMemory;
