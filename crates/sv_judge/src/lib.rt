//! What `check` and `verify` come to for an admitted design that exceeds no limit on obligations.
//!
//! `check` decides the obligations in order, target by target, each by the clauses of its encoding:
//! all are refuted, or one is falsified or too large, which ends the check, or the budget is spent
//! on some. Where no log is wanted and labels alone show one valid, no clause of it is made.
//! `verify` takes the bytes of a certificate and decides nothing: it checks that each log refutes
//! the encoding of its obligation, or tells the line at fault. `laws` says which budgets are never
//! spent, whoever made the logs.
//!
//! `specs/Verdicts.antt` says what `check` comes to and `Certified.antt` what `verify` does, and
//! `Answers.antt` of which answer a clause speaks. `Progress.antt`, `Verifying.antt`,
//! `Walking.antt` and `Writable.antt` are private: they say how the code goes; the meaning stands
//! in the files before.
#![tactic(auto)]

mod checking;
mod laws;
mod progress;
mod verdicts;
mod verifying;
mod walk;
mod writable;

pub use checking::check;
pub use laws::{large_budgets_decide, unit_conflicts_decide};
pub use std::alloc::AllocError as OutOfMemory;
pub use verdicts::{Checked, Failure, Spent, Verified};
pub use verifying::verify;
