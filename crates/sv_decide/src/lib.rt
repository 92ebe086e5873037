//! What is decided of an obligation of an admitted design: that it is valid, that a valuation
//! falsifies it, or that a budget is spent on it.
//!
//! Takes a design, a query that is one of its obligations, and a budget of conflict clauses.
//! `decide` gives a log that refutes the clauses of the obligation's encoding, a valuation that
//! fits the design and falsifies the obligation, or a log that spends the budget; or it tells that
//! the encoding has too many variables. `is_valid_by_labels` tells without a clause where labels
//! alone show that an obligation is valid. `falsifies` tells by simulation whether a valuation
//! falsifies an obligation, whoever found it. `laws` says of spent logs, whoever made them, which
//! budgets they never spend.
//!
//! `specs/Decisions.antt` says of which answer a clause speaks. What is decided stands in the
//! crates below: `Deciding.antt` and `BothWays.antt` in `sv_encoding`, `Validity.antt` and
//! `Valuations.antt` in `sv_obl`, and `Answers.antt` in `sv_solve`.
//! `Simulating.antt` is private: it says how the code goes.
#![tactic(auto)]

mod by_labels;
mod deciding;
mod failing;
mod falsifying;
mod laws;
mod spelling;

pub use by_labels::is_valid_by_labels;
pub use deciding::{Decided, decide, decide_by};
pub use falsifying::falsifies;
pub use laws::{spent_logs_are_shorter_than_all_clauses, units_are_never_spent};
