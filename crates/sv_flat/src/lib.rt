//! Flat designs: the signals and processes of a whole instance tree, by number, with typed
//! expressions.
//!
//! Takes nothing: it has the types of a flat design, the value of a typed expression, a run of a
//! body, and whether a design is sound. Promises that each is its definition, that a copy is equal,
//! and that each combinational process of a sound and admitted design changes its own targets
//! alone, by what lies lower. A contract sees a design by its plain form (`specs/Design.antt`), as
//! `design_of` of `Views.antt` gives it.
//!
//! `Soundness.antt` says which designs are sound, `Values.antt` and `Runs.antt` what expressions
//! and bodies do, `FlatSystem.antt` what a design means, and `Schedules.antt` in which orders its
//! processes may run. `Admission.antt` says which designs have a meaning, by rules that
//! `Assignments.antt`, `Clocks.antt`, `Drivers.antt`, `Blocks.antt` and `Loops.antt` define, in the
//! order of `Breaches.antt`; `Assigned.antt`, `Readings.antt`, `Reads.antt`, `Processes.antt` and
//! `SignalLists.antt` say what a design assigns, reads and lists. `Given.antt` says which values fit
//! listed signals and what environment they give, and `Selectors.antt` which signals select a label.
//! `Sets.antt` and `ByNumber.antt` have words for these. `Branches.antt` is private: it says how a
//! copy goes; the meaning stands in `Views.antt`.
#![tactic(auto)]

mod bits;
mod constants;
mod designs;
mod expressions;
mod laws;
mod runs;
mod signals;
mod soundness;
mod statements;
mod typing;
mod values;

pub use constants::{constant_value, is_constant};
pub use designs::{Flat, ProcKind, Process};
pub use expressions::{FExpr, FNode};
pub use laws::{admitted_designs_are_scheduled, clocks_lead_up_to_a_top_clock};
pub use runs::{run_body, update_body};
pub use signals::{SigId, SigKind, Signal};
pub use soundness::sound;
pub use statements::{FStmt, Piece};
pub use std::alloc::AllocError as OutOfMemory;
pub use typing::well_formed;
pub use values::value_of;
