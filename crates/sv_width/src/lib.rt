//! Length, signedness and value of source expressions (IEEE 1364-2005, clauses 5.4 and 5.5).
//!
//! It takes an expression of the grammar's shape, and a `Scope` that says what each name stands
//! for. `typed` gives the typed form for a place that gives a length, `constant` and
//! `constant_in_reach` the value of a constant, and an `Operand` is typed or valued later, where
//! its place gives length and signedness. Each answers as the walk of an expression in
//! `specs/ExpressionSteps.antt` of `sv_elab_rules` ends: with its result, with the first of the rules 401
//! to 408 that is broken, or with want of memory. Typed forms are those of
//! `specs/TypedExpressions.antt` there; they have the values of their sources, as
//! `specs/Values.antt` of `sv_ast` gives them.
//!
//! `specs/Scopes.antt` says what a scope knows, `Answers.antt` what a call answers for a walk,
//! `Operands.antt` what an operand is, over what an expression is after the first walk
//! (`Measured.antt`, `Views.antt`), `Agreement.antt` when signals and an environment are those of
//! some names, and `WrittenLengths.antt` that written numbers have 1 to 64 bits. `Settings.antt`,
//! `Pushed.antt` and `Outcomes.antt` are private: they say how the code goes; the meaning stands in
//! those files of `sv_elab_rules`.
#![tactic(auto)]

mod building;
mod folding;
mod laws;
mod lookups;
mod meanings;
mod measured;
mod measuring;
mod operands;
mod scope;
mod types;
mod typing;

pub use building::{natural, part_inside};
pub use laws::{typed_forms_are_well_formed, typed_means_its_source};
pub use lookups::{refusal, refusal_naming, unknown_name};
pub use meanings::{KnownSignal, Meaning};
pub use operands::Operand;
pub use scope::Scope;
pub use typing::{constant, constant_in_reach, typed};
