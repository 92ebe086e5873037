//! The walk of elaboration: which rule each part of a source tree is asked, in which order, and the
//! flat design that the tree stands for.
//!
//! This crate has definitions and a law on them, no program. `specs/Walks.antt` says what a walk
//! is, `Rules.antt` what a broken step tells, `Texts.antt` what the walk of a whole text is. Below
//! it stand `Lattices.antt`, `LabelMaps.antt`, and `InstanceSteps.antt` with `Overrides.antt`,
//! `Declarations.antt`, `LabelSteps.antt`, `Links.antt`, `Statements.antt`, `CaseChains.antt` and
//! `Targets.antt`; `Names.antt` says what names stand for, `ExpressionSteps.antt` what an
//! expression is asked, `TypedExpressions.antt` what it becomes. None is private.
#![tactic(auto)]

mod laws;

pub use laws::tables_of_lattices_are_exact;
