//! Statements of a text as flat statements (IEEE 1364-2005, clause 9), or the first rule that they
//! break.
//!
//! `statement` and `assignment` take a tree of the grammar's shape and a scope, and give the flat
//! form that the walk gives, sound over the signals of the scope's names; or else the first rule of
//! 401 to 408 that is broken. A contract speaks of the walk of a statement, which
//! `specs/Statements.antt`, `Targets.antt` and `CaseChains.antt` of `sv_elab_rules` define.
//!
//! `Targets.antt`, `Cases.antt` and `Chains.antt` here are private: they say what the code holds on
//! the way; the meaning stands in those of `sv_elab_rules`.
#![tactic(auto)]

mod cases;
mod chains;
mod complete;
mod parts;
mod statements;
mod targets;

pub use statements::statement;
pub use targets::assignment;
