//! From tokens to statements, targets and assignments.
//!
//! What tokens mean is said in `sv_ast` (`specs/GrammarStatements.antt`), the machine of the
//! grammar in `sv_parse_machine`, and what each function that reads promises in `sv_parse_expr`.
//!
//! `specs/ReadingArms.antt` and `ReadingAssignments.antt` are private: they say how reading goes;
//! what it means stands in `sv_ast`.
#![tactic(auto)]

mod arms;
pub mod assignments;
pub mod closed;
pub mod statements;
mod targets;
