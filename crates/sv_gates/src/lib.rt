//! Gates: variables and the clauses that fix their values.
//!
//! Takes literals for a gate, AND, XOR or multiplexer, and gives the literal of a new variable with
//! the clauses that hold exactly where the variable has the gate's value. Promises exactly the
//! defined clauses, in normal form and in their order, and that a gate that is refused changes
//! nothing. OR is the negation of the AND of two negations. A contract sees [`Gates`] as a formula
//! in conjunctive normal form: how many variables, and the clauses.
//!
//! On plain lists `specs/Formulas.antt` says what a formula is and when values meet it,
//! `NormalForms.antt` what the normal form of a clause is, `Gates.antt` which clauses each gate
//! has, and `Extending.antt` what a formula keeps as gates are added: that the gates' variables are
//! fixed by the others, in exactly one way. The laws tie them together. None is private.
#![tactic(auto)]

mod gates;
mod laws;
mod literal;
mod normal;
mod signed;
mod values;

pub use gates::{GateFault, Gates, MOST_VARIABLES, Mark};
pub use laws::{
    extending_goes_on, fresh_variables_are_free, gates_extend, gates_have_their_values,
    normal_form_says_the_same, units_are_true,
};
pub use literal::Literal;
pub use std::alloc::AllocError as OutOfMemory;
