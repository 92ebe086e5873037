//! Circuits: words of literals, and the gates of each operator on them.
//!
//! Takes words, the literals of values' bits from bit 0, and gives the word of a sum, a product, a
//! shift, a comparison and so on. Promises exactly the defined gates in their order, that `Full`
//! comes only where the defined formula has too many variables, that the literals made are of its
//! variables, and that the formula begins with the earlier one, on `Ok` and on `Err`. An `Err`
//! leaves the earlier clauses and a front of what was being made: take the formula back to a mark.
//!
//! `specs/Words.antt` says what words are and how pieces of an encoding are made one after the
//! other, `Operators.antt` what the word of each operator is, and `Circuits.antt` what it is that a
//! circuit makes a bit or a word. `BitGates.antt` names the gates of two bits. The laws say that
//! the word of each operator but `/` and `%` spells the operator's value. Private are `Moves.antt`
//! and `Rows.antt`, which say how the code goes.
#![tactic(auto)]

mod adders;
mod bit_gates;
mod chains;
mod comparators;
mod laws;
mod multipliers;
mod operators;
mod selectors;
mod shifters;
mod variables;
mod words;

pub use bit_gates::{BitGate, bitwise, chosen};
pub use chains::joined_to;
pub use comparators::{equal, equal_number};
pub use laws::{binary_circuits_spell_their_values, unary_circuits_spell_their_values};
pub use operators::{binary, not_zero, unary};
pub use selectors::picked;
pub use variables::fresh;
pub use words::{
    extended, falsity, filled, inverted, literal_at, number_word, part, repeated, replaced,
    top_literal, truth, zero_filled,
};
