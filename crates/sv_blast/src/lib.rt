//! Encoding: from an obligation of an admitted design to clauses that can be met exactly where it
//! can be falsified, and from values of their variables back to a valuation.
//!
//! Takes a design and a query that is one of its obligations. `encode` gives exactly the encoding
//! that `sv_encoding` defines, or `TooLarge` exactly where that has more than 4,194,304 variables;
//! the size is told before a clause is made. A `Coder` does so for one obligation after the other,
//! and keeps how large each signal's word is and what two encodings begin with: the frames of equal
//! cones, and behind them equal first facts and conditions; its `check_size` tells the size alone.
//! `labels_decide` tells by the labels whether the first clause and the last one would refute each
//! other. `decode` gives the registers and inputs that values of the variables spell, and 0 where a
//! bit has no place; `decode_places` does so by the places alone, as a coder has them.
//! `problem_line` and `clause_lines` give the text of clauses, some at a time.
//!
//! `specs/Coded.antt` is the plain form of an encoding, `Coders.antt` says which one a coder holds,
//! `Decoded.antt` what `decode` asks for and gives. All other files there are private: they say how
//! the code goes; the meaning stands in `sv_encoding`.
#![tactic(auto)]

mod arms;
mod bodies;
mod cnf_text;
mod coded;
mod coder;
mod cones;
mod constants;
mod decoding;
mod encoding;
mod expressions;
mod fan_in;
mod followed;
mod followed_arms;
mod followed_sizes;
mod framed;
mod frames;
mod goals;
mod labels;
mod marks;
mod operators;
mod places;
mod sameness;
mod sizes;
mod sizes_of_expressions;
mod sizes_of_labels;
mod sizes_of_operators;
mod sizes_of_signals;
mod tables;
mod truths;
mod units;
mod without_clauses;

pub use cnf_text::{clause_lines, problem_line};
pub use coded::{BitPlace, BlastFault, Coded};
pub use coder::Coder;
pub use decoding::{decode, decode_places};
pub use encoding::encode;
pub use without_clauses::labels_decide;
