//! What the encoding of an obligation says: values that meet its clauses falsify it, and what
//! falsifies it meets them, so that clauses without a solution mean a valid obligation.
//!
//! This crate has laws alone, no program. On the way they say that words of expressions spell their
//! values, words of signals what settles in a cycle and what registers have in the next one, and
//! words of inputs whatever values there are, which the places of their bits tell; that literals of
//! labels say the labels' points, and that of a flow whether some label stays; that each bit has
//! one place, that labels alone can decide, and that the told size is exact. What is said stands in
//! `specs/BothWays.antt`, `LabelMeanings.antt` and `GivenMeanings.antt` of `sv_encoding`.
#![tactic(auto)]

mod laws;

pub use laws::{
    clauses_say_what_falsifies, encodings_are_whole, labels_alone_decide,
    labels_of_signals_say_their_points, places_spell_the_words_of_inputs, told_sizes_are_exact,
    unmet_clauses_mean_valid, violations_say_that_some_label_stays,
    words_of_expressions_spell_their_values, words_of_inputs_are_free,
    words_of_registers_spell_next_values, words_of_signals_spell_settled_values,
};
