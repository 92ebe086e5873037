//! The texts that several layers write: numbers, places, broken rules, exceeded limits, and wrong
//! lines of a stimulus.
//!
//! Takes numbers, places, rules by their numbers and names. Gives the text of each, or adds it to
//! what is written, and promises that it is its definition: `specs/Texts.antt` has them all, with
//! the name of a rule by its number. Nothing here knows a design.
#![tactic(auto)]

mod numbers;
mod refusals;
mod rules;
mod stimuli;

pub use numbers::{push_number, push_place};
pub use refusals::{limit_text, refusal_text};
pub use rules::rule_name;
pub use stimuli::{StimKind, StimSource, stimulus_text};
