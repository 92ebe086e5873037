//! What `compare` comes to: two stimuli of a design, a level, and what it first sees of two things.
//!
//! Takes an admitted design of `sv_design`, one of its points, and the bytes of two stimuli.
//! [`compare_stimuli`] reads both by `read_stim` of `sv_trace`, the first one first, and compares
//! the runs by `compare` of `sv_tworun`: it finds what the comparison of the traces that both
//! stimuli ask for finds (`IsDesignCompared` of `specs/ComparedTexts.antt`), or tells the first
//! wrong line of the first that has one (`specs/Pairs.antt`).
//!
//! The laws say this of the source text that the design stands for: what is found of the design is
//! what is found of the text's own cycle meaning, under the names of the text (`IsTextCompared`),
//! it is one thing, and of a noninterferent text it is never that what is given looks alike and
//! the views do not. None of the files of definitions is private.
#![tactic(auto)]

mod comparing;
mod faults;
mod laws;

pub use comparing::compare_stimuli;
pub use faults::CompareFault;
pub use laws::{
    designs_are_compared_as_their_texts, each_pair_of_stimuli_has_one_finding,
    secret_keeping_texts_show_no_leak, stimuli_of_designs_are_those_of_texts,
};
pub use sv_tworun::Compared;
