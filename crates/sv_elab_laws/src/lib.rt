//! What a flat design has to do with the source text that it comes from: each body, link and value
//! does to the signals of a design what its source does to those of an instance, and the cycle
//! systems of both are the same under other names of signals. The design is sound.
//!
//! This crate has definitions and laws on them, no program; the crates above import the laws.
//! `specs/FlattenedTexts.antt` says which texts the laws speak of, `Children.antt` when their
//! instances are whole, `Numbering.antt` when names of an instance have numbers of their own,
//! `Numbers.antt` when numbers fit, and `SameStates.antt` when two states of a run are the same.
//! `SideBySide.antt` says what it is that each process of the design does what that of the text
//! beside it does, and `InOrder.antt` what schedules make of two joined cycle systems and when
//! environments are settled in both. `Rounds.antt` says what an ordered run of the text's own
//! processes is. None is private.
//!
//! Of memories and invariants, which are not built yet, neither the walk nor the meaning takes
//! anything: of a text with such an item the laws speak as of the same text without it.
#![tactic(auto)]

mod beside;
mod bodies;
mod laws;
mod soundness;

pub use beside::{
    flat_processes_run_in_order_of_their_sources, instances_of_texts_are_whole,
    ordered_runs_are_those_of_texts, processes_stand_beside_their_sources,
};
pub use bodies::{
    flat_statements_assign_the_same_signals, flat_statements_do_what_their_sources_do,
    input_links_assign_their_ports, output_links_assign_their_signals, values_fit_their_lengths,
    wires_get_their_values, written_numbers_fit,
};
pub use laws::{
    flat_designs_do_what_their_texts_mean, noninterference_passes_to_texts,
    one_trace_passes_to_texts,
};
pub use soundness::{texts_stand_for_sound_designs, written_numbers_have_lengths};
