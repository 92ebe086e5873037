//! Obligations: what must hold of the labels of a flat design so that no secret reaches a public
//! signal. It says what an obligation is and what valid ones mean; `sv_paths` finds those of a
//! design.
//!
//! An obligation is a path through the process of a target, with the signals that it reads.
//! `specs/Paths.antt` says which paths a target has, `PathValues.antt` when one is taken,
//! `Wanted.antt` what is put in on the way, over `Exchange.antt` and `Nodes.antt`,
//! `Obligations.antt` which obligations a design has, `Asked.antt` which are asked of it,
//! `DesignQueries.antt` what makes an obligation one of the design's, `Validity.antt` when one is
//! valid, `Valuations.antt` what values in lists stand for, and `SignalNames.antt` how signals are
//! named. The laws say what valid obligations mean (`Noninterference.antt`), and what a process
//! makes of a signal from the values of what it reads (`MadeValues.antt`). A contract sees an
//! obligation by its plain form (`Views.antt`).
//!
//! `know_design` brings what the laws ask of a design. `Bodies` gives what of a body matters to one
//! target, its slice (`BodySlices.antt`), and a body with its earlier reads wanted, where it has
//! some (`MarkedBodies.antt`); for that it holds the bodies indexed too (`IndexedBodies.antt`).
//!
//! Inside, `IndexedStatements.antt` tells how a body is indexed, `IndexedArms.antt` how a chain of
//! branches is, `Later.antt` and `Marked.antt` how a body is marked part by part, and
//! `MarkedArms.antt` how a chain of branches is. `Routes.antt` tells paths as they are where no
//! read is an earlier one, and `SliceRoutes.antt` those through a slice, which has those of its
//! statement: `sv_paths` walks them. These seven are private: they say how the code goes; the
//! meaning stands in the files before. Sets of bits are those of `sv_graph`, and the ones around a
//! statement those of `sv_rules`.
#![tactic(auto)]

mod body_slices;
mod checked;
mod frames;
mod indexed;
mod laws;
mod marked;
mod marking;
mod names;
mod pieces;
mod queries;
mod valuations;

pub use body_slices::{Bodies, BodySlice, slice_for};
pub use checked::know_design;
pub use frames::Frame;
pub use indexed::Indexed;
pub use laws::{
    combinational_signals_have_one_driver, exactly_one_path_is_taken, made_values_come_from_reads,
    next_value_is_made, registers_have_one_driver, settled_value_is_made,
    settled_values_come_from_reads, taken_path_gives_next_value, taken_path_gives_value,
    valid_designs_are_noninterferent, valid_obligations_mean_noninterference,
    wanted_names_make_the_same,
};
pub use marked::Marked;
pub use names::names_of;
pub use pieces::is_some_of;
pub use queries::{Goal, PathStep, Query};
pub use std::alloc::AllocError as OutOfMemory;
pub use valuations::Valuation;
