//! Lattices of labels, and label maps.
//!
//! Takes a number of points and pairs of them, or the ranges and rows of a map. Gives a lattice
//! exactly where the pairs make one, or else the first fault, and promises that one point flows to
//! another where a list of points leads from the first to the second by declared pairs. A label is
//! a point, or the row of a map at the value of one signal or of a pair.
//!
//! `specs/Flows.antt` says what flows and what a lattice is, `Maps.antt` what a map is, and
//! `Labels.antt` what a label is at given values. A contract sees a built lattice as its table
//! (`Tables.antt`): for each point, the set of the points that it flows to. None is private.
#![tactic(auto)]

mod bounds;
mod flow_table;
mod labels;
mod lattices;
mod points;

pub use labels::{Label, LabelMap, label_at};
pub use lattices::Lattice;
pub use points::{LatticeFault, Point};
pub use std::alloc::AllocError as OutOfMemory;
