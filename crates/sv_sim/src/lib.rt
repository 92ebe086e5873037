//! Simulation of an admitted design, cycle by cycle.
//!
//! Takes a design of `sv_design`. Gives a simulation, which holds a value for each signal, and
//! settles them, and makes the clock edge. Only `new` takes memory. For layers that hold values
//! themselves it gives steps of this: whether a value fits, giving values to listed signals, and
//! what one process does, at once or at a clock edge.
//!
//! Promises that after `settle` the values are the one settled environment of the registers and
//! the inputs, and that `tick` gives each register its next value, as `sv_system/specs/System.antt`
//! says it of the system in `sv_flat/specs/FlatSystem.antt`; and that each fitting start and list
//! of inputs of an admitted design has exactly one trace. `Simulations.antt` says what a contract
//! sees of a simulation; how values are given to signals stands in `sv_flat`. `Settling.antt` is
//! private: it says how settling and the edge go; the meaning stands in the files before.
//!
//! Settling goes by a plan of the combinational signals, which `new` makes. `drafts`, over the
//! graphs and the queue of `sv_graph`, promises no more than to end safely: whether a draft is a
//! plan is asked of it, and the order by depth stands in for one that is none. Only the time that
//! settling takes hangs on the draft.
#![tactic(auto)]

mod drafts;
mod edges;
mod laws;
mod listed;
mod plans;
mod settling;
mod sim;

pub use edges::update_at;
pub use laws::admitted_designs_have_one_trace;
pub use listed::{has_room, put_listed};
pub use settling::run_at;
pub use sim::Sim;
pub use std::alloc::AllocError as OutOfMemory;
