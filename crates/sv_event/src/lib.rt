//! Simulation of an admitted design by any order of its processes.
//!
//! Takes a design of `sv_design`. Gives an environment whose combinational processes are run one by
//! one, by a list, or in drawn rounds, and whose clocked processes are run in any order. Only `new`
//! takes memory.
//!
//! Promises that each call does what `sv_flat/specs/Schedules.antt` says of it, that every list of
//! runs after which no run would change anything has come to the one settled environment, as every
//! list of enough rounds has, and that all orders of the clocked processes give the registers the
//! same values. `specs/Events.antt` says what a contract sees, and `Rests.antt` where lists of
//! numbers end.
//!
//! `Places.antt` and `Seen.antt` are private: they say how the code goes; the meaning stands in the
//! files before.
#![tactic(auto)]

mod draws;
mod event;
mod laws;
mod orders;
mod places;
mod rounds;
mod runs;
mod ticks;

pub use event::Event;
pub use laws::{
    cycle_orders_are_orders, numbered_rounds_settle, quiet_is_settled, rest_is_settled,
    rounds_settle,
};
pub use std::alloc::AllocError as OutOfMemory;
