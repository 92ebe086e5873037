//! Graphs over the numbers below a count: sets, searches, orders and components of them.
//!
//! Takes graphs whose nodes are signals, of which nothing but their numbers counts. It has a graph
//! by lists (`Graph`) and one by bits (`BitGraph`), which can be turned round, searched, closed,
//! and composed with the paths of another; sets of bits by number (`BitSet`), tables of marks, an
//! order by what is still open (`Queue`), and at which numbers circles of edges can begin
//! (`begins_of`).
//!
//! Promises that a search finds the least set with its starts that edges do not lead out of
//! (`Sets.antt` of `sv_flat`), that a closed graph has an edge for each path and no other, and that
//! each set, table and list has what its definition says, and no more but for the table of
//! `begins_of`. Nothing here knows of a design: the layers above say what its numbers and edges
//! stand for. `Numbers.antt` has the words for signals by their numbers.
//!
//! `BitGraphs.antt`, `BitSets.antt`, `Graphs.antt`, `Marks.antt`, `Nests.antt`, `Queues.antt` and
//! `Searches.antt` are private: they say how the code goes; the meaning stands in the definitions
//! that the layers above prove by it. `components` and `nests` promise no more than to end safely:
//! what is read off an order is right in any order.
#![tactic(auto)]

mod begins;
mod bit_graphs;
mod bit_sets;
mod components;
mod graphs;
mod lists;
mod marks;
mod nests;
mod queues;
mod searches;

pub use begins::begins_of;
pub use bit_graphs::{BitGraph, row_of};
pub use bit_sets::{BitSet, lacks, mask, share};
pub use graphs::Graph;
pub use lists::{listed, push_if};
pub use marks::{has_mark, mark};
pub use queues::Queue;
pub use searches::{Search, Visit, reached, search_from};
pub use std::alloc::AllocError as OutOfMemory;
