//! Paths walked: the obligations of a design, found and listed; what an obligation is and what it
//! means stands in `sv_obl`.
//!
//! `obligations` takes an admitted design and gives exactly the list of the definition in its
//! order (`Obligations.antt` of `sv_obl`), or the first limit that the design exceeds
//! (`specs/Limits.antt`); each of them is one of the design's (`DesignQueries.antt` of `sv_obl`).
//! `check_limits` tells that limit alone, or how many obligations there are. `Listing` gives the
//! paths of one target after the other, and `TargetPaths` makes the obligations of these one by
//! one; so it gives the lines of `secv list` (`ListLines.antt`), and what is left to print after
//! some targets is told by `ListParts.antt`. No more is in memory than the paths of one target, and
//! an obligation or the lines of them. What a call answers to the limits `Answers.antt` says.
//!
//! Inside, `RouteObligations.antt` tells what a path is where no read is an earlier one (a route,
//! `Routes.antt` of `sv_obl`), `RouteViews.antt` ties routes to what is walked, `Driven.antt` paths
//! to the target whose they are, and `Written.antt` lines to what is written; those four are
//! private: they say how the code goes; the meaning stands in the files before.
//!
//! A body with earlier reads is walked in a second way: `PutIn.antt` tells what is put into an
//! expression and `Levels.antt` how deep it nests; `Trails.antt` tells its paths, of which no
//! expression is kept, `TrailViews.antt` ties them to what is walked and `TrailLines.antt` to their
//! lines; `Alongs.antt` tells how one path is walked once more along the arms that it took, where
//! its conditions are asked for, and `AlongViews.antt` ties that to what is walked. These seven are
//! private too.
#![tactic(auto)]

mod conditions;
mod exchange;
mod faults;
mod levels;
mod limits;
mod list_lines;
mod list_parts;
mod list_texts;
mod listing;
mod nodes;
mod path_lines;
mod path_names;
mod path_queries;
mod pieces;
mod reads;
mod routes;
mod selectors;
mod target_paths;
mod targets;
mod trail_lines;
mod trail_queries;
mod trail_walks;
mod trails;
mod walks;

pub use faults::OblFault;
pub use limits::check_limits;
pub use list_lines::list_line;
pub use list_parts::Listing;
pub use listing::obligations;
pub use std::alloc::AllocError as OutOfMemory;
pub use target_paths::TargetPaths;
