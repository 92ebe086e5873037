//! The outside of the checker: files by name, an input and an output, each as a trait that says
//! what an object holds and how often it failed, with objects in memory and over the real system.
//!
//! A [`Cabinet`] fetches the bytes under a name and stores bytes under one, a [`Source`] gives the
//! next bytes of an input, and a [`Sink`] accepts those of an output; each takes its memory from
//! the caller. Each promises which bytes passed, on failure too, and that it counts its failures.
//! The types in memory tell what they hold besides; of the real system nothing is promised but
//! what passed.
//!
//! What a cabinet holds and what passes it is said in `specs/Cabinet.antt` and `Exchange.antt`,
//! what a source gives before its end in `Source.antt`, what a sink accepts in `Sink.antt`, and
//! that a count rose in `Count.antt`. `Mem.antt`, `Sure.antt`, `Large.antt` and `System.antt` name
//! what the objects remember, over `Files.antt`, and `Repeated.antt` what a repeated line is.
//! `Called.antt` and `ExchangeCode.antt` are private: they say how the code goes; the meaning stands
//! in the files before.
#![tactic(auto)]

mod calls;
mod faults;
mod files;
mod history;
mod large;
mod mem;
mod pieces;
mod sure;
mod system;
mod traits;

pub use faults::{Failed, FetchFault, PutFault, StoreFault};
pub use large::{RepeatSource, TallySink};
pub use mem::{MemCabinet, MemSink, MemSource};
pub use std::alloc::AllocError as OutOfMemory;
pub use sure::{SureCabinet, SureSink, SureSource};
pub use system::{FileCabinet, StdSink, StdSource};
pub use traits::{Cabinet, Sink, Source, put_all};
