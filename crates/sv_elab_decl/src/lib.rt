//! Declarations, labels and overrides of one instance (IEEE 1364-2005, clauses 4.2, 4.10 and 12.2;
//! SecVerilog, ASPLOS 2015).
//!
//! Each call takes a part of a module and answers as that part of the walk ends: with what it
//! found, or with the first rule that is broken (`sv_elab_rules`, `specs/Declarations.antt`,
//! `specs/LabelSteps.antt` and `specs/Overrides.antt`).
//!
//! `specs/Sites.antt` says what an instance and its declarations are as the walk has them,
//! `Steps.antt` how a call answers, `Overridden.antt` what an instance sets. `Ranges.antt` and
//! `Selectors.antt` are private: they say how the code goes; the meaning stands in those files of
//! `sv_elab_rules`.
#![tactic(auto)]

mod declarations;
mod labelling;
mod overriding;
mod parameters;
mod ranges;
mod signals;
mod sites;

pub use declarations::{body, header};
pub use labelling::labels;
pub use overriding::overrides;
pub use sites::{Declared, Header, Site, TextTables};
