//! Elaboration: from a source tree to the flat design that it stands for, or to the first rule that
//! the walk of the tree breaks (IEEE 1364-2005, clause 12; SecVerilog, ASPLOS 2015).
//!
//! `elaborate` takes a text of the shape that the grammar gives, and answers as the walk of the
//! whole text ends (`sv_elab_rules`, `specs/Texts.antt` and the files below it): with the flat design
//! that the walk finds, which is sound (`sv_flat`, `specs/Soundness.antt`; `sv_elab_laws`), or with
//! the rule, place and names of the step that is broken first. It fails otherwise only where memory
//! runs out.
//!
//! On the way the lattice, the label maps, the names of modules, the top module and the instances
//! in it are built, each as that part of the walk ends. Expressions, statements and declarations
//! are the work of `sv_width`, `sv_elab_stmt` and `sv_elab_decl`.
//!
//! Of its own definitions callers read `specs/Modules.antt` alone. The others are private: they say
//! what the steps of the code have in hand, `specs/Earliest.antt` of names of points,
//! `specs/MapParts.antt` of label maps, `specs/Nests.antt` and `specs/Instances.antt` of instances,
//! `specs/Texts.antt` of modules; the meaning stands in `sv_elab_rules`.
#![tactic(auto)]

mod built;
mod instances;
mod lattices;
mod links;
mod lookups;
mod maps;
mod modules;
mod nests;
mod processes;
mod shared;
mod texts;
mod wrong_names;

pub use lattices::{Points, lattice};
pub use maps::label_maps;
pub use modules::{module_names, top_module};
pub use texts::{elaborate, has_few};
