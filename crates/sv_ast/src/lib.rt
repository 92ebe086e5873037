//! The trees of source texts, in the form that the grammar gives them, and what texts mean.
//!
//! Takes nothing: it has the types of trees, their copies, and whether a tree is shaped. Promises
//! that a copy is equal, that the shape is told exactly, and that a text that means a tree breaks
//! no rule of syntax. A contract sees a tree by its plain form (`specs/Tree.antt`), as `text_tree`
//! and the other functions of `Views.antt` give it.
//!
//! `Shape.antt` says which trees the grammar gives. What tokens mean, and where they break rules
//! 201 to 204, is said in `GrammarRules.antt` over `GrammarForms.antt`, `GrammarGroups.antt`,
//! `GrammarExpressions.antt`, `GrammarStatements.antt`, `GrammarDeclarations.antt` and
//! `GrammarModules.antt`, and of bytes in `GrammarMeaning.antt`. What a text means as a cycle
//! system is said in `Meaning.antt`, and with no value of a clock in `TextSystem.antt`;
//! `Scopes.antt`, `Instances.antt`, `Parts.antt` and `ClockPaths.antt` say what stands in an
//! instance, `Values.antt`, `Runs.antt` and `Processes.antt` what it does, `SourceLabels.antt` and
//! `Reach.antt` what its labels are. None is private.
#![tactic(auto)]

mod declarations;
mod expressions;
mod laws;
mod modules;
mod shapes;
mod statements;

pub use declarations::{Decl, DeclKind, LabelText, MemLabel, Memory, Param, Span};
pub use expressions::Expr;
pub use laws::{meanings_break_no_rule, syntax_is_broken_once};
pub use modules::{Instance, Item, LatticeText, Links, MapText, Module, Overrides, Text};
pub use statements::{Arm, Select, Stmt, Target};
pub use std::alloc::AllocError as OutOfMemory;
