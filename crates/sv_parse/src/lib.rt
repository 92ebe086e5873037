//! From tokens to the one text that they mean, or to the first rule of 201 to 204 that they break.
//!
//! `parse` promises the meaning in the words of `sv_ast` (`specs/GrammarRules.antt`: `TokensMean`,
//! `BreaksGrammar`). Below it each function promises what those of `sv_parse_expr` do.
//!
//! `specs/Faults.antt` says what the fault of a text says. `Reading.antt`,
//! `ReadingDeclarations.antt`, `ReadingItems.antt` and `ReadingTexts.antt` are private: they say
//! how reading goes; what it means stands in `sv_ast`.
#![tactic(auto)]

mod declarations;
mod instances;
mod items;
mod label_maps;
mod lattices;
mod modules;
mod parameters;
mod parser;
mod reader;
mod registers;
mod types;

pub use parser::parse;
pub use reader::read_text;
