//! The base of every layer: places in a text, names, rules, refusals, what is copied, and values of
//! a length and signedness with their operators.
//!
//! Takes bytes for names, and a length, a signedness and a number for values. Gives names that own
//! their bytes and compare by them, and what each operator makes of values; promises that this is
//! the value of the standard at every length up to 64 bits, signed and unsigned, and that the two
//! tables of operators are whole. A contract sees a [`Name`] as the list of its bytes, and
//! everything else here as its fields; a type that is [`Copied`] says in which form it is compared.
//!
//! `specs/Vectors.antt` says what values are, `Parts.antt` what their parts and extensions are,
//! `BinaryValues.antt` and `UnaryValues.antt` what the operators give, over whole numbers,
//! `OperatorTables.antt` which operators there are, `Rules.antt` which rules and limits, and
//! `Faults.antt` what a refusal says. None is private.
#![tactic(auto)]

mod binary;
mod copies;
mod faults;
mod low_bits;
mod names;
mod operator_tables;
mod operators;
mod parts;
mod rules;
mod unary;
mod vectors;

pub use binary::apply_binary;
pub use copies::Copied;
pub use faults::{Fault, Place, Refusal};
pub use names::Name;
pub use operator_tables::{BINARY, BinRow, UNARY, UnRow, find, find_unary, tables_are_whole};
pub use operators::{BinOp, OpClass, UnOp, class_of, gives_one_bit, is_division};
pub use parts::{concat, extend, slice};
pub use rules::Rule;
pub use std::alloc::AllocError as OutOfMemory;
pub use unary::apply_unary;
pub use vectors::Bits;
