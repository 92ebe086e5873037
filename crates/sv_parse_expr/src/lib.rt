//! From tokens to expressions, and to the fault that a text has where reading stops.
//!
//! What tokens mean is said in `sv_ast` (`specs/GrammarExpressions.antt` and the files beside it),
//! and the machine of the grammar in `sv_parse_machine`. A function that reads is handed an
//! `Input`, a text with the tokens of it that are left, or these tokens alone, and gives back those
//! behind. Each that reads an expression, a list, a name or a number promises four things: what it
//! gives back is a tree of the grammar's form, of the tokens from those that it is handed to those
//! that it gives back (`is`); fewer tokens are left, or no more (`shorter`), or one fewer (`one`);
//! the machine does the same on these tokens (`reads`); and where it stops at a token, the machine
//! fails there and in the same way (`halts`). `specs/Parses.antt` has words for each. Where a
//! function only looks for a token, it says that the token comes (`is`) or that it does not
//! (`none`). The crates above read statements and modules by these functions.
//!
//! `Faults.antt` says what the fault of tokens says. `Reading.antt`, `Parses.antt` and
//! `Expectations.antt` are private: they say how reading goes; what it means stands in `sv_ast`.
#![tactic(auto)]

pub mod cursor;
pub mod expressions;
pub mod faults;
mod forms;
pub mod lists;
mod nodes;
pub mod operators;
mod refused_words;
pub mod room;
pub mod stop;
