//! A machine that follows the grammar token by token, and the laws that tokens mean a text or break
//! a rule, and mean at most one.
//!
//! What tokens mean, and where they break which rule of 201 to 204, is said in `sv_ast`:
//! `specs/GrammarRules.antt` and the other files of the grammar. Here stands a machine on a stack
//! of symbols (`specs/Symbols.antt` and `Machine.antt`, over `ExpressionTable.antt`,
//! `StatementTable.antt` and `ModuleTable.antt`), which tells a broken rule as `Verdict.antt` says;
//! that it follows the grammar exactly is proved. What reads tokens says by `Reads.antt` how far it
//! has followed the machine.
//!
//! All these files in `specs/` are private: they say how reading goes; what it means stands in
//! `sv_ast`.
#![tactic(auto)]

mod laws;

pub use laws::{
    bytes_mean_a_text_or_break_one_rule, tokens_break_one_rule, tokens_mean_a_text_or_break_a_rule,
    tokens_mean_at_most_one_text, tokens_that_mean_a_text_break_no_rule,
    what_tokens_mean_is_shaped,
};
