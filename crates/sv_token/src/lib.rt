//! Tokens: what a text is made of, without its blanks, comments and skipped lines.
//!
//! `lex` takes the bytes of a text. It gives the tokens, each as plain data: its kind, the bytes
//! that it spans and its place; or the first place where the text breaks a rule on tokens, with the
//! rule and its word. Promises that each text has one such list or one such place, never both
//! ([`bytes_have_tokens_or_break_a_rule`]), and that this is it.
//!
//! `specs/Tokens.antt` says what tokens a text has and where it breaks a rule, over `Bytes.antt`,
//! `Fronts.antt`, `Gaps.antt`, `Words.antt`, `Numerals.antt` and `Signs.antt`; `Lexemes.antt` is
//! how definitions see a token, `Spans.antt` where tokens stand, and `Faults.antt` what a fault of
//! `lex` says. `Views.antt` and `Lexed.antt` are private: they say how the code goes; the meaning
//! stands in the files before.
#![tactic(auto)]

mod bytes;
mod fronts;
mod gaps;
mod keywords;
mod laws;
mod lexer;
mod numerals;
mod operators;
mod signs;
mod tokens;
mod words;

pub use keywords::WordKind;
pub use laws::bytes_have_tokens_or_break_a_rule;
pub use lexer::{lex, next_place};
pub use signs::{Operator, SignKind};
pub use tokens::{Lit, Token, TokenKind};
