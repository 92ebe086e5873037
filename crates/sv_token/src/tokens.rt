// Tokens.
use crate::keywords::WordKind;
use crate::signs::SignKind;
use sv_num::{Bits, Place};

/// A number of the text (IEEE 1364-2005, clause 3.5): its value at its length and signedness, and
/// whether the length was written.
#[derive(Clone, Copy, Debug, PartialEq, Eq)]
pub struct Lit {
    pub bits: Bits,
    /// Whether the text gives the length. Without one a number has 32 bits.
    pub sized: bool,
}

/// What a token is.
#[derive(Clone, Copy, Debug, PartialEq, Eq)]
pub enum TokenKind {
    /// A word of the grammar.
    Word(WordKind),
    /// An identifier; its bytes are those of the token's span.
    Name,
    /// A number.
    Number(Lit),
    /// An operator or punctuation.
    Sign(SignKind),
}

/// A token: its kind, its bytes as `start..end` of the text, and the place of its first byte.
#[derive(Clone, Copy, Debug, PartialEq, Eq)]
pub struct Token {
    pub kind: TokenKind,
    pub start: usize,
    pub end: usize,
    pub place: Place,
}
