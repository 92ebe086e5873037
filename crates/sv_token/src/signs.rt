// Signs: operators and punctuation.

/// An operator by the rows of its spelling in the operator tables (`sv_num::BINARY`,
/// `sv_num::UNARY`), counted from 0. At least one of the rows is there; both are where the spelling
/// stands between operands as well as before one, as `-`.
#[derive(Clone, Copy, Debug, PartialEq, Eq)]
pub struct Operator {
    /// The row among the binary operators.
    pub binary: Option<u8>,
    /// The row among the unary operators.
    pub unary: Option<u8>,
}

/// A sign (IEEE 1364-2005, clause 3).
#[derive(Clone, Copy, Debug, PartialEq, Eq)]
pub enum SignKind {
    /// A spelling of the operator tables. `<=` is one, also where it assigns.
    Operator(Operator),
    /// `?`
    Question,
    /// `:`
    Colon,
    /// `;`
    Semicolon,
    /// `,`
    Comma,
    /// `.`
    Dot,
    /// `(`
    OpenParenthesis,
    /// `)`
    CloseParenthesis,
    /// `[`
    OpenBracket,
    /// `]`
    CloseBracket,
    /// `{`
    OpenBrace,
    /// `}`
    CloseBrace,
    /// `=`
    Equals,
    /// `#`
    Hash,
    /// `@`
    At,
}
