// What is read from, why reading stops, and where.
ghost use Rattle.std.specs.Prelude.{◌≡◌};
ghost use Rattle.sv_parse_expr.specs.declared.stop.Stop.TheVariants.{OutOfMemory};

use std::alloc::{AllocError, AllocFailed};
use sv_token::Token;

/// What may begin at a token with which no text goes on.
#[derive(Clone, Copy, Debug, PartialEq, Eq)]
pub enum Expected {
    /// None of the others.
    Something,
    /// An item of a module.
    Item,
    /// A statement.
    Statement,
    /// The edge of a clock.
    Edge,
    /// The first port.
    Port,
    /// What stands behind a name that is an operand.
    BehindName,
}

/// How a token breaks a rule on the grammar.
#[derive(Clone, Copy, Debug, PartialEq, Eq)]
pub enum GrammarBreach {
    /// No text goes on with it.
    Stuck(Expected),
    /// It begins a level too many.
    TooDeep,
    /// It is one too many of an expression, or begins an arm too many of a `case`.
    TooLong,
}

/// Why reading stops.
#[derive(Clone, Copy, Debug, PartialEq, Eq)]
pub enum Stop {
    /// A rule is broken at the first of the tokens that are left, of which there are so many; or at
    /// the end, where there are none.
    Broken(GrammarBreach, usize),
    /// The allocator gave out no more memory.
    OutOfMemory,
}

/// A text, with those of its tokens that are left to read. A reader gives back the tokens behind
/// what it read, and not an input: so none has to promise that the text stays the same.
#[derive(Clone, Copy)]
pub struct Input<'a> {
    pub bytes: &'a [u8],
    pub rest: &'a [Token],
}

/// What is read, and the tokens behind it; or why reading stops.
pub type Read<'a, T> = Result<(T, &'a [Token]), Stop>;

impl From<AllocError> for Stop {
    ghost from_gives = { λ _ stop. stop ≡ OutOfMemory };

    fn from(_error: AllocError) -> Stop {
        Stop::OutOfMemory
    }
}

impl<T: Drop> From<AllocFailed<T>> for Stop {
    ghost from_gives = { λ _ stop. stop ≡ OutOfMemory };

    fn from(_error: AllocFailed<T>) -> Stop {
        Stop::OutOfMemory
    }
}
