// How much may still be read: levels, tokens of an expression.
ghost use Rattle.std.specs.Prelude.{◌≡◌, ◌+◌, ◌-◌, ◌<◌, ◌≤◌, ℕ, List, length, [], ◌∷◌, IfOk, IfErr};
ghost use Rattle.std.specs.Prelude.{OnOk, ◌⊎◌};
ghost use Rattle.sv_token.specs.Lexemes.{placed_tokens};
ghost use Rattle.sv_ast.specs.GrammarForms.{a_sign};
ghost use Rattle.sv_parse_machine.specs.Symbols.{Inner, inner};
ghost use Rattle.sv_parse_machine.specs.Reads.{Reads, NextTakes, Closes};
ghost use Rattle.sv_parse_expr.specs.Parses.{in_text, Stands, HaltsBy, TakesNoMemory};

use crate::cursor::expect_sign;
use crate::stop::{GrammarBreach, Stop};
use sv_token::{SignKind, Token};

/// How many levels may be open at once.
pub(crate) const MOST_LEVELS: usize = 64;

/// How many tokens an expression may have.
pub const MOST_TOKENS: usize = 1024;

/// How many arms a case may have.
pub const MOST_ARMS: usize = 256;

/// The number of open levels behind the first token that is left, which begins one.
pub fn deeper(levels: usize, tokens: &[Token]) -> Result<usize, Stop>
    ensures is { IfOk result (λ inside. inside ≡ levels + 1) }
    ensures within { IfOk result (λ inside. inside ≤ 64) }
    ensures stops { IfErr result (λ e. e ≡ Stop.Broken GrammarBreach.TooDeep (length tokens.now)) }
    ensures deep { IfErr result (λ e. 64 < levels + 1) }
{
    if levels < MOST_LEVELS {
        Ok(levels + 1)
    } else {
        Err(Stop::Broken(GrammarBreach::TooDeep, tokens.len()))
    }
}

/// How many levels are open, and how many tokens at the end of the text the expression cannot
/// reach.
#[derive(Clone, Copy)]
pub struct Room {
    pub levels: usize,
    pub beyond: usize,
}

impl Room {
    /// For an expression that begins at these tokens and stands in no other one.
    pub fn of(levels: usize, tokens: &[Token]) -> Room
        ensures levels { result.levels ≡ levels }
        ensures beyond { result.beyond ≡ length tokens.now - 1024 }
    {
        Room {
            levels,
            beyond: tokens.len().saturating_sub(MOST_TOKENS),
        }
    }

    /// For no token at all.
    pub fn none(levels: usize, tokens: &[Token]) -> Room
        ensures levels { result.levels ≡ levels }
        ensures beyond { result.beyond ≡ length tokens.now }
    {
        Room {
            levels,
            beyond: tokens.len(),
        }
    }

    /// Nothing, where the first token that is left may still belong to the expression.
    pub fn count(self, tokens: &[Token]) -> Result<(), Stop>
        ensures counted { OnOk result (self.beyond < length tokens.now) }
        ensures stops { IfErr result
            (λ e. e ≡ Stop.Broken GrammarBreach.TooLong (length tokens.now)) }
        ensures long { IfErr result (λ e. length tokens.now ≤ self.beyond) }
        ensures halts { (bytes : List ℕ) (start : ℕ) (s : Inner) (xs : List Inner) →
            self.beyond ≡ start - 1024 → NextTakes s 0 xs (placed_tokens bytes tokens.now) →
            HaltsBy result (in_text bytes tokens.now) (inner start s ∷ []) }
    {
        if self.beyond < tokens.len() {
            Ok(())
        } else {
            Err(Stop::Broken(GrammarBreach::TooLong, tokens.len()))
        }
    }

    /// The room behind the first token that is left, which belongs to the expression and begins a
    /// level.
    pub fn opened(self, tokens: &[Token]) -> Result<Room, Stop>
        ensures levels { IfOk result (λ room. room.levels ≡ self.levels + 1) }
        ensures beyond { IfOk result (λ room. room.beyond ≡ self.beyond) }
        ensures within { IfOk result (λ room. room.levels ≤ 64) }
        ensures counted { OnOk result (self.beyond < length tokens.now) }
        ensures stops { IfErr result (λ e.
            ((64 < self.levels + 1) × (e ≡ Stop.Broken GrammarBreach.TooDeep (length tokens.now)))
            ⊎ ((self.levels + 1 ≤ 64) × (length tokens.now ≤ self.beyond)
            × (e ≡ Stop.Broken GrammarBreach.TooLong (length tokens.now)))) }
        ensures halts { (bytes : List ℕ) (start : ℕ) (s : Inner) (xs : List Inner) →
            self.beyond ≡ start - 1024 →
            NextTakes s (self.levels + 1) xs (placed_tokens bytes tokens.now) →
            HaltsBy result (in_text bytes tokens.now) (inner start s ∷ []) }
        ensures memory { TakesNoMemory result }
    {
        let levels = deeper(self.levels, tokens)?;
        self.count(tokens)?;
        Ok(Room {
            levels,
            beyond: self.beyond,
        })
    }

    /// The tokens behind this punctuation of the expression, which has to come.
    pub fn expect(self, sign: SignKind, tokens: &[Token]) -> Result<&[Token], Stop>
        ensures is { (bytes : List ℕ) →
            IfOk result (λ rest. Stands (a_sign sign) (in_text bytes tokens.now) rest.now) }
        ensures one { IfOk result (λ rest. length tokens.now ≡ length rest.now + 1) }
        ensures counted { IfOk result (λ rest. self.beyond ≤ length rest.now) }
        ensures reads { (bytes : List ℕ) (start : ℕ) (s : Inner) → self.beyond ≡ start - 1024 →
            Closes sign s → IfOk result (λ rest.
            Reads (inner start s ∷ []) [] (placed_tokens bytes tokens.now)
            (placed_tokens bytes rest.now)) }
        ensures halts { (bytes : List ℕ) (start : ℕ) (s : Inner) → self.beyond ≡ start - 1024 →
            Closes sign s →
            HaltsBy result (in_text bytes tokens.now) (inner start s ∷ []) }
        ensures memory { TakesNoMemory result }
    {
        let rest = expect_sign(sign, tokens)?;
        self.count(tokens)?;
        Ok(rest)
    }
}
