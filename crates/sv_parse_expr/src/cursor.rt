// Single tokens, read from the front of those that are left.
ghost use Rattle.std.specs.Prelude.{◌≡◌, ◌+◌, ℕ, List, length, true, false, IfOk, [], ◌∷◌, IfErr};
ghost use Rattle.std.specs.Prelude.{IfSome, IfNone};
ghost use Rattle.sv_token.specs.Lexemes.{placed_tokens, literal_of, between};
ghost use Rattle.sv_ast.specs.GrammarForms.{sign_at, word_at, name_at, number_at, a_sign, a_word};
ghost use Rattle.sv_ast.specs.GrammarStatements.{IsNext};
ghost use Rattle.sv_parse_machine.specs.StatementTable.{is_sign};
ghost use Rattle.sv_parse_machine.specs.Symbols.{punctuation, plain_name, plain_number};
ghost use Rattle.sv_parse_machine.specs.Reads.{NextIsNotSign, NextIsNotWord, NextIsNoName};
ghost use Rattle.sv_parse_machine.specs.Reads.{NextIsNoNumber};
ghost use Rattle.sv_parse_expr.specs.Expectations.{StopsAt};
ghost use Rattle.sv_parse_expr.specs.Parses.{placed, in_text, Stands, Comes, GivesAs, HaltsOn};
ghost use Rattle.sv_parse_expr.specs.Parses.{TakesNoMemory};

use crate::refused_words::is_refused;
use crate::stop::{Expected, GrammarBreach, Input, Read, Stop};
use std::alloc::Global;
use sv_num::{Name, Place};
use sv_token::{Lit, SignKind, Token, TokenKind, WordKind};

/// The stop that says that no text goes on with the first token that is left.
pub fn stuck(expected: Expected, tokens: &[Token]) -> Stop
    ensures { result ≡ Stop.Broken (GrammarBreach.Stuck expected) (length tokens.now) }
{
    Stop::Broken(GrammarBreach::Stuck(expected), tokens.len())
}

/// The stop at the first token that is left, where nothing may begin that a form which is left out
/// could stand for.
pub fn unexpected(tokens: &[Token]) -> Stop
    ensures { result ≡ Stop.Broken (GrammarBreach.Stuck Expected.Something) (length tokens.now) }
{
    stuck(Expected::Something, tokens)
}

// Whether the token is this sign.
fn is_sign(kind: TokenKind, sign: SignKind) -> bool
    ensures is { result ≡ true → kind ≡ TokenKind.Sign sign }
    ensures other { result ≡ false → kind ≡ TokenKind.Sign sign → ⊥ }
{
    kind == TokenKind::Sign(sign)
}

fn is_word(kind: TokenKind, word: WordKind) -> bool
    ensures is { result ≡ true → kind ≡ TokenKind.Word word }
    ensures other { result ≡ false → kind ≡ TokenKind.Word word → ⊥ }
{
    kind == TokenKind::Word(word)
}

/// The place of this punctuation and the tokens behind it, if it comes.
pub fn sign_at(sign: SignKind, tokens: &[Token]) -> Option<(Place, &[Token])>
    ensures is { (bytes : List ℕ) →
        IfSome result (λ x. Stands (sign_at sign x.0) (in_text bytes tokens.now) x.1.now) }
    ensures one { IfSome result (λ x. length tokens.now ≡ length x.1.now + 1) }
    ensures none { (bytes : List ℕ) →
        IfNone result (NextIsNotSign sign (placed_tokens bytes tokens.now)) }
{
    match tokens {
        [first, rest @ ..] if is_sign(first.kind, sign) => Some((first.place, rest)),
        _ => None,
    }
}

/// The place of this word and the tokens behind it, if it comes.
pub fn word_at(word: WordKind, tokens: &[Token]) -> Option<(Place, &[Token])>
    ensures is { (bytes : List ℕ) →
        IfSome result (λ x. Stands (word_at word x.0) (in_text bytes tokens.now) x.1.now) }
    ensures one { IfSome result (λ x. length tokens.now ≡ length x.1.now + 1) }
    ensures other { (bytes : List ℕ) →
        IfNone result (IsNext word (placed_tokens bytes tokens.now) → ⊥) }
    ensures none { (bytes : List ℕ) →
        IfNone result (NextIsNotWord word (placed_tokens bytes tokens.now)) }
{
    match tokens {
        [first, rest @ ..] if is_word(first.kind, word) => Some((first.place, rest)),
        _ => None,
    }
}

/// The tokens behind this punctuation, if it comes.
pub fn behind(sign: SignKind, tokens: &[Token]) -> Option<&[Token]>
    ensures is { (bytes : List ℕ) →
        IfSome result (λ rest. Stands (a_sign sign) (in_text bytes tokens.now) rest.now) }
    ensures one { IfSome result (λ rest. length tokens.now ≡ length rest.now + 1) }
    ensures none { (bytes : List ℕ) →
        IfNone result (NextIsNotSign sign (placed_tokens bytes tokens.now)) }
{
    let (_place, rest) = sign_at(sign, tokens)?;
    Some(rest)
}

/// The tokens behind this word, if it comes.
pub fn behind_word(word: WordKind, tokens: &[Token]) -> Option<&[Token]>
    ensures is { (bytes : List ℕ) →
        IfSome result (λ rest. Stands (a_word word) (in_text bytes tokens.now) rest.now) }
    ensures one { IfSome result (λ rest. length tokens.now ≡ length rest.now + 1) }
    ensures other { (bytes : List ℕ) →
        IfNone result (IsNext word (placed_tokens bytes tokens.now) → ⊥) }
    ensures none { (bytes : List ℕ) →
        IfNone result (NextIsNotWord word (placed_tokens bytes tokens.now)) }
{
    let (_place, rest) = word_at(word, tokens)?;
    Some(rest)
}

/// The tokens behind this punctuation, which has to come.
pub fn expect_sign(sign: SignKind, tokens: &[Token]) -> Result<&[Token], Stop>
    ensures is { (bytes : List ℕ) →
        IfOk result (λ rest. Stands (a_sign sign) (in_text bytes tokens.now) rest.now) }
    ensures one { IfOk result (λ rest. length tokens.now ≡ length rest.now + 1) }
    ensures stops { (bytes : List ℕ) →
        IfErr result (λ e. StopsAt tokens.now
        (NextIsNotSign sign (placed_tokens bytes tokens.now)) e) }
    ensures reads { (bytes : List ℕ) → is_sign sign sign ≡ true →
        IfOk result (λ rest. Comes (punctuation sign ∷ []) [] (in_text bytes tokens.now) rest.now) }
    ensures halts { (bytes : List ℕ) →
        HaltsOn result (in_text bytes tokens.now) (punctuation sign ∷ []) }
    ensures memory { TakesNoMemory result }
{
    match behind(sign, tokens) {
        Some(rest) => Ok(rest),
        None => Err(unexpected(tokens)),
    }
}

/// The place of this word, which has to come, and the tokens behind it.
pub fn expect_word(word: WordKind, tokens: &[Token]) -> Read<'_, Place>
    ensures is { (bytes : List ℕ) → GivesAs result (in_text bytes tokens.now) (word_at word) }
    ensures one { IfOk result (λ x. length tokens.now ≡ length x.1.now + 1) }
    ensures stops { (bytes : List ℕ) →
        IfErr result (λ e. StopsAt tokens.now
        (NextIsNotWord word (placed_tokens bytes tokens.now)) e) }
    ensures memory { TakesNoMemory result }
{
    match word_at(word, tokens) {
        Some(found) => Ok(found),
        None => Err(unexpected(tokens)),
    }
}

/// A number with its place, which has to come, and the tokens behind it.
pub fn read_number(tokens: &[Token]) -> Result<(Lit, Place, &[Token]), Stop>
    ensures is { (bytes : List ℕ) →
        IfOk result (λ x.
        Stands (number_at (literal_of x.0) x.1) (in_text bytes tokens.now) x.2.now) }
    ensures one { IfOk result (λ x. length tokens.now ≡ length x.2.now + 1) }
    ensures stops { (bytes : List ℕ) →
        IfErr result (λ e. StopsAt tokens.now (NextIsNoNumber (placed_tokens bytes tokens.now)) e) }
    ensures reads { (bytes : List ℕ) →
        IfOk result (λ x. Comes (plain_number ∷ []) [] (in_text bytes tokens.now) x.2.now) }
    ensures halts { (bytes : List ℕ) →
        HaltsOn result (in_text bytes tokens.now) (plain_number ∷ []) }
    ensures memory { TakesNoMemory result }
{
    match tokens {
        [first, rest @ ..] => match first.kind {
            TokenKind::Number(value) => Ok((value, first.place, rest)),
            _ => Err(unexpected(tokens)),
        },
        [] => Err(unexpected(tokens)),
    }
}

/// The bytes of a token. A range past the end is cut off there.
pub fn text_of(bytes: &[u8], token: Token) -> &[u8]
    ensures { result.now ≡ between token.start token.«end» bytes.now }
{
    let end = token.end.min(bytes.len());
    let start = token.start.min(end);
    &bytes[start..end]
}

/// A name with its place, which has to come, and the tokens behind it.
pub fn read_name<'a>(alloc: Global, input: Input<'a>) -> Result<(Name, Place, &'a [Token]), Stop>
    ensures is { IfOk result (λ x. Stands (name_at x.0 x.1) input.entry x.2.now) }
    ensures one { IfOk result (λ x. length input.entry.rest.now ≡ length x.2.now + 1) }
    ensures stops { IfErr result (λ e.
        StopsAt input.entry.rest.now (NextIsNoName (placed input.entry)) e) }
    ensures reads { IfOk result (λ x. Comes (plain_name ∷ []) [] input.entry x.2.now) }
    ensures halts { HaltsOn result input.entry (plain_name ∷ []) }
{
    let tokens = input.rest;
    match tokens {
        [first, rest @ ..] if first.kind == TokenKind::Name => {
            let text = text_of(input.bytes, *first);
            if is_refused(text) {
                Err(unexpected(tokens))
            } else {
                Ok((Name::new(alloc, text)?, first.place, rest))
            }
        }
        _ => Err(unexpected(tokens)),
    }
}
