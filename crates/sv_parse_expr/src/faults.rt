// From a stop to the refusal of the text.
ghost use Rattle.std.specs.Prelude.{◌≡◌, ◌+◌, ◌-◌, ◌<◌, ◌≤◌, ◌^◌, ℕ, List, [], ◌∷◌, length, take};
ghost use Rattle.std.specs.Prelude.{drop, IfOk};
ghost use Rattle.sv_num.specs.Faults.{Refuses};
ghost use Rattle.sv_num.specs.Rules.{rule_number};
ghost use Rattle.sv_token.specs.Lexemes.{placed_tokens};
ghost use Rattle.sv_token.specs.Tokens.{next_place};
ghost use Rattle.sv_ast.specs.GrammarMeaning.{end_place};
ghost use Rattle.sv_parse_machine.specs.Machine.{stuck_at};
ghost use Rattle.sv_parse_expr.specs.Expectations.{expected_of, failure_of, RefusesAt};

use crate::forms::word_at;
use crate::stop::{Expected, GrammarBreach};
use std::alloc::{AllocError, Global};
use sv_num::{Fault, Name, Place, Rule};
use sv_token::{Token, next_place};

// The place behind the last byte.
fn end_place(bytes: &[u8]) -> Place
    requires { length bytes.now < 2 ^ 32 - 1 }
    ensures { result ≡ end_place bytes.now }
{
    let mut place = Place { line: 1, column: 1 };
    for byte in bytes {
        place = next_place(place, *byte);
    }
    place
}

// The fault of a text in which a form that is left out stands.
fn unsupported(alloc: Global, place: Place, word: &[u8]) -> Result<Fault, AllocError>
    ensures { IfOk result (λ fault. Refuses fault 202 place (word.now ∷ [])) }
{
    let name = Name::new(alloc, word)?;
    Ok(Fault::broken(Rule::UnsupportedWord, place, vec![in alloc; name]?))
}

// The fault of a text that breaks the rule at a place, without names.
fn nameless(alloc: Global, rule: Rule, place: Place) -> Fault
    ensures { Refuses result (rule_number rule) place [] }
{
    Fault::broken(rule, place, Vec::new(alloc))
}

// The fault of a text where no text goes on with the token that stands between the others.
fn stuck_at(
    alloc: Global,
    bytes: &[u8],
    expected: Expected,
    before: &[Token],
    token: Token,
    after: &[Token],
) -> Result<Fault, AllocError>
    ensures { IfOk result (λ fault.
        RefusesAt fault (stuck_at (expected_of expected)) (end_place bytes.now)
        (placed_tokens bytes.now before.now) (placed_tokens bytes.now (token ∷ after.now))) }
{
    match word_at(bytes, expected, before, token, after) {
        Some(word) => unsupported(alloc, token.place, word),
        None => Ok(nameless(alloc, Rule::Unexpected, token.place)),
    }
}

// The fault of a text in which the token, between the others, breaks a rule.
fn broken_at(
    alloc: Global,
    bytes: &[u8],
    breach: GrammarBreach,
    before: &[Token],
    token: Token,
    after: &[Token],
) -> Result<Fault, AllocError>
    ensures { IfOk result (λ fault.
        RefusesAt fault (failure_of breach) (end_place bytes.now)
        (placed_tokens bytes.now before.now) (placed_tokens bytes.now (token ∷ after.now))) }
{
    match breach {
        GrammarBreach::Stuck(expected) => stuck_at(alloc, bytes, expected, before, token, after),
        GrammarBreach::TooDeep => Ok(nameless(alloc, Rule::TooDeep, token.place)),
        GrammarBreach::TooLong => Ok(nameless(alloc, Rule::TooLong, token.place)),
    }
}

/// The fault of a text with these tokens, of which so many are left where a rule is broken: of the
/// rule, with its names, and at the place of the first token that is left; or of rule 201 at the
/// end of the text, where none is left. It fails where memory runs out.
pub fn broken(
    alloc: Global,
    bytes: &[u8],
    tokens: &[Token],
    breach: GrammarBreach,
    left: usize,
) -> Result<Fault, AllocError>
    requires { length bytes.now < 2 ^ 32 - 1 }
    ensures { IfOk result (λ fault.
        RefusesAt fault (failure_of breach) (end_place bytes.now)
        (placed_tokens bytes.now (take (length tokens.now - left) tokens.now))
        (placed_tokens bytes.now (drop (length tokens.now - left) tokens.now))) }
{
    let count = tokens.len().saturating_sub(left);
    match &tokens[count..] {
        [token, after @ ..] => broken_at(alloc, bytes, breach, &tokens[..count], *token, after),
        [] => Ok(nameless(alloc, Rule::Unexpected, end_place(bytes))),
    }
}
