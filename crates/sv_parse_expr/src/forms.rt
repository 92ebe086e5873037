// Forms that are left out, by the token that would begin them, those before it and those behind it.
ghost use Rattle.std.specs.Prelude.{◌≡◌, ◌+◌, ◌<◌, ◌≤◌, ◌^◌, ℕ, List, length, false, Some};
ghost use Rattle.sv_token.specs.Lexemes.{lexeme_of, placed_of, placed_tokens};
ghost use Rattle.sv_token.specs.Words.{is_refused_word};
ghost use Rattle.sv_ast.specs.GrammarRules as grammar;
ghost use Rattle.sv_token.specs.Lexemes as lexeme;
ghost use Rattle.sv_parse_machine.specs.StatementTable.{is_star};
ghost use Rattle.sv_parse_machine.specs.Verdict as verdict;
ghost use Rattle.sv_parse_expr.specs.Expectations.{expected_of, part_of, word_bytes};

use crate::cursor::text_of;
use crate::operators::binary_operator;
use crate::refused_words::is_refused;
use crate::stop::Expected;
use sv_num::BinOp;
use sv_token::{SignKind, Token, TokenKind, WordKind};

// Parts of a text: a module's header, up to its `;`, its body, up to `endmodule`, and all else.
#[derive(Clone, Copy, Debug, PartialEq, Eq)]
enum Part {
    Header,
    Body,
    Outside,
}

impl Part {
    // The part behind one more token.
    fn behind(self, kind: TokenKind) -> Part
        ensures { (bytes : List ℕ) (start stop : ℕ) →
            part_of result ≡ grammar.part_behind (part_of self) (lexeme_of bytes kind start stop) }
    {
        match kind {
            TokenKind::Word(WordKind::Module) => Part::Header,
            TokenKind::Word(WordKind::Endmodule) => Part::Outside,
            TokenKind::Sign(SignKind::Semicolon) => match self {
                Part::Header => Part::Body,
                part => part,
            },
            _ => self,
        }
    }

    fn is_body(self) -> bool
        ensures { result ≡ verdict.is_body (part_of self) }
    {
        match self {
            Part::Body => true,
            Part::Header | Part::Outside => false,
        }
    }
}

// The part in which the tokens stop.
fn last_part(tokens: &[Token]) -> Part
    ensures { (bytes : List ℕ) →
        part_of result ≡ grammar.last_part (placed_tokens bytes tokens.now) }
{
    let mut part = Part::Outside;
    for token in tokens {
        part = part.behind(token.kind);
    }
    part
}

// The last word other than `signed` behind one more token; none behind a `;`.
fn word_behind(word: Option<WordKind>, kind: TokenKind) -> Option<WordKind>
    ensures { (bytes : List ℕ) (start stop : ℕ) →
        result ≡ grammar.word_behind word (lexeme_of bytes kind start stop) }
{
    match kind {
        TokenKind::Word(WordKind::Signed) => word,
        TokenKind::Word(last) => Some(last),
        TokenKind::Sign(SignKind::Semicolon) => None,
        _ => word,
    }
}

// The last word other than `signed`, where no `;` comes behind it.
fn last_word(tokens: &[Token]) -> Option<WordKind>
    ensures { (bytes : List ℕ) → result ≡ grammar.last_word (placed_tokens bytes tokens.now) }
{
    let mut word = None;
    for token in tokens {
        word = word_behind(word, token.kind);
    }
    word
}

// How many brackets and braces are open behind one more token.
fn open_behind(count: usize, kind: TokenKind) -> usize
    requires { count + 1 < 2 ^ 64 }
    ensures is { (bytes : List ℕ) (start stop : ℕ) →
        result ≡ grammar.open_behind count (lexeme_of bytes kind start stop) }
    ensures more { result ≤ count + 1 }
{
    match kind {
        TokenKind::Sign(SignKind::OpenBracket) => count + 1,
        TokenKind::Sign(SignKind::OpenBrace) => count + 1,
        TokenKind::Sign(SignKind::CloseBracket) => count.saturating_sub(1),
        TokenKind::Sign(SignKind::CloseBrace) => count.saturating_sub(1),
        _ => count,
    }
}

// How many brackets and braces are open.
fn open_brackets(tokens: &[Token]) -> usize
    ensures { (bytes : List ℕ) → result ≡ grammar.open_brackets (placed_tokens bytes tokens.now) }
{
    let mut count = 0;
    for token in tokens {
        count = open_behind(count, token.kind);
    }
    count
}

fn is_name(kind: TokenKind) -> bool
    ensures { (bytes : List ℕ) (start stop : ℕ) →
        result ≡ grammar.is_name (lexeme_of bytes kind start stop) }
{
    match kind {
        TokenKind::Name => true,
        _ => false,
    }
}

// Whether the last token is a name.
fn stop_at_name(tokens: &[Token]) -> bool
    ensures { (bytes : List ℕ) → result ≡ grammar.stop_at_name (placed_tokens bytes tokens.now) }
{
    match tokens {
        [.., last] => is_name(last.kind),
        [] => false,
    }
}

fn is_posedge(kind: TokenKind) -> bool
    ensures { (bytes : List ℕ) (start stop : ℕ) →
        result ≡ verdict.is_posedge (lexeme_of bytes kind start stop) }
{
    match kind {
        TokenKind::Word(WordKind::Posedge) => true,
        _ => false,
    }
}

// Whether the tokens stop at the name of a clock.
fn stop_at_clock(tokens: &[Token]) -> bool
    ensures { (bytes : List ℕ) → result ≡ verdict.stop_at_clock (placed_tokens bytes tokens.now) }
{
    match tokens {
        [.., edge, name] => is_posedge(edge.kind) && is_name(name.kind),
        _ => false,
    }
}

// Whether the tokens stop at a name that stands outside ranges and labels.
fn stop_at_declared(tokens: &[Token]) -> bool
    ensures { (bytes : List ℕ) →
        result ≡ verdict.stop_at_declared (placed_tokens bytes tokens.now) }
{
    stop_at_name(tokens) && open_brackets(tokens) == 0
}

// The word, where it holds that its form begins.
fn word_if(holds: bool, word: &'static [u8]) -> Option<&'static [u8]>
    ensures { word_bytes result ≡ verdict.word_if holds word.now }
{
    if holds { Some(word) } else { None }
}

// A range behind a declared name, a memory, or one behind a target, which is then no whole signal.
fn range_form(last: Option<WordKind>, is_named: bool, is_declared: bool) -> Option<&'static [u8]>
    ensures { word_bytes result ≡ verdict.bracket_word last is_named is_declared }
{
    match last {
        Some(WordKind::Input) => word_if(is_declared, b"memory"),
        Some(WordKind::Output) => word_if(is_declared, b"memory"),
        Some(WordKind::Wire) => word_if(is_declared, b"memory"),
        Some(WordKind::Reg) => word_if(is_declared, b"memory"),
        Some(WordKind::Assign) => word_if(is_named, b"target-select"),
        _ => None,
    }
}

// A value for a declared register.
fn value_form(last: Option<WordKind>, is_declared: bool) -> Option<&'static [u8]>
    ensures { word_bytes result ≡ verdict.equals_word last is_declared }
{
    match last {
        Some(WordKind::Reg) => word_if(is_declared, b"reg-init"),
        _ => None,
    }
}

// A name that is no refused word.
fn name_form(expected: Expected) -> Option<&'static [u8]>
    ensures { (text : List ℕ) →
        word_bytes result ≡ verdict.name_word false text (expected_of expected) }
{
    match expected {
        Expected::Edge => Some(b"sensitivity-list"),
        Expected::Port => Some(b"header-names"),
        _ => None,
    }
}

// Whether the operator is the one of multiplication.
fn is_star(operator: BinOp) -> bool
    ensures { result ≡ is_star (Some operator) }
{
    match operator {
        BinOp::Mul => true,
        _ => false,
    }
}

// Whether the token is a `*`.
fn is_star_token(kind: TokenKind) -> bool
    ensures { (bytes : List ℕ) (start stop : ℕ) →
        result ≡ verdict.is_star_lexeme (lexeme_of bytes kind start stop) }
{
    match kind {
        TokenKind::Sign(SignKind::Operator(operator)) => match binary_operator(operator) {
            Some(binary) => is_star(binary),
            None => false,
        },
        _ => false,
    }
}

// Whether the tokens begin with a `*`.
fn star_is_next(tokens: &[Token]) -> bool
    ensures { (bytes : List ℕ) → result ≡ verdict.star_is_next (placed_tokens bytes tokens.now) }
{
    match tokens {
        [first, ..] => is_star_token(first.kind),
        [] => false,
    }
}

// A `(`, before a `*` or other tokens.
fn parenthesis_form(expected: Expected, star_is_next: bool) -> Option<&'static [u8]>
    ensures { word_bytes result ≡ verdict.parenthesis_word (expected_of expected) star_is_next }
{
    match expected {
        Expected::Item => word_if(star_is_next, b"attribute"),
        Expected::Statement => word_if(star_is_next, b"attribute"),
        _ => None,
    }
}

// A `#`, in a body or not.
fn hash_form(expected: Expected, is_in_body: bool) -> Option<&'static [u8]>
    ensures { word_bytes result ≡ verdict.hash_word (expected_of expected) is_in_body }
{
    match expected {
        Expected::Item => None,
        _ => word_if(is_in_body, b"delay"),
    }
}

// An `@`.
fn at_form(expected: Expected) -> Option<&'static [u8]>
    ensures { word_bytes result ≡ verdict.at_word (expected_of expected) }
{
    match expected {
        Expected::Statement => Some(b"event-control"),
        _ => None,
    }
}

// A `.`.
fn dot_form(expected: Expected) -> Option<&'static [u8]>
    ensures { word_bytes result ≡ verdict.dot_word (expected_of expected) }
{
    match expected {
        Expected::BehindName => Some(b"hierarchical-name"),
        _ => None,
    }
}

// The form that is left out and would begin with the sign, between the tokens.
fn sign_form(
    expected: Expected,
    before: &[Token],
    sign: SignKind,
    after: &[Token],
) -> Option<&'static [u8]>
    ensures { (bytes : List ℕ) →
        word_bytes result ≡ verdict.refused_word (expected_of expected)
        (placed_tokens bytes before.now) (lexeme.sign sign) (placed_tokens bytes after.now) }
{
    match sign {
        SignKind::OpenParenthesis => parenthesis_form(expected, star_is_next(after)),
        SignKind::Hash => hash_form(expected, last_part(before).is_body()),
        SignKind::Equals => value_form(last_word(before), stop_at_declared(before)),
        SignKind::OpenBracket => {
            range_form(
                last_word(before),
                stop_at_name(before),
                stop_at_declared(before),
            )
        }
        SignKind::At => at_form(expected),
        SignKind::Comma => word_if(stop_at_clock(before), b"several-events"),
        SignKind::Dot => dot_form(expected),
        _ => None,
    }
}

// A name: a refused word, or one where something else has to come.
fn name_word<'a>(text: &'a [u8], expected: Expected) -> Option<&'a [u8]>
    ensures { word_bytes result ≡
        verdict.name_word (is_refused_word text.now) text.now (expected_of expected) }
{
    if is_refused(text) {
        Some(text)
    } else {
        name_form(expected)
    }
}

/// The word for the form that is left out and would begin with the token, between the others, if it
/// begins one.
pub fn word_at<'a>(
    bytes: &'a [u8],
    expected: Expected,
    before: &[Token],
    token: Token,
    after: &[Token],
) -> Option<&'a [u8]>
    ensures { word_bytes result
        ≡ verdict.refused_word (expected_of expected) (placed_tokens bytes.now before.now)
        (placed_of bytes.now token).lexeme (placed_tokens bytes.now after.now) }
{
    match token.kind {
        TokenKind::Name => name_word(text_of(bytes, token), expected),
        TokenKind::Sign(sign) => sign_form(expected, before, sign, after),
        TokenKind::Word(_word) => None,
        TokenKind::Number(_number) => None,
    }
}
