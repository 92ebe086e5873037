// Operators, as the rows of the operator tables say.
ghost use Rattle.std.specs.Prelude.{◌≡◌, ◌+◌, ℕ, List, length, true, false, IfSome, IfNone};
ghost use Rattle.std.specs.Prelude.{option_map, option_copied, slice_get};
ghost use Rattle.sv_token.specs.Lexemes.{placed_tokens};
ghost use Rattle.sv_ast.specs.GrammarForms.{binary_operator, unary_operator, binary_at, unary_at};
ghost use Rattle.sv_ast.specs.GrammarForms.{somewhere};
ghost use Rattle.sv_ast.specs.GrammarGroups.{precedence_of};
ghost use Rattle.sv_parse_machine.specs.Reads.{NextIsNoBinary, NextIsNoUnary};
ghost use Rattle.sv_parse_machine.specs.Reads.{NextIsNotOfPrecedence};
ghost use Rattle.sv_parse_machine.specs.Reads.{NextIsNoOperator};
ghost use Rattle.sv_parse_expr.specs.Parses.{in_text, Stands};

use sv_num::{BINARY, BinOp, BinRow, Place, UNARY, UnOp};
use sv_token::{Operator, SignKind, Token, TokenKind};

/// The loosest precedence of a binary operator.
pub(crate) const LOOSEST: u8 = 10;

// The row of a binary operator.
fn binary_row(row: u8) -> Option<&'static BinRow>
    ensures { option_copied result ≡ slice_get BINARY row }
{
    BINARY.get(usize::from(row))
}

/// The binary operator of the spelling, if it is one between operands.
pub(crate) fn binary_operator(operator: Operator) -> Option<BinOp>
    ensures { result ≡ binary_operator operator }
{
    let row = binary_row(operator.binary?)?;
    Some(row.op)
}

// The precedence of that operator.
fn binary_precedence(operator: Operator) -> Option<u8>
    ensures { result ≡ option_map precedence_of (binary_operator operator) }
{
    let row = binary_row(operator.binary?)?;
    Some(row.level)
}

// The unary operator of the spelling, if it is one before an operand.
fn unary_operator(operator: Operator) -> Option<UnOp>
    ensures { result ≡ unary_operator operator }
{
    let row = UNARY.get(usize::from(operator.unary?))?;
    Some(row.op)
}

/// The binary operator that comes, its precedence and its place, and the tokens behind it.
pub(crate) fn binary_at(tokens: &[Token]) -> Option<(BinOp, u8, Place, &[Token])>
    ensures is { (bytes : List ℕ) →
        IfSome result (λ x. Stands (binary_at x.0 x.2) (in_text bytes tokens.now) x.3.now) }
    ensures precedence { IfSome result (λ x. x.1 ≡ precedence_of x.0) }
    ensures one { IfSome result (λ x. length tokens.now ≡ length x.3.now + 1) }
    ensures none { (bytes : List ℕ) →
        IfNone result (NextIsNoBinary (placed_tokens bytes tokens.now)) }
{
    match tokens {
        [first, rest @ ..] => match first.kind {
            TokenKind::Sign(SignKind::Operator(operator)) => {
                let op = binary_operator(operator)?;
                let precedence = binary_precedence(operator)?;
                Some((op, precedence, first.place, rest))
            }
            _ => None,
        },
        [] => None,
    }
}

/// The unary operator that comes, its place, and the tokens behind it.
pub(crate) fn unary_at(tokens: &[Token]) -> Option<(UnOp, Place, &[Token])>
    ensures is { (bytes : List ℕ) →
        IfSome result (λ x. Stands (unary_at x.0 x.1) (in_text bytes tokens.now) x.2.now) }
    ensures one { IfSome result (λ x. length tokens.now ≡ length x.2.now + 1) }
    ensures none { (bytes : List ℕ) →
        IfNone result (NextIsNoUnary (placed_tokens bytes tokens.now)) }
{
    match tokens {
        [first, rest @ ..] => match first.kind {
            TokenKind::Sign(SignKind::Operator(operator)) => {
                Some((unary_operator(operator)?, first.place, rest))
            }
            _ => None,
        },
        [] => None,
    }
}

/// The binary operator of this precedence that comes, its place, and the tokens behind it.
pub(crate) fn binary_of(precedence: u8, tokens: &[Token]) -> Option<(BinOp, Place, &[Token])>
    ensures is { (bytes : List ℕ) →
        IfSome result (λ x. Stands (binary_at x.0 x.1) (in_text bytes tokens.now) x.2.now) }
    ensures precedence { IfSome result (λ x. precedence_of x.0 ≡ precedence) }
    ensures one { IfSome result (λ x. length tokens.now ≡ length x.2.now + 1) }
    ensures none { (bytes : List ℕ) →
        IfNone result (NextIsNotOfPrecedence precedence (placed_tokens bytes tokens.now)) }
{
    let (op, found, place, rest) = binary_at(tokens)?;
    if found == precedence {
        Some((op, place, rest))
    } else {
        None
    }
}

// Whether the operators are one.
fn is_same(a: BinOp, b: BinOp) -> bool
    ensures is { result ≡ true → a ≡ b }
    ensures other { result ≡ false → a ≡ b → ⊥ }
{
    a == b
}

/// The tokens behind this binary operator, if it comes.
pub fn operator_at(op: BinOp, tokens: &[Token]) -> Option<&[Token]>
    ensures is { (bytes : List ℕ) →
        IfSome result (λ rest.
        Stands (somewhere (binary_at op)) (in_text bytes tokens.now) rest.now) }
    ensures one { IfSome result (λ rest. length tokens.now ≡ length rest.now + 1) }
    ensures none { (bytes : List ℕ) →
        IfNone result (NextIsNoOperator op (placed_tokens bytes tokens.now)) }
{
    let (found, _precedence, _place, rest) = binary_at(tokens)?;
    if is_same(found, op) { Some(rest) } else { None }
}
