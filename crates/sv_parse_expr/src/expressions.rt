// Expressions (IEEE 1364-2005, clause 5).
ghost use Rattle.std.specs.Prelude.{◌≡◌, ◌+◌, ◌-◌, ◌<◌, ◌≤◌, ℕ, List, [], ◌∷◌, length, IfOk};
ghost use Rattle.std.specs.Option.{option_map};
ghost use Rattle.sv_token.specs.Lexemes.{placed_tokens};
ghost use Rattle.sv_ast.specs.Views.{expression_tree, expression_trees};
ghost use Rattle.sv_ast.specs.GrammarForms.{in_parentheses};
ghost use Rattle.sv_ast.specs.GrammarExpressions.{IsExpression};
ghost use Rattle.sv_ast.specs.GrammarRules.{all_limits};
ghost use Rattle.sv_parse_machine.specs.Symbols.{Inner, inner, operand, tail, selection_end};
ghost use Rattle.sv_parse_machine.specs.Symbols.{members, inner_brace, expression, punctuation};
ghost use Rattle.sv_parse_machine.specs.Reads.{Reads, NextIsLooser, NextIsNotSign, NextIsSign};
ghost use Rattle.sv_parse_machine.specs.Reads.{NextIsAnyName, NextIsNumber, NextIsAnyOperator};
ghost use Rattle.sv_parse_expr.specs.Reading.{IsChain, IsBounded, AreLaterParts, IsRepeated};
ghost use Rattle.sv_parse_expr.specs.Parses.{placed, in_text, Stands, GivesAs, Gives, Shortens};
ghost use Rattle.sv_parse_expr.specs.Parses.{NoLonger, Leads, LeadsIn, HaltsBy, HaltsOn, HaltsIn};
ghost use Rattle.sv_parse_expr.specs.Parses.{TakesNoMemory};

use crate::cursor::{behind, expect_sign, read_name, read_number, sign_at, stuck, unexpected};
use crate::nodes::{binary, choice, join, repeat, selected, unary};
use crate::operators::{LOOSEST, binary_of, unary_at};
use crate::room::Room;
use crate::stop::{Expected, Input, Read, Stop};
use std::alloc::Global;
use sv_ast::Expr;
use sv_token::{SignKind, Token, TokenKind};

// An expression inside another one, or a whole one.
#[cycle(expression)]
fn read_inner<'a>(alloc: Global, input: Input<'a>, room: Room) -> Read<'a, Expr>
    ensures is { Gives result input.entry expression_tree (IsChain room.levels 11) }
    ensures shorter { Shortens result input.entry }
    ensures counted { IfOk result (λ x. room.beyond ≤ length x.1.now) }
    ensures reads { LeadsIn result input.entry room.beyond
        (operand room.levels ∷ tail room.levels ∷ []) [] }
    ensures halts { HaltsIn result input.entry room.beyond
        (operand room.levels ∷ tail room.levels ∷ []) }
{
    let (cond, rest) = read_chain(alloc, input, room, LOOSEST)?;
    let Some((place, after)) = sign_at(SignKind::Question, rest) else {
        return Ok((cond, rest));
    };
    let inside = room.opened(rest)?;
    let rest = after;
    let (yes, rest) = read_inner(alloc, Input { rest, ..input }, inside)?;
    let rest = inside.expect(SignKind::Colon, rest)?;
    let (no, rest) = read_inner(alloc, Input { rest, ..input }, inside)?;
    Ok((choice(alloc, place, cond, yes, no)?, rest))
}

// Operands with operators between them that are no looser than the precedence. Each operand of an
// operator of that precedence is a chain of tighter ones, so the calls go ten deep for a level of
// the text, and never deeper for a longer chain.
#[cycle(expression)]
fn read_chain<'a>(alloc: Global, input: Input<'a>, room: Room, precedence: u8) -> Read<'a, Expr>
    ensures is { Gives result input.entry expression_tree (IsChain room.levels precedence) }
    ensures shorter { Shortens result input.entry }
    ensures counted { IfOk result (λ x. room.beyond ≤ length x.1.now) }
    ensures reads { LeadsIn result input.entry room.beyond
        (operand room.levels ∷ tail room.levels ∷ []) (tail room.levels ∷ []) }
    ensures halts { HaltsIn result input.entry room.beyond
        (operand room.levels ∷ tail room.levels ∷ []) }
    ensures looser { IfOk result (λ x.
        NextIsLooser precedence (placed_tokens input.entry.bytes.now x.1.now)) }
{
    if precedence == 0 {
        let (operand, rest) = read_operand(alloc, input, room)?;
        return Ok((operand, rest));
    }
    let (mut left, mut rest) = read_chain(alloc, input, room, precedence - 1)?;
    while let Some((op, place, after)) = binary_of(precedence, rest) {
        room.count(rest)?;
        rest = after;
        let (right, more) = read_chain(alloc, Input { rest, ..input }, room, precedence - 1)?;
        left = binary(alloc, op, place, left, right)?;
        rest = more;
    }
    Ok((left, rest))
}

#[cycle(expression)]
fn read_operand<'a>(alloc: Global, input: Input<'a>, room: Room) -> Read<'a, Expr>
    ensures is { Gives result input.entry expression_tree (IsChain room.levels 0) }
    ensures shorter { Shortens result input.entry }
    ensures counted { IfOk result (λ x. room.beyond ≤ length x.1.now) }
    ensures reads { LeadsIn result input.entry room.beyond (operand room.levels ∷ []) [] }
    ensures halts { HaltsIn result input.entry room.beyond (operand room.levels ∷ []) }
{
    let tokens = input.rest;
    let [first, ..] = tokens else {
        return Err(unexpected(tokens));
    };
    match first.kind {
        TokenKind::Number(_) => read_literal(room, tokens),
        TokenKind::Name => read_named(alloc, input, room),
        TokenKind::Sign(SignKind::OpenParenthesis) => read_group(alloc, input, room),
        TokenKind::Sign(SignKind::OpenBrace) => read_braces(alloc, input, room),
        TokenKind::Sign(SignKind::Operator(_)) => read_prefixed(alloc, input, room),
        _ => Err(unexpected(tokens)),
    }
}

// A number.
fn read_literal(room: Room, tokens: &[Token]) -> Read<'_, Expr>
    ensures is { (bytes : List ℕ) →
        Gives result (in_text bytes tokens.now) expression_tree (IsChain room.levels 0) }
    ensures shorter { IfOk result (λ x. length x.1.now < length tokens.now) }
    ensures counted { IfOk result (λ x. room.beyond ≤ length x.1.now) }
    ensures reads { (bytes : List ℕ) →
        LeadsIn result (in_text bytes tokens.now) room.beyond (operand room.levels ∷ []) [] }
    ensures halts { (bytes : List ℕ) (start : ℕ) → room.beyond ≡ start - 1024 →
        NextIsNumber (placed_tokens bytes tokens.now) →
        HaltsBy result (in_text bytes tokens.now) (inner start (operand room.levels) ∷ []) }
    ensures memory { TakesNoMemory result }
{
    let (value, place, rest) = read_number(tokens)?;
    room.count(tokens)?;
    Ok((Expr::Number(value, place), rest))
}

// An expression in parentheses.
#[cycle(expression)]
fn read_group<'a>(alloc: Global, input: Input<'a>, room: Room) -> Read<'a, Expr>
    ensures is { Gives result input.entry expression_tree (IsChain room.levels 0) }
    ensures shorter { Shortens result input.entry }
    ensures counted { IfOk result (λ x. room.beyond ≤ length x.1.now) }
    ensures reads { LeadsIn result input.entry room.beyond (operand room.levels ∷ []) [] }
    ensures halts { (start : ℕ) → room.beyond ≡ start - 1024 →
        NextIsSign SignKind.OpenParenthesis (placed input.entry) →
        HaltsBy result input.entry (inner start (operand room.levels) ∷ []) }
{
    let rest = expect_sign(SignKind::OpenParenthesis, input.rest)?;
    let inside = room.opened(input.rest)?;
    let (expr, rest) = read_inner(alloc, Input { rest, ..input }, inside)?;
    let rest = inside.expect(SignKind::CloseParenthesis, rest)?;
    Ok((expr, rest))
}

// An operator, which has to be one before an operand, with its operand.
#[cycle(expression)]
fn read_prefixed<'a>(alloc: Global, input: Input<'a>, room: Room) -> Read<'a, Expr>
    ensures is { Gives result input.entry expression_tree (IsChain room.levels 0) }
    ensures shorter { Shortens result input.entry }
    ensures counted { IfOk result (λ x. room.beyond ≤ length x.1.now) }
    ensures reads { LeadsIn result input.entry room.beyond (operand room.levels ∷ []) [] }
    ensures halts { (start : ℕ) → room.beyond ≡ start - 1024 →
        NextIsAnyOperator (placed input.entry) →
        HaltsBy result input.entry (inner start (operand room.levels) ∷ []) }
{
    let Some((op, place, rest)) = unary_at(input.rest) else {
        return Err(unexpected(input.rest));
    };
    let inside = room.opened(input.rest)?;
    let (expr, rest) = read_operand(alloc, Input { rest, ..input }, inside)?;
    Ok((unary(alloc, op, place, expr)?, rest))
}

// A name, with or without a bit or a part of it.
#[cycle(expression)]
fn read_named<'a>(alloc: Global, input: Input<'a>, room: Room) -> Read<'a, Expr>
    ensures is { Gives result input.entry expression_tree (IsChain room.levels 0) }
    ensures shorter { Shortens result input.entry }
    ensures counted { IfOk result (λ x. room.beyond ≤ length x.1.now) }
    ensures reads { LeadsIn result input.entry room.beyond (operand room.levels ∷ []) [] }
    ensures halts { (start : ℕ) → room.beyond ≡ start - 1024 →
        NextIsAnyName (placed input.entry) →
        HaltsBy result input.entry (inner start (operand room.levels) ∷ []) }
{
    let (name, place, rest) = read_name(alloc, input)?;
    room.count(input.rest)?;
    if let Some(after) = behind(SignKind::OpenBracket, rest) {
        let inside = room.opened(rest)?;
        let rest = after;
        let (high, low, rest) = read_bounds(alloc, Input { rest, ..input }, inside)?;
        return Ok((selected(alloc, name, place, high, low)?, rest));
    }
    if let Some(_part) = behind(SignKind::Dot, rest) {
        return Err(stuck(Expected::BehindName, rest));
    }
    Ok((Expr::Name(name, place), rest))
}

// The index of a bit or the bounds of a part, behind the `[`, and the `]`.
#[cycle(expression)]
fn read_bounds<'a>(
    alloc: Global,
    input: Input<'a>,
    room: Room,
) -> Result<(Expr, Option<Expr>, &'a [Token]), Stop>
    ensures is { IfOk result (λ x.
        Stands (IsBounded room.levels (expression_tree x.0) (option_map expression_tree x.1))
        input.entry x.2.now) }
    ensures shorter { IfOk result (λ x. length x.2.now < length input.entry.rest.now) }
    ensures counted { IfOk result (λ x. room.beyond ≤ length x.2.now) }
    ensures reads { (start : ℕ) → room.beyond ≡ start - 1024 →
        IfOk result (λ x. Reads
        (inner start (operand room.levels) ∷ inner start (tail room.levels) ∷
        inner start (selection_end room.levels) ∷ []) [] (placed input.entry)
        (placed_tokens input.entry.bytes.now x.2.now)) }
    ensures halts { HaltsIn result input.entry room.beyond
        (operand room.levels ∷ tail room.levels ∷ selection_end room.levels ∷ []) }
{
    let (first, rest) = read_inner(alloc, input, room)?;
    if let Some(after) = behind(SignKind::CloseBracket, rest) {
        room.count(rest)?;
        return Ok((first, None, after));
    }
    let rest = room.expect(SignKind::Colon, rest)?;
    let (low, rest) = read_inner(alloc, Input { rest, ..input }, room)?;
    let rest = room.expect(SignKind::CloseBracket, rest)?;
    Ok((first, Some(low), rest))
}

// A join or a replication.
#[cycle(expression)]
fn read_braces<'a>(alloc: Global, input: Input<'a>, room: Room) -> Read<'a, Expr>
    ensures is { Gives result input.entry expression_tree (IsChain room.levels 0) }
    ensures shorter { Shortens result input.entry }
    ensures counted { IfOk result (λ x. room.beyond ≤ length x.1.now) }
    ensures reads { LeadsIn result input.entry room.beyond (operand room.levels ∷ []) [] }
    ensures halts { (start : ℕ) → room.beyond ≡ start - 1024 →
        NextIsSign SignKind.OpenBrace (placed input.entry) →
        HaltsBy result input.entry (inner start (operand room.levels) ∷ []) }
{
    let Some((place, rest)) = sign_at(SignKind::OpenBrace, input.rest) else {
        return Err(unexpected(input.rest));
    };
    let inside = room.opened(input.rest)?;
    let (first, rest) = read_inner(alloc, Input { rest, ..input }, inside)?;
    if let Some(after) = behind(SignKind::OpenBrace, rest) {
        let innermost = inside.opened(rest)?;
        let rest = after;
        let (parts, rest) = read_repeated(alloc, Input { rest, ..input }, innermost)?;
        return Ok((repeat(alloc, place, first, parts)?, rest));
    }
    let (parts, rest) = read_later_parts(alloc, Input { rest, ..input }, inside, first)?;
    let rest = inside.expect(SignKind::CloseBrace, rest)?;
    Ok((join(place, parts), rest))
}

// The parts of a replication, behind its second brace, and both closing braces.
#[cycle(expression)]
fn read_repeated<'a>(alloc: Global, input: Input<'a>, room: Room) -> Read<'a, Vec<Expr>>
    ensures is { GivesAs result input.entry (λ x.
        IsRepeated room.levels (expression_trees x.items)) }
    ensures shorter { Shortens result input.entry }
    ensures counted { IfOk result (λ x. room.beyond ≤ length x.1.now) }
    ensures reads { LeadsIn result input.entry room.beyond
        (operand room.levels ∷ tail room.levels ∷ members room.levels ∷ inner_brace ∷ []) [] }
    ensures halts { HaltsIn result input.entry room.beyond
        (operand room.levels ∷ tail room.levels ∷ members room.levels ∷ inner_brace ∷ []) }
{
    let (first, rest) = read_inner(alloc, input, room)?;
    let (parts, rest) = read_later_parts(alloc, Input { rest, ..input }, room, first)?;
    let rest = room.expect(SignKind::CloseBrace, rest)?;
    let rest = room.expect(SignKind::CloseBrace, rest)?;
    Ok((parts, rest))
}

// The first part, which is read already, and those that follow it.
#[cycle(expression)]
fn read_later_parts<'a>(
    alloc: Global,
    input: Input<'a>,
    room: Room,
    first: Expr,
) -> Read<'a, Vec<Expr>>
    ensures is { GivesAs result input.entry (λ x.
        AreLaterParts room.levels (expression_tree first) (expression_trees x.items)) }
    ensures shorter { NoLonger result input.entry }
    ensures reads { LeadsIn result input.entry room.beyond
        (members room.levels ∷ []) (members room.levels ∷ []) }
    ensures halts { HaltsIn result input.entry room.beyond (members room.levels ∷ []) }
    ensures ends { IfOk result (λ x.
        NextIsNotSign SignKind.Comma (placed_tokens input.entry.bytes.now x.1.now)) }
{
    let mut parts = Vec::new(alloc);
    parts.push(first)?;
    let mut rest = input.rest;
    while let Some(after) = behind(SignKind::Comma, rest) {
        room.count(rest)?;
        rest = after;
        let (part, more) = read_inner(alloc, Input { rest, ..input }, room)?;
        parts.push(part)?;
        rest = more;
    }
    Ok((parts, rest))
}

/// An expression that stands in no other one, where so many levels are open around it, and the
/// tokens behind it.
pub fn read_expression<'a>(alloc: Global, input: Input<'a>, levels: usize) -> Read<'a, Expr>
    ensures is { Gives result input.entry expression_tree (IsExpression all_limits levels) }
    ensures shorter { Shortens result input.entry }
    ensures reads { Leads result input.entry (expression levels ∷ []) [] }
    ensures halts { HaltsOn result input.entry (expression levels ∷ []) }
{
    let room = Room::of(levels, input.rest);
    let (expr, rest) = read_inner(alloc, input, room)?;
    Ok((expr, rest))
}

/// An expression that may have no token, since it begins an arm too many. None is ever read.
pub fn read_expression_too_many<'a>(
    alloc: Global,
    input: Input<'a>,
    levels: usize,
) -> Read<'a, Expr>
    ensures never { IfOk result (λ x. ⊥) }
    ensures halts { HaltsBy result input.entry
        (inner (length input.entry.rest.now + 1024) (operand levels) ∷
        inner (length input.entry.rest.now + 1024) (tail levels) ∷ []) }
{
    read_inner(alloc, input, Room::none(levels, input.rest))
}

/// An expression in parentheses that are no part of it.
pub fn read_in_parentheses<'a>(alloc: Global, input: Input<'a>, levels: usize) -> Read<'a, Expr>
    ensures is { GivesAs result input.entry (λ x.
        in_parentheses (IsExpression all_limits levels (expression_tree x))) }
    ensures shorter { Shortens result input.entry }
    ensures reads { Leads result input.entry
        (punctuation SignKind.OpenParenthesis ∷ expression levels ∷
        punctuation SignKind.CloseParenthesis ∷ []) [] }
    ensures halts { HaltsOn result input.entry
        (punctuation SignKind.OpenParenthesis ∷ expression levels ∷
        punctuation SignKind.CloseParenthesis ∷ []) }
{
    let rest = expect_sign(SignKind::OpenParenthesis, input.rest)?;
    let (expr, rest) = read_expression(alloc, Input { rest, ..input }, levels)?;
    let rest = expect_sign(SignKind::CloseParenthesis, rest)?;
    Ok((expr, rest))
}
