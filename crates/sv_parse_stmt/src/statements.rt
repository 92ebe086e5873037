// Statements (IEEE 1364-2005, clause 9).
ghost use Rattle.std.specs.Prelude.{◌≡◌, ◌+◌, ◌<◌, ◌≤◌, ◌||◌, false, ℕ, List, [], ◌∷◌, length};
ghost use Rattle.std.specs.Prelude.{IfOk, IfSome, IfNone, OnOk, OnSome};
ghost use Rattle.sv_token.specs.Lexemes.{placed_tokens};
ghost use Rattle.sv_token.specs.declared.keywords.WordKind.TheVariants as words;
ghost use Rattle.sv_ast.specs.Tree as tree;
ghost use Rattle.sv_ast.specs.Views.{expression_tree, statement_tree, statement_trees};
ghost use Rattle.sv_ast.specs.Views.{statements_of, arm_tree, arm_trees, arms_of};
ghost use Rattle.sv_ast.specs.GrammarForms.{◌⨾◌, a_word, optional};
ghost use Rattle.sv_ast.specs.GrammarStatements.{assigns, block_name, IsNext, IsArmHead};
ghost use Rattle.sv_ast.specs.GrammarStatements.{is_default, IsStatement, AreStatements, AreArms};
ghost use Rattle.sv_ast.specs.GrammarRules.{all_limits};
ghost use Rattle.sv_token.specs.declared.signs.SignKind.TheVariants as signs;
ghost use Rattle.sv_parse_machine.specs.Symbols as symbol;
ghost use Rattle.sv_parse_machine.specs.Symbols.{statement};
ghost use Rattle.sv_parse_machine.specs.Reads.{NextIsSign, NextIsTarget};
ghost use Rattle.sv_parse_expr.specs.Parses.{placed, in_text, Stands, Comes, GivesAs, Gives};
ghost use Rattle.sv_parse_expr.specs.Parses.{Shortens, Leads, HaltsOn, TakesNoMemory};
ghost use Rattle.sv_parse_stmt.specs.ReadingArms.{ArmComes};

use crate::arms::read_arm_head;
use crate::closed::read_closed;
use crate::targets::{first_place, read_targets};
use std::alloc::{AllocError, Global};
use sv_ast::{Arm, Expr, Stmt};
use sv_num::{BinOp, Place};
use sv_parse_expr::cursor::{
    behind, behind_word, expect_sign, expect_word, read_name, stuck, unexpected,
};
use sv_parse_expr::expressions::read_in_parentheses;
use sv_parse_expr::operators::operator_at;
use sv_parse_expr::room::deeper;
use sv_parse_expr::stop::{Expected, Input, Read, Stop};
use sv_token::{SignKind, Token, TokenKind, WordKind};

// Whether an assignment is blocking, and the tokens behind its `=` or `<=`.
fn assigns(tokens: &[Token]) -> Read<'_, bool>
    ensures is { (bytes : List ℕ) → GivesAs result (in_text bytes tokens.now) assigns }
    ensures shorter { IfOk result (λ x. length x.1.now < length tokens.now) }
    ensures reads { (bytes : List ℕ) →
        Leads result (in_text bytes tokens.now) (symbol.assigns ∷ []) [] }
    ensures halts { (bytes : List ℕ) →
        HaltsOn result (in_text bytes tokens.now) (symbol.assigns ∷ []) }
    ensures memory { TakesNoMemory result }
{
    if let Some(rest) = behind(SignKind::Equals, tokens) {
        return Ok((true, rest));
    }
    match operator_at(BinOp::Le, tokens) {
        Some(rest) => Ok((false, rest)),
        None => Err(unexpected(tokens)),
    }
}

// An assignment, with the place of its first target.
fn read_assignment<'a>(alloc: Global, input: Input<'a>, levels: usize) -> Read<'a, Stmt>
    ensures is { Gives result input.entry statement_tree (IsStatement all_limits levels) }
    ensures shorter { Shortens result input.entry }
    ensures reads { NextIsTarget (placed input.entry) →
        Leads result input.entry (statement levels ∷ []) [] }
    ensures halts { NextIsTarget (placed input.entry) →
        HaltsOn result input.entry (statement levels ∷ []) }
{
    let (targets, rest) = read_targets(alloc, input, levels)?;
    let place = first_place(&targets);
    let (blocking, rest) = assigns(rest)?;
    let (value, rest) = read_closed(alloc, Input { rest, ..input }, levels, SignKind::Semicolon)?;
    let stmt = Stmt::Assign {
        targets,
        place,
        blocking,
        value,
    };
    Ok((stmt, rest))
}

// The tokens behind the name of a block, if it has one.
fn behind_block_name<'a>(alloc: Global, input: Input<'a>) -> Result<&'a [Token], Stop>
    ensures is { IfOk result (λ x. Stands (optional block_name) input.entry x.now) }
    ensures shorter { IfOk result (λ x. length x.now ≤ length input.entry.rest.now) }
    ensures reads { IfOk result (λ x. Comes (symbol.perhaps_block_name ∷ []) [] input.entry x.now) }
    ensures halts { HaltsOn result input.entry (symbol.perhaps_block_name ∷ []) }
{
    match behind(SignKind::Colon, input.rest) {
        Some(rest) => {
            let (_name, _at, rest) = read_name(alloc, Input { rest, ..input })?;
            Ok(rest)
        }
        None => Ok(input.rest),
    }
}

// An `if` without `else`.
fn if_only(alloc: Global, place: Place, cond: Expr, yes: Stmt) -> Result<Stmt, AllocError>
    ensures { IfOk result (λ s.
        statement_tree s ≡ tree.if_only place (expression_tree cond) (statement_tree yes)) }
{
    Ok(Stmt::If {
        place,
        cond,
        yes: Box::new(alloc, yes)?,
        no: None,
    })
}

// An `if` with `else`.
fn if_else(alloc: Global, place: Place, cond: Expr, yes: Stmt, no: Stmt) -> Result<Stmt, AllocError>
    ensures { IfOk result (λ s.
        statement_tree s ≡ tree.if_else place (expression_tree cond) (statement_tree yes)
        (statement_tree no)) }
{
    let yes = Box::new(alloc, yes)?;
    Ok(Stmt::If {
        place,
        cond,
        yes,
        no: Some(Box::new(alloc, no)?),
    })
}

// The tokens behind the `endcase`, if it comes behind at least one arm.
fn behind_arms(before: usize, tokens: &[Token]) -> Option<&[Token]>
    ensures is { (bytes : List ℕ) →
        IfSome result (λ rest. Stands (a_word words.Endcase) (in_text bytes tokens.now) rest.now) }
    ensures some { OnSome result (0 < before) }
    ensures one { IfSome result (λ rest. length tokens.now ≡ length rest.now + 1) }
    ensures none { (bytes : List ℕ) →
        IfNone result (ArmComes before (placed_tokens bytes tokens.now)) }
{
    if before == 0 {
        return None;
    }
    behind_word(WordKind::Endcase, tokens)
}

// Whether a default stands before what follows the arm.
fn is_default_behind(has_default: bool, arm: &Arm) -> bool
    ensures { result ≡ (has_default || is_default (arm_tree arm.now).items) }
{
    has_default || arm.items.is_empty()
}

/// A statement, where so many levels are open around it, and the tokens behind it.
#[cycle(statement)]
pub fn read_statement<'a>(alloc: Global, input: Input<'a>, levels: usize) -> Read<'a, Stmt>
    ensures is { Gives result input.entry statement_tree (IsStatement all_limits levels) }
    ensures shorter { Shortens result input.entry }
    ensures reads { Leads result input.entry (statement levels ∷ []) [] }
    ensures halts { HaltsOn result input.entry (statement levels ∷ []) }
{
    let tokens = input.rest;
    let [first, ..] = tokens else {
        return Err(stuck(Expected::Statement, tokens));
    };
    match first.kind {
        TokenKind::Sign(SignKind::Semicolon) => read_null(tokens),
        TokenKind::Word(WordKind::Begin) => read_block(alloc, input, levels),
        TokenKind::Word(WordKind::If) => read_conditional(alloc, input, levels),
        TokenKind::Word(WordKind::Case) => read_case(alloc, input, levels),
        TokenKind::Name | TokenKind::Sign(SignKind::OpenBrace) => {
            read_assignment(alloc, input, levels)
        }
        _ => Err(stuck(Expected::Statement, tokens)),
    }
}

// `;`
fn read_null(tokens: &[Token]) -> Read<'_, Stmt>
    ensures is { (bytes : List ℕ) (n : ℕ) →
        Gives result (in_text bytes tokens.now) statement_tree (IsStatement all_limits n) }
    ensures shorter { IfOk result (λ x. length x.1.now < length tokens.now) }
    ensures reads { (bytes : List ℕ) (n : ℕ) →
        Leads result (in_text bytes tokens.now) (statement n ∷ []) [] }
    ensures halts { (bytes : List ℕ) (n : ℕ) →
        NextIsSign signs.Semicolon (placed_tokens bytes tokens.now) →
        HaltsOn result (in_text bytes tokens.now) (statement n ∷ []) }
    ensures memory { TakesNoMemory result }
{
    let rest = expect_sign(SignKind::Semicolon, tokens)?;
    Ok((Stmt::Null, rest))
}

// A block.
#[cycle(statement)]
fn read_block<'a>(alloc: Global, input: Input<'a>, levels: usize) -> Read<'a, Stmt>
    ensures is { Gives result input.entry statement_tree (IsStatement all_limits levels) }
    ensures shorter { Shortens result input.entry }
    ensures reads { Leads result input.entry (statement levels ∷ []) [] }
    ensures halts { IsNext words.Begin (placed input.entry) →
        HaltsOn result input.entry (statement levels ∷ []) }
{
    let (_place, rest) = expect_word(WordKind::Begin, input.rest)?;
    let inside = deeper(levels, input.rest)?;
    let rest = behind_block_name(alloc, Input { rest, ..input })?;
    let (stmts, rest) = read_statements(alloc, Input { rest, ..input }, inside)?;
    Ok((Stmt::Block(stmts), rest))
}

// The statements of a block, and its `end`.
#[cycle(statement)]
fn read_statements<'a>(alloc: Global, input: Input<'a>, levels: usize) -> Read<'a, Vec<Stmt>>
    ensures is { GivesAs result input.entry (λ x.
        AreStatements all_limits levels (statements_of (statement_trees x.items))
        ⨾ a_word words.End) }
    ensures shorter { Shortens result input.entry }
    ensures reads { Leads result input.entry (symbol.statements levels ∷ []) [] }
    ensures halts { HaltsOn result input.entry (symbol.statements levels ∷ []) }
{
    let mut stmts = Vec::new(alloc);
    let mut rest = input.rest;
    loop {
        if let Some(after) = behind_word(WordKind::End, rest) {
            return Ok((stmts, after));
        }
        let (stmt, more) = read_statement(alloc, Input { rest, ..input }, levels)?;
        stmts.push(stmt)?;
        rest = more;
    }
}

// An `if`. An `else` belongs to the nearest `if` that is open.
#[cycle(statement)]
fn read_conditional<'a>(alloc: Global, input: Input<'a>, levels: usize) -> Read<'a, Stmt>
    ensures is { Gives result input.entry statement_tree (IsStatement all_limits levels) }
    ensures shorter { Shortens result input.entry }
    ensures reads { Leads result input.entry (statement levels ∷ []) [] }
    ensures halts { IsNext words.If (placed input.entry) →
        HaltsOn result input.entry (statement levels ∷ []) }
{
    let (place, rest) = expect_word(WordKind::If, input.rest)?;
    let inside = deeper(levels, input.rest)?;
    let (cond, rest) = read_in_parentheses(alloc, Input { rest, ..input }, inside)?;
    let (yes, rest) = read_statement(alloc, Input { rest, ..input }, inside)?;
    let Some(rest) = behind_word(WordKind::Else, rest) else {
        return Ok((if_only(alloc, place, cond, yes)?, rest));
    };
    let (no, rest) = read_statement(alloc, Input { rest, ..input }, inside)?;
    Ok((if_else(alloc, place, cond, yes, no)?, rest))
}

// A `case`.
#[cycle(statement)]
fn read_case<'a>(alloc: Global, input: Input<'a>, levels: usize) -> Read<'a, Stmt>
    ensures is { Gives result input.entry statement_tree (IsStatement all_limits levels) }
    ensures shorter { Shortens result input.entry }
    ensures reads { Leads result input.entry (statement levels ∷ []) [] }
    ensures halts { IsNext words.Case (placed input.entry) →
        HaltsOn result input.entry (statement levels ∷ []) }
{
    let (place, rest) = expect_word(WordKind::Case, input.rest)?;
    let inside = deeper(levels, input.rest)?;
    let (selector, rest) = read_in_parentheses(alloc, Input { rest, ..input }, inside)?;
    let (arms, rest) = read_arms(alloc, Input { rest, ..input }, inside)?;
    let stmt = Stmt::Case {
        place,
        selector,
        arms,
    };
    Ok((stmt, rest))
}

// The arms of a case, and its `endcase`.
#[cycle(statement)]
fn read_arms<'a>(alloc: Global, input: Input<'a>, levels: usize) -> Read<'a, Vec<Arm>>
    ensures is { GivesAs result input.entry (λ x.
        AreArms all_limits levels 0 false (arms_of (arm_trees x.items)) ⨾ a_word words.Endcase) }
    ensures shorter { Shortens result input.entry }
    ensures reads { Leads result input.entry (symbol.arms levels 0 false ∷ []) [] }
    ensures halts { HaltsOn result input.entry (symbol.arms levels 0 false ∷ []) }
{
    let mut arms = Vec::new(alloc);
    let mut has_default = false;
    let mut rest = input.rest;
    loop {
        let before = arms.len();
        if let Some(after) = behind_arms(before, rest) {
            return Ok((arms, after));
        }
        let (arm, more) = read_arm(alloc, Input { rest, ..input }, levels, before, has_default)?;
        has_default = is_default_behind(has_default, &arm);
        arms.push(arm)?;
        rest = more;
    }
}

// An arm behind so many others and perhaps a default.
#[cycle(statement)]
fn read_arm<'a>(
    alloc: Global,
    input: Input<'a>,
    levels: usize,
    before: usize,
    has_default: bool,
) -> Read<'a, Arm>
    ensures is { GivesAs result input.entry (λ x.
        IsArmHead all_limits levels has_default (arm_tree x).place (arm_tree x).items
        ⨾ IsStatement all_limits levels (arm_tree x).body) }
    ensures shorter { Shortens result input.entry }
    ensures few { OnOk result (before + 1 ≤ 256) }
    ensures reads { ArmComes before (placed input.entry) →
        IfOk result (λ x. Comes (symbol.arms levels before has_default ∷ [])
        (symbol.arms levels (before + 1) (has_default || is_default (arm_tree x.0).items) ∷ [])
        input.entry x.1.now) }
    ensures halts { ArmComes before (placed input.entry) →
        HaltsOn result input.entry (symbol.arms levels before has_default ∷ []) }
{
    let (place, items, rest) = read_arm_head(alloc, input, levels, before, has_default)?;
    let (body, rest) = read_statement(alloc, Input { rest, ..input }, levels)?;
    Ok((Arm { place, items, body }, rest))
}
