// Targets of assignments (IEEE 1364-2005, clause 9.2).
ghost use Rattle.std.specs.Prelude.{◌<◌, length, map, IfOk, [], ◌∷◌};
ghost use Rattle.sv_ast.specs.Tree.{TargetTree};
ghost use Rattle.sv_token.specs.declared.signs.SignKind.TheVariants as signs;
ghost use Rattle.sv_ast.specs.Views.{expression_tree, selection_of, target_tree};
ghost use Rattle.sv_ast.specs.GrammarForms.{◌⨾◌, a_sign};
ghost use Rattle.sv_ast.specs.GrammarExpressions.{IsExpression};
ghost use Rattle.sv_ast.specs.GrammarStatements.{IsSelection, IsTarget, AreTargets, BeginAt};
ghost use Rattle.sv_ast.specs.GrammarRules.{all_limits};
ghost use Rattle.sv_parse_machine.specs.Reads.{NextIsNotSign, NextIsTarget};
ghost use Rattle.sv_parse_machine.specs.StatementTable.{assignment_behind};
ghost use Rattle.sv_parse_machine.specs.Symbols.{outer, plain_name, perhaps_bits, bits_end};
ghost use Rattle.sv_parse_machine.specs.Symbols.{statement};
ghost use Rattle.sv_parse_expr.specs.Parses.{placed, GivesAs, Gives, GivesAll, Shortens, NoLonger};
ghost use Rattle.sv_parse_expr.specs.Parses.{Leads, HaltsOn};

use crate::closed::read_closed;
use std::alloc::Global;
use sv_ast::{Expr, Select, Target};
use sv_num::Place;
use sv_parse_expr::cursor::{behind, expect_sign, read_name};
use sv_parse_expr::expressions::read_expression;
use sv_parse_expr::lists::{Listed, ListedFromFirst, one, read_list};
use sv_parse_expr::stop::{Input, Read};
use sv_token::SignKind;

// The low bound of a part, from the `:` to the `]`.
fn read_low<'a>(alloc: Global, input: Input<'a>, levels: usize) -> Read<'a, Expr>
    ensures is { GivesAs result input.entry (λ x.
        a_sign signs.Colon ⨾ IsExpression all_limits levels (expression_tree x)
        ⨾ a_sign signs.CloseBracket) }
    ensures shorter { Shortens result input.entry }
    ensures reads { Leads result input.entry (bits_end levels ∷ []) [] }
    ensures halts { NextIsNotSign signs.CloseBracket (placed input.entry) →
        HaltsOn result input.entry (bits_end levels ∷ []) }
{
    let rest = expect_sign(SignKind::Colon, input.rest)?;
    let input = Input { rest, ..input };
    let (low, rest) = read_closed(alloc, input, levels, SignKind::CloseBracket)?;
    Ok((low, rest))
}

// The bits of a target.
fn read_select<'a>(alloc: Global, input: Input<'a>, levels: usize) -> Read<'a, Select>
    ensures is { Gives result input.entry selection_of (IsSelection all_limits levels) }
    ensures shorter { NoLonger result input.entry }
    ensures reads { Leads result input.entry (perhaps_bits levels ∷ []) [] }
    ensures halts { HaltsOn result input.entry (perhaps_bits levels ∷ []) }
{
    let Some(rest) = behind(SignKind::OpenBracket, input.rest) else {
        return Ok((Select::Whole, input.rest));
    };
    let (first, rest) = read_expression(alloc, Input { rest, ..input }, levels)?;
    if let Some(after) = behind(SignKind::CloseBracket, rest) {
        return Ok((Select::Bit(first), after));
    }
    let (low, rest) = read_low(alloc, Input { rest, ..input }, levels)?;
    Ok((Select::Part(first, low), rest))
}

// A target of an assignment in a statement.
fn read_target<'a>(alloc: Global, input: Input<'a>, levels: usize) -> Read<'a, Target>
    ensures is { Gives result input.entry target_tree (IsTarget all_limits levels) }
    ensures shorter { Shortens result input.entry }
    ensures reads { Leads result input.entry (plain_name ∷ perhaps_bits levels ∷ []) [] }
    ensures halts { HaltsOn result input.entry (plain_name ∷ perhaps_bits levels ∷ []) }
{
    let (name, place, rest) = read_name(alloc, input)?;
    let (select, rest) = read_select(alloc, Input { rest, ..input }, levels)?;
    let target = Target {
        name,
        place,
        select,
    };
    Ok((target, rest))
}

// Targets of an assignment in a statement.
struct Targets;

impl Listed for Targets {
    type Item = Target;

    ghost Tree = { TargetTree };

    ghost tree = { target_tree };

    ghost First = { IsTarget all_limits };

    ghost Later = { λ n before. IsTarget all_limits n };

    ghost next = { λ n. outer plain_name ∷ outer (perhaps_bits n) ∷ [] };

    fn later<'a>(
        alloc: Global,
        input: Input<'a>,
        levels: usize,
        _before: &Target,
    ) -> Read<'a, Target> {
        read_target(alloc, input, levels)
    }
}

impl ListedFromFirst for Targets {
    ghost Begins = { λ ts. Unit {0} };

    ghost start = { λ n. outer plain_name ∷ outer (perhaps_bits n) ∷ [] };

    ghost behind = { λ n. [] };

    fn first<'a>(alloc: Global, input: Input<'a>, levels: usize) -> Read<'a, Target> {
        read_target(alloc, input, levels)
    }
}

/// The targets of an assignment in a statement: one, or several in braces.
pub fn read_targets<'a>(alloc: Global, input: Input<'a>, levels: usize) -> Read<'a, Vec<Target>>
    ensures is { GivesAll result input.entry target_tree (AreTargets (IsTarget all_limits levels)) }
    ensures shorter { Shortens result input.entry }
    ensures some { IfOk result (λ x. 0 < length x.0.items) }
    ensures reads { NextIsTarget (placed input.entry) →
        Leads result input.entry (statement levels ∷ []) (assignment_behind levels) }
    ensures halts { NextIsTarget (placed input.entry) →
        HaltsOn result input.entry (statement levels ∷ []) }
{
    if let Some(rest) = behind(SignKind::OpenBrace, input.rest) {
        let (targets, rest) = read_list::<Targets>(alloc, Input { rest, ..input }, levels)?;
        let rest = expect_sign(SignKind::CloseBrace, rest)?;
        return Ok((targets, rest));
    }
    let (only, rest) = read_target(alloc, input, levels)?;
    Ok((one(alloc, only)?, rest))
}

/// The place of the first of some targets.
pub fn first_place(targets: &[Target]) -> Place
    requires { 0 < length targets.now }
    ensures { BeginAt result (map target_tree targets.now) }
{
    targets[0].place
}
