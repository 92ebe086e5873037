// Items that begin with `assign` (IEEE 1364-2005, clause 6.1; releases are this project's profile).
ghost use Rattle.std.specs.Prelude.{◌<◌, length, map, IfOk, [], ◌∷◌};
ghost use Rattle.sv_ast.specs.Tree.{TargetTree, ItemTree};
ghost use Rattle.sv_ast.specs.Views.{target_tree, item_tree};
ghost use Rattle.sv_ast.specs.GrammarForms.{◌or◌};
ghost use Rattle.sv_token.specs.declared.signs.SignKind.TheVariants as signs;
ghost use Rattle.sv_token.specs.declared.keywords.WordKind.TheVariants as words;
ghost use Rattle.sv_ast.specs.GrammarStatements.{AreTargets, IsNext, only};
ghost use Rattle.sv_ast.specs.GrammarModules.{IsWholeTarget, IsContinuous, AreContinuous};
ghost use Rattle.sv_ast.specs.GrammarModules.{IsReleased};
ghost use Rattle.sv_ast.specs.GrammarRules.{all_limits};
ghost use Rattle.sv_parse_machine.specs.Symbols.{outer, punctuation, plain_name, expression, items};
ghost use Rattle.sv_parse_machine.specs.Symbols.{assigned, later_assigned};
ghost use Rattle.sv_parse_machine.specs.Reads.{NextIsNotSign};
ghost use Rattle.sv_parse_expr.specs.Parses.{placed, GivesAs, Gives, GivesAll, Shortens, LeadsBy};
ghost use Rattle.sv_parse_expr.specs.Parses.{Leads, HaltsBy, HaltsOn};
ghost use Rattle.sv_parse_stmt.specs.ReadingAssignments.{AssignsTo, ReleasesAs, IsAssignEnd};
ghost use Rattle.sv_parse_stmt.specs.ReadingAssignments.{behind_targets, behind_release};

use crate::closed::{read_closed, read_closed_name};
use crate::targets::first_place;
use std::alloc::Global;
use sv_ast::{Item, Select, Target};
use sv_num::{Name, Place};
use sv_parse_expr::cursor::{behind, behind_word, expect_sign, expect_word, read_name};
use sv_parse_expr::expressions::read_expression;
use sv_parse_expr::lists::{Listed, ListedFromFirst, one, read_list, read_list_from};
use sv_parse_expr::stop::{Input, Read};
use sv_token::{SignKind, WordKind};

// A whole signal as target.
fn read_whole_target<'a>(alloc: Global, input: Input<'a>) -> Read<'a, Target>
    ensures is { Gives result input.entry target_tree IsWholeTarget }
    ensures shorter { Shortens result input.entry }
    ensures reads { Leads result input.entry (plain_name ∷ []) [] }
    ensures halts { HaltsOn result input.entry (plain_name ∷ []) }
{
    let (name, place, rest) = read_name(alloc, input)?;
    let target = Target {
        name,
        place,
        select: Select::Whole,
    };
    Ok((target, rest))
}

// Whole signals as targets.
struct WholeTargets;

impl Listed for WholeTargets {
    type Item = Target;

    ghost Tree = { TargetTree };

    ghost tree = { target_tree };

    ghost First = { λ n. IsWholeTarget };

    ghost Later = { λ n before. IsWholeTarget };

    ghost next = { λ n. outer plain_name ∷ [] };

    fn later<'a>(
        alloc: Global,
        input: Input<'a>,
        _open: usize,
        _before: &Target,
    ) -> Read<'a, Target> {
        read_whole_target(alloc, input)
    }
}

impl ListedFromFirst for WholeTargets {
    ghost Begins = { λ ts. Unit {0} };

    ghost start = { λ n. outer plain_name ∷ [] };

    ghost behind = { λ n. [] };

    fn first<'a>(alloc: Global, input: Input<'a>, _open: usize) -> Read<'a, Target> {
        read_whole_target(alloc, input)
    }
}

// The targets of an assignment of the item: one, or several in braces.
fn read_whole_targets<'a>(alloc: Global, input: Input<'a>) -> Read<'a, Vec<Target>>
    ensures is { GivesAll result input.entry target_tree (AreTargets IsWholeTarget) }
    ensures shorter { Shortens result input.entry }
    ensures some { IfOk result (λ x. 0 < length x.0.items) }
    ensures reads { LeadsBy result input.entry (outer later_assigned ∷ []) behind_targets }
    ensures halts { HaltsOn result input.entry (later_assigned ∷ []) }
{
    if let Some(rest) = behind(SignKind::OpenBrace, input.rest) {
        let (targets, rest) = read_list::<WholeTargets>(alloc, Input { rest, ..input }, 0)?;
        let rest = expect_sign(SignKind::CloseBrace, rest)?;
        return Ok((targets, rest));
    }
    let (only, rest) = read_whole_target(alloc, input)?;
    Ok((one(alloc, only)?, rest))
}

// The value of an assignment to the targets, behind its `=`.
fn read_valued<'a>(alloc: Global, input: Input<'a>, targets: Vec<Target>) -> Read<'a, Item>
    requires { 0 < length targets.items }
    ensures is { Gives result input.entry item_tree (AssignsTo (map target_tree targets.items)) }
    ensures shorter { Shortens result input.entry }
    ensures reads { Leads result input.entry (expression 0 ∷ []) [] }
    ensures halts { HaltsOn result input.entry (expression 0 ∷ []) }
{
    let place = first_place(&targets);
    let (value, rest) = read_expression(alloc, input, 0)?;
    let item = Item::Assign {
        targets,
        place,
        value,
    };
    Ok((item, rest))
}

// An assignment of the item.
fn read_assignment<'a>(alloc: Global, input: Input<'a>) -> Read<'a, Item>
    ensures is { Gives result input.entry item_tree (IsContinuous all_limits) }
    ensures shorter { Shortens result input.entry }
    ensures reads { Leads result input.entry (later_assigned ∷ []) [] }
    ensures halts { HaltsOn result input.entry (later_assigned ∷ []) }
{
    let (targets, rest) = read_whole_targets(alloc, input)?;
    let rest = expect_sign(SignKind::Equals, rest)?;
    let (item, rest) = read_valued(alloc, Input { rest, ..input }, targets)?;
    Ok((item, rest))
}

// The assignments of an item.
struct Assignments;

impl Listed for Assignments {
    type Item = Item;

    ghost Tree = { ItemTree };

    ghost tree = { item_tree };

    ghost First = { λ n. IsContinuous all_limits };

    ghost Later = { λ n before. IsContinuous all_limits };

    ghost next = { λ n. outer later_assigned ∷ [] };

    fn later<'a>(alloc: Global, input: Input<'a>, _open: usize, _before: &Item) -> Read<'a, Item> {
        read_assignment(alloc, input)
    }
}

impl ListedFromFirst for Assignments {
    ghost Begins = { λ ts. Unit {0} };

    ghost start = { λ n. outer later_assigned ∷ [] };

    ghost behind = { λ n. [] };

    fn first<'a>(alloc: Global, input: Input<'a>, _open: usize) -> Read<'a, Item> {
        read_assignment(alloc, input)
    }
}

// What is released to a point, behind the word.
fn read_released<'a>(alloc: Global, input: Input<'a>, target: Name, place: Place) -> Read<'a, Item>
    ensures is { Gives result input.entry item_tree
        (ReleasesAs (record { name = target; place = place })) }
    ensures shorter { Shortens result input.entry }
    ensures reads { LeadsBy result input.entry behind_release [] }
    ensures halts { HaltsBy result input.entry behind_release }
{
    let rest = expect_sign(SignKind::OpenParenthesis, input.rest)?;
    let (value, rest) = read_closed(alloc, Input { rest, ..input }, 0, SignKind::Comma)?;
    let (point, point_place, rest) = read_closed_name(alloc, Input { rest, ..input })?;
    let item = Item::Release {
        target,
        place,
        value,
        point,
        point_place,
    };
    Ok((item, rest))
}

// The items behind `assign` where the first target is in no braces.
fn read_named_first<'a>(alloc: Global, input: Input<'a>) -> Read<'a, Vec<Item>>
    ensures is { GivesAll result input.entry item_tree IsAssignEnd }
    ensures shorter { Shortens result input.entry }
    ensures reads { NextIsNotSign signs.OpenBrace (placed input.entry) →
        Leads result input.entry (assigned ∷ []) (punctuation signs.Semicolon ∷ []) }
    ensures halts { NextIsNotSign signs.OpenBrace (placed input.entry) →
        HaltsOn result input.entry (assigned ∷ []) }
{
    let (name, place, rest) = read_name(alloc, input)?;
    let rest = expect_sign(SignKind::Equals, rest)?;
    if let Some(rest) = behind_word(WordKind::Release, rest) {
        let (item, rest) = read_released(alloc, Input { rest, ..input }, name, place)?;
        return Ok((one(alloc, item)?, rest));
    }
    let target = Target {
        name,
        place,
        select: Select::Whole,
    };
    let (first, rest) = read_valued(alloc, Input { rest, ..input }, one(alloc, target)?)?;
    let (items, rest) = read_list_from::<Assignments>(alloc, Input { rest, ..input }, 0, first)?;
    Ok((items, rest))
}

/// The assignments of an item that begins with `assign`, or its release.
pub fn read_assigned<'a>(alloc: Global, input: Input<'a>) -> Read<'a, Vec<Item>>
    ensures is { GivesAs result input.entry (λ x.
        AreContinuous all_limits (map item_tree x.items)
        or only (IsReleased all_limits) (map item_tree x.items)) }
    ensures shorter { Shortens result input.entry }
    ensures reads { IsNext words.Assign (placed input.entry) →
        Leads result input.entry (items ∷ []) (punctuation signs.Semicolon ∷ items ∷ []) }
    ensures halts { IsNext words.Assign (placed input.entry) →
        HaltsOn result input.entry (items ∷ []) }
{
    let (_place, rest) = expect_word(WordKind::Assign, input.rest)?;
    match behind(SignKind::OpenBrace, rest) {
        Some(_) => {
            let (items, rest) = read_list::<Assignments>(alloc, Input { rest, ..input }, 0)?;
            Ok((items, rest))
        }
        None => {
            let (items, rest) = read_named_first(alloc, Input { rest, ..input })?;
            Ok((items, rest))
        }
    }
}
