// What stands before the statement of an arm (IEEE 1364-2005, clause 9.5).
ghost use Rattle.std.specs.Prelude.{◌≡◌, ◌+◌, ◌<◌, ◌≤◌, Bool, false, ◌||◌, ℕ, List, length, IfOk};
ghost use Rattle.std.specs.Prelude.{OnOk, [], ◌∷◌};
ghost use Rattle.sv_token.specs.Lexemes.{placed_tokens};
ghost use Rattle.sv_token.specs.declared.signs.SignKind.TheVariants as signs;
ghost use Rattle.sv_token.specs.declared.keywords.WordKind.TheVariants as words;
ghost use Rattle.sv_ast.specs.Views.{expression_tree, expression_trees};
ghost use Rattle.sv_ast.specs.GrammarForms.{◌⨾◌, a_sign, commas, optional};
ghost use Rattle.sv_ast.specs.GrammarExpressions.{IsExpression};
ghost use Rattle.sv_ast.specs.GrammarStatements.{IsNext, IsArmHead, is_default};
ghost use Rattle.sv_ast.specs.GrammarRules.{all_limits};
ghost use Rattle.sv_parse_machine.specs.Symbols.{outer, arms, perhaps_colon};
ghost use Rattle.sv_parse_machine.specs.Reads.{Reads, NextIsNotWord};
ghost use Rattle.sv_parse_expr.specs.Parses.{placed, in_text, Stands, Comes, GivesAs, Gives};
ghost use Rattle.sv_parse_expr.specs.Parses.{Shortens, LeadsBy, HaltsOn, TakesNoMemory};
ghost use Rattle.sv_parse_stmt.specs.ReadingArms.{ArmComes, behind_arm, behind_items};

use std::alloc::Global;
use sv_ast::Expr;
use sv_num::Place;
use sv_parse_expr::cursor::{behind, expect_sign, unexpected, word_at};
use sv_parse_expr::expressions::{read_expression, read_expression_too_many};
use sv_parse_expr::lists::{Expressions, read_list_from};
use sv_parse_expr::room::MOST_ARMS;
use sv_parse_expr::stop::{GrammarBreach, Input, Read, Stop};
use sv_token::{SignKind, Token, WordKind};

// The first item of an arm behind so many others.
fn read_first_item<'a>(
    alloc: Global,
    input: Input<'a>,
    levels: usize,
    before: usize,
) -> Read<'a, Expr>
    ensures is { Gives result input.entry expression_tree (IsExpression all_limits levels) }
    ensures shorter { Shortens result input.entry }
    ensures few { OnOk result (before + 1 ≤ 256) }
    ensures reads { (default : Bool) → ArmComes before (placed input.entry) →
        NextIsNotWord words.Default (placed input.entry) →
        LeadsBy result input.entry
        (outer (arms levels before default) ∷ []) (behind_items levels before default) }
    ensures halts { (default : Bool) → ArmComes before (placed input.entry) →
        NextIsNotWord words.Default (placed input.entry) →
        HaltsOn result input.entry (arms levels before default ∷ []) }
{
    if before < MOST_ARMS {
        let (item, rest) = read_expression(alloc, input, levels)?;
        return Ok((item, rest));
    }
    let (item, rest) = read_expression_too_many(alloc, input, levels)?;
    Ok((item, rest))
}

// The items of an arm behind so many others, up to its `:`.
fn read_items<'a>(
    alloc: Global,
    input: Input<'a>,
    levels: usize,
    before: usize,
) -> Read<'a, Vec<Expr>>
    ensures is { GivesAs result input.entry (λ x.
        commas (IsExpression all_limits levels) (expression_trees x.items) ⨾ a_sign signs.Colon) }
    ensures shorter { Shortens result input.entry }
    ensures few { OnOk result (before + 1 ≤ 256) }
    ensures reads { (default : Bool) → ArmComes before (placed input.entry) →
        NextIsNotWord words.Default (placed input.entry) →
        LeadsBy result input.entry
        (outer (arms levels before default) ∷ []) (behind_arm levels before default) }
    ensures halts { (default : Bool) → ArmComes before (placed input.entry) →
        NextIsNotWord words.Default (placed input.entry) →
        HaltsOn result input.entry (arms levels before default ∷ []) }
{
    let (first, rest) = read_first_item(alloc, input, levels, before)?;
    let input = Input { rest, ..input };
    let (items, rest) = read_list_from::<Expressions>(alloc, input, levels, first)?;
    let rest = expect_sign(SignKind::Colon, rest)?;
    Ok((items, rest))
}

// The items of an arm with the place of its first token.
fn read_placed_items<'a>(
    alloc: Global,
    input: Input<'a>,
    levels: usize,
    before: usize,
) -> Result<(Place, Vec<Expr>, &'a [Token]), Stop>
    ensures is { IfOk result (λ x.
        Stands (IsArmHead all_limits levels false x.0 (expression_trees x.1.items))
        input.entry x.2.now) }
    ensures shorter { IfOk result (λ x. length x.2.now < length input.entry.rest.now) }
    ensures few { OnOk result (before + 1 ≤ 256) }
    ensures items { IfOk result (λ x. is_default (expression_trees x.1.items) ≡ false) }
    ensures reads { (default : Bool) → ArmComes before (placed input.entry) →
        NextIsNotWord words.Default (placed input.entry) →
        IfOk result (λ x. Reads (outer (arms levels before default) ∷ [])
        (behind_arm levels before default) (placed input.entry)
        (placed_tokens input.entry.bytes.now x.2.now)) }
    ensures halts { (default : Bool) → ArmComes before (placed input.entry) →
        NextIsNotWord words.Default (placed input.entry) →
        HaltsOn result input.entry (arms levels before default ∷ []) }
{
    let tokens = input.rest;
    let [first, ..] = tokens else {
        return Err(unexpected(tokens));
    };
    let (items, rest) = read_items(alloc, input, levels, before)?;
    Ok((first.place, items, rest))
}

// The tokens behind the `:`, if one comes.
fn behind_colon(tokens: &[Token]) -> &[Token]
    ensures is { (bytes : List ℕ) →
        Stands (optional (a_sign signs.Colon)) (in_text bytes tokens.now) result.now }
    ensures shorter { length result.now ≤ length tokens.now }
    ensures reads { (bytes : List ℕ) →
        Comes (perhaps_colon ∷ []) [] (in_text bytes tokens.now) result.now }
{
    match behind(SignKind::Colon, tokens) {
        Some(rest) => rest,
        None => tokens,
    }
}

// Nothing, where the `default` that comes may stand behind so many arms and perhaps a default.
fn allow_default(before: usize, has_default: bool, tokens: &[Token]) -> Result<(), Stop>
    ensures few { OnOk result (before + 1 ≤ 256) }
    ensures first { OnOk result (has_default ≡ false) }
    ensures halts { (bytes : List ℕ) (n : ℕ) →
        IsNext words.Default (placed_tokens bytes tokens.now) →
        HaltsOn result (in_text bytes tokens.now) (arms n before has_default ∷ []) }
    ensures memory { TakesNoMemory result }
{
    if has_default {
        return Err(unexpected(tokens));
    }
    if before >= MOST_ARMS {
        return Err(Stop::Broken(GrammarBreach::TooLong, tokens.len()));
    }
    Ok(())
}

/// The place of an arm behind so many others and perhaps a default, its items, none of the default,
/// and the tokens of its statement.
pub fn read_arm_head<'a>(
    alloc: Global,
    input: Input<'a>,
    levels: usize,
    before: usize,
    has_default: bool,
) -> Result<(Place, Vec<Expr>, &'a [Token]), Stop>
    ensures is { IfOk result (λ x.
        Stands (IsArmHead all_limits levels has_default x.0 (expression_trees x.1.items))
        input.entry x.2.now) }
    ensures shorter { IfOk result (λ x. length x.2.now < length input.entry.rest.now) }
    ensures few { OnOk result (before + 1 ≤ 256) }
    ensures reads { ArmComes before (placed input.entry) →
        IfOk result (λ x. Reads (outer (arms levels before has_default) ∷ [])
        (behind_arm levels before (has_default || is_default (expression_trees x.1.items)))
        (placed input.entry) (placed_tokens input.entry.bytes.now x.2.now)) }
    ensures halts { ArmComes before (placed input.entry) →
        HaltsOn result input.entry (arms levels before has_default ∷ []) }
{
    match word_at(WordKind::Default, input.rest) {
        Some((place, rest)) => {
            allow_default(before, has_default, input.rest)?;
            Ok((place, Vec::new(alloc), behind_colon(rest)))
        }
        None => {
            let (place, items, rest) = read_placed_items(alloc, input, levels, before)?;
            Ok((place, items, rest))
        }
    }
}
