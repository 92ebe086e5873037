// Items of modules.
ghost use Rattle.std.specs.Prelude.{[], ◌∷◌};
ghost use Rattle.std.specs.Option.{option_map};
ghost use Rattle.sv_ast.specs.Views.{placed_name, item_tree};
ghost use Rattle.sv_ast.specs.GrammarModules.{IsEvent, IsAlways};
ghost use Rattle.sv_ast.specs.GrammarModules.{IsInvariant, IsListedItem, IsItem};
ghost use Rattle.sv_ast.specs.GrammarRules.{all_limits};
ghost use Rattle.sv_ast.specs.GrammarStatements.{IsNext, only};
ghost use Rattle.sv_parse.specs.Reading.{LeadsToEnd};
ghost use Rattle.sv_parse.specs.ReadingItems.{IsOpenEvent};
ghost use Rattle.sv_parse_machine.specs.Symbols.{items, event, event_inside};
ghost use Rattle.sv_parse_machine.specs.Reads.{NextIsNotWord};
ghost use Rattle.sv_parse_expr.specs.Parses.{placed, Gives, GivesAll, Shortens, Leads, HaltsOn};

use crate::declarations::read_wires;
use crate::instances::read_instances;
use crate::parameters::read_params;
use crate::registers::read_registers;
use std::alloc::Global;
use sv_ast::Item;
use sv_num::{BinOp, Name, Place};
use sv_parse_expr::cursor::{behind, behind_word, expect_sign, expect_word, stuck, unexpected};
use sv_parse_expr::expressions::read_expression;
use sv_parse_expr::lists::one;
use sv_parse_expr::operators::operator_at;
use sv_parse_expr::stop::{Expected, Input, Read};
use sv_parse_stmt::assignments::read_assigned;
use sv_parse_stmt::closed::read_closed_name;
use sv_parse_stmt::statements::read_statement;
use sv_token::{SignKind, TokenKind, WordKind};

// What wakes a process, behind its `@` and `(`.
fn read_open_event<'a>(alloc: Global, input: Input<'a>) -> Read<'a, Option<(Name, Place)>>
    ensures is { Gives result input.entry (option_map placed_name) IsOpenEvent }
    ensures shorter { Shortens result input.entry }
    ensures reads { Leads result input.entry (event_inside ∷ []) [] }
    ensures halts { HaltsOn result input.entry (event_inside ∷ []) }
{
    if let Some(rest) = behind_word(WordKind::Posedge, input.rest) {
        let (name, place, rest) = read_closed_name(alloc, Input { rest, ..input })?;
        return Ok((Some((name, place)), rest));
    }
    match operator_at(BinOp::Mul, input.rest) {
        Some(rest) => {
            let rest = expect_sign(SignKind::CloseParenthesis, rest)?;
            Ok((None, rest))
        }
        None => Err(stuck(Expected::Edge, input.rest)),
    }
}

// What wakes a process, behind its `@`.
fn read_event<'a>(alloc: Global, input: Input<'a>) -> Read<'a, Option<(Name, Place)>>
    ensures is { Gives result input.entry (option_map placed_name) IsEvent }
    ensures shorter { Shortens result input.entry }
    ensures reads { Leads result input.entry (event ∷ []) [] }
    ensures halts { HaltsOn result input.entry (event ∷ []) }
{
    if let Some(rest) = behind(SignKind::OpenParenthesis, input.rest) {
        let (event, rest) = read_open_event(alloc, Input { rest, ..input })?;
        return Ok((event, rest));
    }
    match operator_at(BinOp::Mul, input.rest) {
        Some(rest) => Ok((None, rest)),
        None => Err(unexpected(input.rest)),
    }
}

// A process.
fn read_process<'a>(alloc: Global, input: Input<'a>) -> Read<'a, Item>
    ensures is { Gives result input.entry item_tree (IsAlways all_limits) }
    ensures shorter { Shortens result input.entry }
    ensures reads { IsNext WordKind.Always (placed input.entry) →
        Leads result input.entry (items ∷ []) (items ∷ []) }
    ensures halts { IsNext WordKind.Always (placed input.entry) →
        HaltsOn result input.entry (items ∷ []) }
{
    let (place, rest) = expect_word(WordKind::Always, input.rest)?;
    let rest = expect_sign(SignKind::At, rest)?;
    let (clock, rest) = read_event(alloc, Input { rest, ..input })?;
    let (body, rest) = read_statement(alloc, Input { rest, ..input }, 0)?;
    Ok((Item::Always { place, clock, body }, rest))
}

// The one item that says what always holds, with the place of the expression.
fn read_invariant<'a>(alloc: Global, input: Input<'a>) -> Read<'a, Vec<Item>>
    ensures is { GivesAll result input.entry item_tree (only (IsInvariant all_limits)) }
    ensures shorter { Shortens result input.entry }
    ensures reads { IsNext WordKind.Invariant (placed input.entry) → LeadsToEnd result input.entry }
    ensures halts { IsNext WordKind.Invariant (placed input.entry) →
        HaltsOn result input.entry (items ∷ []) }
{
    let (_place, rest) = expect_word(WordKind::Invariant, input.rest)?;
    let (expr, rest) = read_expression(alloc, Input { rest, ..input }, 0)?;
    let item = Item::Invariant(expr.place(), expr);
    Ok((one(alloc, item)?, rest))
}

// The items up to a `;`.
fn read_listed_item<'a>(alloc: Global, input: Input<'a>) -> Read<'a, Vec<Item>>
    ensures is { GivesAll result input.entry item_tree (IsListedItem all_limits) }
    ensures shorter { Shortens result input.entry }
    ensures reads { NextIsNotWord WordKind.Always (placed input.entry) →
        NextIsNotWord WordKind.Endmodule (placed input.entry) →
        LeadsToEnd result input.entry }
    ensures halts { NextIsNotWord WordKind.Always (placed input.entry) →
        NextIsNotWord WordKind.Endmodule (placed input.entry) →
        HaltsOn result input.entry (items ∷ []) }
{
    let tokens = input.rest;
    let [first, ..] = tokens else {
        return Err(stuck(Expected::Item, tokens));
    };
    match first.kind {
        TokenKind::Word(WordKind::Parameter | WordKind::Localparam) => { read_params(alloc, input) }
        TokenKind::Word(WordKind::Wire) => read_wires(alloc, input),
        TokenKind::Word(WordKind::Reg) => read_registers(alloc, input),
        TokenKind::Word(WordKind::Assign) => read_assigned(alloc, input),
        TokenKind::Word(WordKind::Invariant) => read_invariant(alloc, input),
        TokenKind::Name => read_instances(alloc, input),
        _ => Err(stuck(Expected::Item, tokens)),
    }
}

/// An item of the text, and the tokens behind it: an item of the tree for each name that it has.
pub fn read_item<'a>(alloc: Global, input: Input<'a>) -> Read<'a, Vec<Item>>
    ensures is { GivesAll result input.entry item_tree (IsItem all_limits) }
    ensures shorter { Shortens result input.entry }
    ensures reads { NextIsNotWord WordKind.Endmodule (placed input.entry) →
        Leads result input.entry (items ∷ []) (items ∷ []) }
    ensures halts { NextIsNotWord WordKind.Endmodule (placed input.entry) →
        HaltsOn result input.entry (items ∷ []) }
{
    match behind_word(WordKind::Always, input.rest) {
        Some(_) => {
            let (item, rest) = read_process(alloc, input)?;
            let items = one(alloc, item)?;
            Ok((items, rest))
        }
        None => {
            let (items, rest) = read_listed_item(alloc, input)?;
            let rest = expect_sign(SignKind::Semicolon, rest)?;
            Ok((items, rest))
        }
    }
}
