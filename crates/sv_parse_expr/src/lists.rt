// Lists of members with commas between them.
ghost use Rattle.std.specs.Prelude.{◌≡◌, ℕ, List, [], ◌∷◌, ◌++◌, IfOk};
ghost use Rattle.sv_token.specs.Lexemes.{Placed, placed_tokens};
ghost use Rattle.sv_ast.specs.Tree.{ExpressionTree};
ghost use Rattle.sv_ast.specs.Views.{expression_tree};
ghost use Rattle.sv_ast.specs.GrammarForms.{listed};
ghost use Rattle.sv_ast.specs.GrammarExpressions.{IsExpression};
ghost use Rattle.sv_ast.specs.GrammarRules.{all_limits};
ghost use Rattle.sv_parse_expr.specs.Reading.{AreLater};
ghost use Rattle.sv_parse_machine.specs.Symbols.{State, outer, expression};
ghost use Rattle.sv_parse_machine.specs.Reads.{GoesOn, NextIsNotSign};
ghost use Rattle.sv_parse_expr.specs.Parses.{placed, Gives, GivesAll, Shortens, NoLonger, LeadsBy};
ghost use Rattle.sv_parse_expr.specs.Parses.{HaltsBy};

use crate::cursor::behind;
use crate::expressions::read_expression;
use crate::stop::{Input, Read};
use std::alloc::{AllocError, Global};
use sv_ast::Expr;
use sv_token::SignKind;

/// A kind of list, by the forms of its first member and of those behind a comma, and by how the
/// latter are read.
pub trait Listed {
    /// What an item of the list is read as.
    type Item: Drop;

    ghost Tree: { Type 0 };

    ghost tree: { Self.Item → Tree };

    ghost First: { ℕ → Tree → List Placed → List Placed → Type 0 };

    ghost Later: { ℕ → Tree → Tree → List Placed → List Placed → Type 0 };

    ghost next: { ℕ → State };

    /// A member behind another one, and the tokens behind it.
    fn later<'a>(
        alloc: Global,
        input: Input<'a>,
        levels: usize,
        before: &Self::Item,
    ) -> Read<'a, Self::Item>
        ensures reads { LeadsBy result input.entry (next levels) [] }
        ensures halts { HaltsBy result input.entry (next levels) }
        ensures is { Gives result input.entry tree (Later levels (tree before.now)) }
        ensures shorter { Shortens result input.entry };
}

/// A kind of list that is read from its first member on, and not only behind one.
pub trait ListedFromFirst: Listed {
    ghost Begins: { List Placed → Type 0 };

    ghost start: { ℕ → State };

    ghost behind: { ℕ → State };

    /// The first member, and the tokens behind it.
    fn first<'a>(alloc: Global, input: Input<'a>, levels: usize) -> Read<'a, Self::Item>
        ensures is { Gives result input.entry Self.tree (Self.First levels) }
        ensures reads { Begins (placed input.entry) →
            LeadsBy result input.entry (start levels) (behind levels) }
        ensures halts { Begins (placed input.entry) → HaltsBy result input.entry (start levels) }
        ensures shorter { Shortens result input.entry };
}

/// A list of one member.
pub fn one<T: Drop>(alloc: Global, item: T) -> Result<Vec<T>, AllocError>
    ensures { IfOk result (λ items. items.items ≡ item ∷ []) }
{
    let mut items = Vec::new(alloc);
    items.push(item)?;
    Ok(items)
}

/// The members of a list of which the first is read already.
pub fn read_list_from<'a, M: Listed>(
    alloc: Global,
    input: Input<'a>,
    levels: usize,
    first: M::Item,
) -> Read<'a, Vec<M::Item>>
    ensures is { GivesAll result input.entry M.tree
        (AreLater M.Tree (M.Later levels) (M.tree first)) }
    ensures shorter { NoLonger result input.entry }
    ensures reads { (more : State) → GoesOn more (M.next levels) →
        LeadsBy result input.entry more more }
    ensures halts { (more : State) → GoesOn more (M.next levels) →
        HaltsBy result input.entry more }
    ensures ends { IfOk result (λ x.
        NextIsNotSign SignKind.Comma (placed_tokens input.entry.bytes.now x.1.now)) }
{
    let mut items = Vec::new(alloc);
    let mut before = first;
    let mut rest = input.rest;
    while let Some(after) = behind(SignKind::Comma, rest) {
        rest = after;
        let (next, more) = M::later(alloc, Input { rest, ..input }, levels, &before)?;
        items.push(before)?;
        before = next;
        rest = more;
    }
    items.push(before)?;
    Ok((items, rest))
}

/// The members of a list, at least one, and the tokens behind them.
pub fn read_list<'a, M: ListedFromFirst>(
    alloc: Global,
    input: Input<'a>,
    levels: usize,
) -> Read<'a, Vec<M::Item>>
    ensures is { GivesAll result input.entry M.tree (listed (M.First levels) (M.Later levels)) }
    ensures shorter { Shortens result input.entry }
    ensures reads { (more others : State) → GoesOn more (M.next levels) →
        M.behind levels ++ others ≡ more → M.Begins (placed input.entry) →
        LeadsBy result input.entry (M.start levels ++ others) more }
    ensures halts { (more others : State) → GoesOn more (M.next levels) →
        M.behind levels ++ others ≡ more → M.Begins (placed input.entry) →
        HaltsBy result input.entry (M.start levels ++ others) }
    ensures ends { IfOk result (λ x.
        NextIsNotSign SignKind.Comma (placed_tokens input.entry.bytes.now x.1.now)) }
{
    let (first, rest) = M::first(alloc, input, levels)?;
    let (items, rest) = read_list_from::<M>(alloc, Input { rest, ..input }, levels, first)?;
    Ok((items, rest))
}

/// Expressions, of which none stands in another.
pub struct Expressions;

impl Listed for Expressions {
    type Item = Expr;

    ghost Tree = { ExpressionTree };

    ghost tree = { expression_tree };

    ghost First = { λ n. IsExpression all_limits n };

    ghost Later = { λ n before. IsExpression all_limits n };

    ghost next = { λ n. outer (expression n) ∷ [] };

    fn later<'a>(alloc: Global, input: Input<'a>, levels: usize, _before: &Expr) -> Read<'a, Expr> {
        read_expression(alloc, input, levels)
    }
}

impl ListedFromFirst for Expressions {
    ghost Begins = { λ ts. Unit {0} };

    ghost start = { λ n. outer (expression n) ∷ [] };

    ghost behind = { λ n. [] };

    fn first<'a>(alloc: Global, input: Input<'a>, levels: usize) -> Read<'a, Expr> {
        read_expression(alloc, input, levels)
    }
}
