// Instances (IEEE 1364-2005, clause 12).
ghost use Rattle.std.specs.Prelude.{◌≡◌, ◌<◌, length, map, IfOk, [], ◌∷◌};
ghost use Rattle.std.specs.Option.{option_map};
ghost use Rattle.sv_token.specs.declared.signs.SignKind.TheVariants as signs;
ghost use Rattle.sv_ast.specs.Tree as tree;
ghost use Rattle.sv_ast.specs.Tree.{NamedOverride, NamedLink, InstanceTree};
ghost use Rattle.sv_ast.specs.Views.{expression_tree, named_override};
ghost use Rattle.sv_ast.specs.Views.{override_trees, named_link, link_trees, instance_tree};
ghost use Rattle.sv_ast.specs.Views.{item_tree};
ghost use Rattle.sv_ast.specs.GrammarForms.{◌⨾◌, given, perhaps, name_at, a_sign};
ghost use Rattle.sv_ast.specs.GrammarDeclarations.{IsValue};
ghost use Rattle.sv_ast.specs.GrammarModules.{IsNamedOverride, AreOverrides, IsNamedLink, AreLinks};
ghost use Rattle.sv_ast.specs.GrammarModules.{IsNamedInstance, IsInstance, AreOfOneModule};
ghost use Rattle.sv_ast.specs.GrammarModules.{AreInstances, all_as};
ghost use Rattle.sv_ast.specs.GrammarRules.{all_limits};
ghost use Rattle.sv_parse.specs.Reading.{LeadsToEnd};
ghost use Rattle.sv_parse.specs.ReadingDeclarations.{dotted, dotted_value, dotted_link};
ghost use Rattle.sv_parse.specs.ReadingItems.{AreOpenOverrides, IsInstanceAs};
ghost use Rattle.sv_parse_machine.specs.Symbols.{outer, punctuation, plain_name, items, overrides};
ghost use Rattle.sv_parse_machine.specs.Symbols.{link, links, perhaps_overrides};
ghost use Rattle.sv_parse_machine.specs.Machine.{outside_on};
ghost use Rattle.sv_parse_machine.specs.Reads.{NextIsNotSign, NextIsAnyName};
ghost use Rattle.sv_parse_expr.specs.Parses.{placed, Stands, Comes, GivesAs, Gives, GivesAll};
ghost use Rattle.sv_parse_expr.specs.Parses.{Shortens, NoLonger, Leads, HaltsOn};

use std::alloc::{AllocError, Global};
use sv_ast::{Expr, Instance, Item, Links, Overrides};
use sv_num::{Name, Place};
use sv_parse_expr::cursor::{behind, expect_sign, read_name};
use sv_parse_expr::lists::{Expressions, Listed, ListedFromFirst, read_list};
use sv_parse_expr::stop::{Input, Read, Stop};
use sv_parse_stmt::closed::read_closed;
use sv_token::{SignKind, Token};

// The name behind a dot, and the `(` behind it.
fn read_dotted<'a>(alloc: Global, input: Input<'a>) -> Result<(Name, Place, &'a [Token]), Stop>
    ensures is { IfOk result (λ x.
        Stands (a_sign signs.Dot ⨾ name_at x.0 x.1 ⨾ a_sign signs.OpenParenthesis)
        input.entry x.2.now) }
    ensures shorter { IfOk result (λ x. length x.2.now < length input.entry.rest.now) }
    ensures reads { IfOk result (λ x. Comes (dotted []) [] input.entry x.2.now) }
    ensures halts { HaltsOn result input.entry (dotted []) }
{
    let rest = expect_sign(SignKind::Dot, input.rest)?;
    let (name, place, rest) = read_name(alloc, Input { rest, ..input })?;
    let rest = expect_sign(SignKind::OpenParenthesis, rest)?;
    Ok((name, place, rest))
}

// A parameter that is set by name.
fn read_named_override<'a>(alloc: Global, input: Input<'a>) -> Read<'a, (Name, Place, Expr)>
    ensures is { Gives result input.entry named_override (IsNamedOverride all_limits) }
    ensures shorter { Shortens result input.entry }
    ensures reads { Leads result input.entry dotted_value [] }
    ensures halts { HaltsOn result input.entry dotted_value }
{
    let (name, place, rest) = read_dotted(alloc, input)?;
    let input = Input { rest, ..input };
    let (value, rest) = read_closed(alloc, input, 0, SignKind::CloseParenthesis)?;
    Ok(((name, place, value), rest))
}

// Parameters that are set by name.
struct NamedOverrides;

impl Listed for NamedOverrides {
    type Item = (Name, Place, Expr);

    ghost Tree = { NamedOverride };

    ghost tree = { named_override };

    ghost First = { λ n. IsNamedOverride all_limits };

    ghost Later = { λ n before. IsNamedOverride all_limits };

    ghost next = { λ n. outside_on dotted_value };

    fn later<'a>(
        alloc: Global,
        input: Input<'a>,
        _open: usize,
        _before: &(Name, Place, Expr),
    ) -> Read<'a, (Name, Place, Expr)> {
        read_named_override(alloc, input)
    }
}

impl ListedFromFirst for NamedOverrides {
    ghost Begins = { λ ts. Unit {0} };

    ghost start = { λ n. outside_on dotted_value };

    ghost behind = { λ n. [] };

    fn first<'a>(alloc: Global, input: Input<'a>, _open: usize) -> Read<'a, (Name, Place, Expr)> {
        read_named_override(alloc, input)
    }
}

// The parameters that an instance sets, in parentheses of which the first is read.
fn read_open_overrides<'a>(alloc: Global, input: Input<'a>) -> Read<'a, Overrides>
    ensures is { Gives result input.entry override_trees AreOpenOverrides }
    ensures shorter { Shortens result input.entry }
    ensures reads { Leads result input.entry
        (overrides ∷ []) (punctuation signs.CloseParenthesis ∷ []) }
    ensures halts { HaltsOn result input.entry (overrides ∷ []) }
{
    match behind(SignKind::Dot, input.rest) {
        Some(_) => {
            let (values, rest) = read_list::<NamedOverrides>(alloc, input, 0)?;
            Ok((Overrides::Named(values), rest))
        }
        None => {
            let (values, rest) = read_list::<Expressions>(alloc, input, 0)?;
            Ok((Overrides::Ordered(values), rest))
        }
    }
}

// The parameters that an instance sets.
fn read_overrides<'a>(alloc: Global, input: Input<'a>) -> Read<'a, Overrides>
    ensures is { Gives result input.entry override_trees (AreOverrides all_limits) }
    ensures shorter { NoLonger result input.entry }
    ensures reads { Leads result input.entry (perhaps_overrides ∷ []) [] }
    ensures halts { HaltsOn result input.entry (perhaps_overrides ∷ []) }
{
    if let Some(rest) = behind(SignKind::Hash, input.rest) {
        let rest = expect_sign(SignKind::OpenParenthesis, rest)?;
        let (overrides, rest) = read_open_overrides(alloc, Input { rest, ..input })?;
        let rest = expect_sign(SignKind::CloseParenthesis, rest)?;
        return Ok((overrides, rest));
    }
    Ok((Overrides::Ordered(Vec::new(alloc)), input.rest))
}

// What a port is linked to, behind its `(`, if to anything; and the tokens behind the `)`.
fn read_link_value<'a>(alloc: Global, input: Input<'a>) -> Read<'a, Option<Expr>>
    ensures is { GivesAs result input.entry (λ x.
        perhaps (IsValue all_limits) (option_map expression_tree x)
        ⨾ a_sign signs.CloseParenthesis) }
    ensures shorter { Shortens result input.entry }
    ensures reads { Leads result input.entry (link ∷ []) [] }
    ensures halts { HaltsOn result input.entry (link ∷ []) }
{
    if let Some(rest) = behind(SignKind::CloseParenthesis, input.rest) {
        return Ok((None, rest));
    }
    let (value, rest) = read_closed(alloc, input, 0, SignKind::CloseParenthesis)?;
    Ok((Some(value), rest))
}

// A port that is linked by name.
fn read_named_link<'a>(alloc: Global, input: Input<'a>) -> Read<'a, (Name, Place, Option<Expr>)>
    ensures is { Gives result input.entry named_link (IsNamedLink all_limits) }
    ensures shorter { Shortens result input.entry }
    ensures reads { Leads result input.entry dotted_link [] }
    ensures halts { HaltsOn result input.entry dotted_link }
{
    let (name, place, rest) = read_dotted(alloc, input)?;
    let (value, rest) = read_link_value(alloc, Input { rest, ..input })?;
    Ok(((name, place, value), rest))
}

// Ports that are linked by name.
struct NamedLinks;

impl Listed for NamedLinks {
    type Item = (Name, Place, Option<Expr>);

    ghost Tree = { NamedLink };

    ghost tree = { named_link };

    ghost First = { λ n. IsNamedLink all_limits };

    ghost Later = { λ n before. IsNamedLink all_limits };

    ghost next = { λ n. outside_on dotted_link };

    fn later<'a>(
        alloc: Global,
        input: Input<'a>,
        _open: usize,
        _before: &(Name, Place, Option<Expr>),
    ) -> Read<'a, (Name, Place, Option<Expr>)> {
        read_named_link(alloc, input)
    }
}

impl ListedFromFirst for NamedLinks {
    ghost Begins = { λ ts. Unit {0} };

    ghost start = { λ n. outside_on dotted_link };

    ghost behind = { λ n. [] };

    fn first<'a>(
        alloc: Global,
        input: Input<'a>,
        _open: usize,
    ) -> Read<'a, (Name, Place, Option<Expr>)> {
        read_named_link(alloc, input)
    }
}

// The ports that an instance links, and the `)` behind them.
fn read_links<'a>(alloc: Global, input: Input<'a>) -> Read<'a, Links>
    ensures is { GivesAs result input.entry (λ x.
        AreLinks all_limits (link_trees x) ⨾ a_sign signs.CloseParenthesis) }
    ensures shorter { Shortens result input.entry }
    ensures reads { Leads result input.entry (links ∷ []) [] }
    ensures halts { HaltsOn result input.entry (links ∷ []) }
{
    if let Some(rest) = behind(SignKind::CloseParenthesis, input.rest) {
        return Ok((Links::Ordered(Vec::new(alloc)), rest));
    }
    let (links, rest) = read_some_links(alloc, input)?;
    let rest = expect_sign(SignKind::CloseParenthesis, rest)?;
    Ok((links, rest))
}

// The ports that an instance links, at least one.
fn read_some_links<'a>(alloc: Global, input: Input<'a>) -> Read<'a, Links>
    ensures is { Gives result input.entry link_trees (AreLinks all_limits) }
    ensures shorter { Shortens result input.entry }
    ensures reads { NextIsNotSign SignKind.CloseParenthesis (placed input.entry) →
        Leads result input.entry (links ∷ []) (punctuation signs.CloseParenthesis ∷ []) }
    ensures halts { NextIsNotSign SignKind.CloseParenthesis (placed input.entry) →
        HaltsOn result input.entry (links ∷ []) }
{
    match behind(SignKind::Dot, input.rest) {
        Some(_) => {
            let (links, rest) = read_list::<NamedLinks>(alloc, input, 0)?;
            Ok((Links::Named(links), rest))
        }
        None => {
            let (links, rest) = read_list::<Expressions>(alloc, input, 0)?;
            Ok((Links::Ordered(links), rest))
        }
    }
}

// The name and the links of an instance of the module with these values for its parameters.
fn read_named_instance<'a>(
    alloc: Global,
    input: Input<'a>,
    module: Name,
    place: Place,
    overrides: Overrides,
) -> Read<'a, Instance>
    ensures is { Gives result input.entry instance_tree
        (IsInstanceAs «module» place (override_trees overrides)) }
    ensures shorter { Shortens result input.entry }
    ensures reads { Leads result input.entry
        (plain_name ∷ punctuation signs.OpenParenthesis ∷ links ∷ []) [] }
    ensures halts { HaltsOn result input.entry
        (plain_name ∷ punctuation signs.OpenParenthesis ∷ links ∷ []) }
{
    let (name, name_place, rest) = read_name(alloc, input)?;
    let rest = expect_sign(SignKind::OpenParenthesis, rest)?;
    let (links, rest) = read_links(alloc, Input { rest, ..input })?;
    let instance = Instance {
        module,
        place,
        overrides,
        name,
        name_place,
        links,
    };
    Ok((instance, rest))
}

// Instances of one module.
struct Instances;

impl Listed for Instances {
    type Item = Instance;

    ghost Tree = { InstanceTree };

    ghost tree = { instance_tree };

    ghost First = { λ n. IsInstance all_limits };

    ghost Later = { λ n before i. given (AreOfOneModule before i) (IsNamedInstance all_limits i) };

    ghost next = { λ n. outer plain_name ∷ outer (punctuation signs.OpenParenthesis) ∷
        outer links ∷ [] };

    fn later<'a>(
        alloc: Global,
        input: Input<'a>,
        _open: usize,
        before: &Instance,
    ) -> Read<'a, Instance> {
        let module = before.module.copy(alloc)?;
        let overrides = before.overrides.copy(alloc)?;
        let (instance, rest) = read_named_instance(alloc, input, module, before.place, overrides)?;
        Ok((instance, rest))
    }
}

impl ListedFromFirst for Instances {
    ghost Begins = { λ ts. Unit {0} };

    ghost start = { λ n.
        outer plain_name ∷ outer perhaps_overrides ∷ outer plain_name ∷
        outer (punctuation signs.OpenParenthesis) ∷ outer links ∷ [] };

    ghost behind = { λ n. [] };

    fn first<'a>(alloc: Global, input: Input<'a>, _open: usize) -> Read<'a, Instance> {
        let (module, place, rest) = read_name(alloc, input)?;
        let (overrides, rest) = read_overrides(alloc, Input { rest, ..input })?;
        let input = Input { rest, ..input };
        let (instance, rest) = read_named_instance(alloc, input, module, place, overrides)?;
        Ok((instance, rest))
    }
}

// The items that the instances are.
fn as_items(alloc: Global, instances: Vec<Instance>) -> Result<Vec<Item>, AllocError>
    ensures { IfOk result (λ items.
        map item_tree items.items ≡ map tree.instance_item (map instance_tree instances.items)) }
{
    instances.into_iter().map(Item::Instance).collect(alloc)
}

/// The instances of an item that begins with the name of a module.
pub fn read_instances<'a>(alloc: Global, input: Input<'a>) -> Read<'a, Vec<Item>>
    ensures is { GivesAll result input.entry item_tree
        (all_as tree.instance_item (AreInstances all_limits)) }
    ensures shorter { Shortens result input.entry }
    ensures reads { NextIsAnyName (placed input.entry) → LeadsToEnd result input.entry }
    ensures halts { NextIsAnyName (placed input.entry) → HaltsOn result input.entry (items ∷ []) }
{
    let (instances, rest) = read_list::<Instances>(alloc, input, 0)?;
    Ok((as_items(alloc, instances)?, rest))
}
