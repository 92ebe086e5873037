// Ports and signals (IEEE 1364-2005, clauses 4 and 12).
ghost use Rattle.std.specs.Prelude.{◌≡◌, ◌<◌, ◌≤◌, ℕ, List, length, map, IfOk, IfSome, IfNone, []};
ghost use Rattle.std.specs.Prelude.{◌∷◌};
ghost use Rattle.std.specs.Option.{option_map};
ghost use Rattle.sv_token.specs.Lexemes.{placed_tokens};
ghost use Rattle.sv_token.specs.declared.keywords.WordKind.TheVariants as words;
ghost use Rattle.sv_token.specs.declared.signs.SignKind.TheVariants as signs;
ghost use Rattle.sv_ast.specs.Tree as tree;
ghost use Rattle.sv_ast.specs.Tree.{DeclarationTree};
ghost use Rattle.sv_ast.specs.Views.{expression_tree, span_tree, label_tree, declaration_tree};
ghost use Rattle.sv_ast.specs.Views.{item_tree};
ghost use Rattle.sv_ast.specs.GrammarForms.{◌⨾◌, ◌or◌, given, name_at, a_word, optional, perhaps};
ghost use Rattle.sv_ast.specs.GrammarDeclarations.{equals, AreAlike, IsPortKind, IsNamedPort};
ghost use Rattle.sv_ast.specs.GrammarDeclarations.{IsPort, ArePorts, IsNamedSignal, IsSignal};
ghost use Rattle.sv_ast.specs.GrammarDeclarations.{AreSignals};
ghost use Rattle.sv_ast.specs.GrammarModules.{all_as};
ghost use Rattle.sv_ast.specs.GrammarRules.{all_limits};
ghost use Rattle.sv_parse.specs.Reading.{LeadsToEnd, IsTypeOf, IsOutputEnd, IsNamedAs, IsTypedPort};
ghost use Rattle.sv_parse.specs.Reading.{IsWireAs};
ghost use Rattle.sv_parse.specs.ReadingItems.{IsWire, IsWireLike};
ghost use Rattle.sv_ast.specs.GrammarStatements.{IsNext};
ghost use Rattle.sv_parse_machine.specs.Symbols.{outer, punctuation, plain_name, perhaps_wire};
ghost use Rattle.sv_parse_machine.specs.Symbols.{perhaps_wire_or_reg, ports, more_ports};
ghost use Rattle.sv_parse_machine.specs.Symbols.{later_port};
ghost use Rattle.sv_parse_machine.specs.Symbols.{items, more_wires, perhaps_value};
ghost use Rattle.sv_parse_machine.specs.ModuleTable.{typed_name};
ghost use Rattle.sv_parse_machine.specs.Reads.{NextIsNotSign, NextIsNotWord};
ghost use Rattle.sv_parse_expr.specs.Parses.{placed, in_text, Stands, Comes, GivesAs, Gives};
ghost use Rattle.sv_parse_expr.specs.Parses.{GivesAll, Shortens, NoLonger, Leads, HaltsOn};

use crate::types::{SignalType, label_copy, read_signal_type, span_copy};
use std::alloc::{AllocError, Global};
use sv_ast::{Decl, DeclKind, Expr, Item};
use sv_num::{Name, Place};
use sv_parse_expr::cursor::{behind, behind_word, expect_word, read_name, stuck};
use sv_parse_expr::expressions::read_expression;
use sv_parse_expr::lists::{Listed, ListedFromFirst, read_list};
use sv_parse_expr::stop::{Expected, Input, Read, Stop};
use sv_token::{SignKind, Token, WordKind};

// A declaration of the kind and the type.
fn declaration(
    kind: DeclKind,
    of: SignalType,
    name: Name,
    place: Place,
    value: Option<Expr>,
) -> Decl
    ensures { declaration_tree result ≡ record {
      kind = kind;
      signed = of.signed;
      span = option_map span_tree of.span;
      label = option_map label_tree of.label;
      name = name;
      place = place;
      value = option_map expression_tree value;
    } }
{
    let SignalType {
        signed,
        span,
        label,
    } = of;
    Decl {
        kind,
        signed,
        span,
        label,
        name,
        place,
        value,
    }
}

// A second type that is that of the declaration.
fn type_of(alloc: Global, decl: &Decl) -> Result<SignalType, AllocError>
    ensures { IfOk result (λ of.
        IsTypeOf of.signed (option_map span_tree of.span) (option_map label_tree of.label)
        (declaration_tree decl.now)) }
{
    let label = label_copy(alloc, &decl.label)?;
    let span = span_copy(alloc, &decl.span)?;
    Ok(SignalType {
        signed: decl.signed,
        span,
        label,
    })
}

// The tokens behind `wire`, if it comes.
fn behind_wire(tokens: &[Token]) -> &[Token]
    ensures is { (bytes : List ℕ) →
        Stands (optional (a_word words.Wire)) (in_text bytes tokens.now) result.now }
    ensures shorter { length result.now ≤ length tokens.now }
    ensures reads { (bytes : List ℕ) →
        Comes (perhaps_wire ∷ []) [] (in_text bytes tokens.now) result.now }
    ensures output { (bytes : List ℕ) → NextIsNotWord words.Reg (placed_tokens bytes tokens.now) →
        Comes (perhaps_wire_or_reg ∷ []) [] (in_text bytes tokens.now) result.now }
{
    match behind_word(WordKind::Wire, tokens) {
        Some(rest) => rest,
        None => tokens,
    }
}

// What a port is, behind its `output`.
fn output_kind(tokens: &[Token]) -> (DeclKind, &[Token])
    ensures is { (bytes : List ℕ) →
        Stands (IsOutputEnd result.0) (in_text bytes tokens.now) result.1.now }
    ensures shorter { length result.1.now ≤ length tokens.now }
    ensures reads { (bytes : List ℕ) →
        Comes (perhaps_wire_or_reg ∷ []) [] (in_text bytes tokens.now) result.1.now }
{
    match behind_word(WordKind::Reg, tokens) {
        Some(rest) => (DeclKind::OutputReg, rest),
        None => (DeclKind::OutputWire, behind_wire(tokens)),
    }
}

// What a port is, if the words of its kind come.
fn port_kind(tokens: &[Token]) -> Option<(DeclKind, &[Token])>
    ensures is { (bytes : List ℕ) →
        IfSome result (λ x. Stands (IsPortKind x.0) (in_text bytes tokens.now) x.1.now) }
    ensures shorter { IfSome result (λ x. length x.1.now < length tokens.now) }
    ensures first { (bytes : List ℕ) →
        IfSome result (λ x. Comes (ports ∷ []) (typed_name (more_ports ∷ []))
        (in_text bytes tokens.now) x.1.now) }
    ensures later { (bytes : List ℕ) →
        IfSome result (λ x. Comes (later_port ∷ []) (typed_name [])
        (in_text bytes tokens.now) x.1.now) }
    ensures none { (bytes : List ℕ) →
        IfNone result (NextIsNotWord words.Input (placed_tokens bytes tokens.now)
        × NextIsNotWord words.Output (placed_tokens bytes tokens.now)) }
{
    if let Some(rest) = behind_word(WordKind::Input, tokens) {
        return Some((DeclKind::Input, behind_wire(rest)));
    }
    match behind_word(WordKind::Output, tokens) {
        Some(rest) => {
            let (kind, rest) = output_kind(rest);
            Some((kind, rest))
        }
        None => None,
    }
}

// The name of a port or register of the kind and the type.
fn read_named<'a>(alloc: Global, input: Input<'a>, kind: DeclKind, of: SignalType) -> Read<'a, Decl>
    ensures is { Gives result input.entry declaration_tree
        (IsNamedAs kind of.signed (option_map span_tree of.span) (option_map label_tree of.label)) }
    ensures shorter { Shortens result input.entry }
    ensures reads { Leads result input.entry (plain_name ∷ []) [] }
    ensures halts { HaltsOn result input.entry (plain_name ∷ []) }
{
    let (name, place, rest) = read_name(alloc, input)?;
    Ok((declaration(kind, of, name, place, None), rest))
}

// A port or register like the one before it.
fn read_named_alike<'a>(alloc: Global, input: Input<'a>, before: &Decl) -> Read<'a, Decl>
    ensures is { GivesAs result input.entry (λ x.
        given (AreAlike (declaration_tree before.now) (declaration_tree x))
        (IsNamedPort (declaration_tree x))) }
    ensures shorter { Shortens result input.entry }
    ensures reads { Leads result input.entry (plain_name ∷ []) [] }
    ensures halts { HaltsOn result input.entry (plain_name ∷ []) }
{
    let (name, place, rest) = read_name(alloc, input)?;
    let of = type_of(alloc, before)?;
    Ok((declaration(before.kind, of, name, place, None), rest))
}

// The type and the name of a port of the kind.
fn read_typed_port<'a>(alloc: Global, input: Input<'a>, kind: DeclKind) -> Read<'a, Decl>
    ensures is { Gives result input.entry declaration_tree (IsTypedPort kind) }
    ensures shorter { Shortens result input.entry }
    ensures reads { Leads result input.entry (typed_name []) [] }
    ensures halts { HaltsOn result input.entry (typed_name []) }
{
    let (of, rest) = read_signal_type(alloc, input)?;
    let (decl, rest) = read_named(alloc, Input { rest, ..input }, kind, of)?;
    Ok((decl, rest))
}

// Ports.
struct Ports;

impl Listed for Ports {
    type Item = Decl;

    ghost Tree = { DeclarationTree };

    ghost tree = { declaration_tree };

    ghost First = { λ n. IsPort all_limits };

    ghost Later = { λ n before d.
        (IsPort all_limits d or given (AreAlike before d) (IsNamedPort d)) };

    ghost next = { λ n. outer later_port ∷ [] };

    fn later<'a>(alloc: Global, input: Input<'a>, _open: usize, before: &Decl) -> Read<'a, Decl> {
        if let Some((kind, rest)) = port_kind(input.rest) {
            let (port, rest) = read_typed_port(alloc, Input { rest, ..input }, kind)?;
            return Ok((port, rest));
        }
        let (alike, rest) = read_named_alike(alloc, input, before)?;
        Ok((alike, rest))
    }
}

impl ListedFromFirst for Ports {
    ghost Begins = { NextIsNotSign signs.CloseParenthesis };

    ghost start = { λ n. outer ports ∷ [] };

    ghost behind = { λ n. outer more_ports ∷ [] };

    fn first<'a>(alloc: Global, input: Input<'a>, _open: usize) -> Read<'a, Decl> {
        let Some((kind, rest)) = port_kind(input.rest) else {
            return Err(stuck(Expected::Port, input.rest));
        };
        let (port, rest) = read_typed_port(alloc, Input { rest, ..input }, kind)?;
        Ok((port, rest))
    }
}

/// The ports of a header, at least one.
pub fn read_ports<'a>(alloc: Global, input: Input<'a>) -> Read<'a, Vec<Decl>>
    ensures is { GivesAll result input.entry declaration_tree (ArePorts all_limits) }
    ensures shorter { Shortens result input.entry }
    ensures reads { NextIsNotSign signs.CloseParenthesis (placed input.entry) →
        Leads result input.entry (ports ∷ []) (punctuation signs.CloseParenthesis ∷ []) }
    ensures halts { NextIsNotSign signs.CloseParenthesis (placed input.entry) →
        HaltsOn result input.entry (ports ∷ []) }
{
    let (ports, rest) = read_list::<Ports>(alloc, input, 0)?;
    Ok((ports, rest))
}

// The value of a `wire`, if one comes.
fn read_wire_value<'a>(alloc: Global, input: Input<'a>) -> Read<'a, Option<Expr>>
    ensures is { Gives result input.entry (option_map expression_tree)
        (perhaps (equals all_limits)) }
    ensures shorter { NoLonger result input.entry }
    ensures reads { Leads result input.entry (perhaps_value ∷ []) [] }
    ensures halts { HaltsOn result input.entry (perhaps_value ∷ []) }
{
    match behind(SignKind::Equals, input.rest) {
        Some(rest) => {
            let (value, rest) = read_expression(alloc, Input { rest, ..input }, 0)?;
            Ok((Some(value), rest))
        }
        None => Ok((None, input.rest)),
    }
}

// The name of a `wire` with its place, and the value, if one comes.
fn read_wire_name<'a>(
    alloc: Global,
    input: Input<'a>,
) -> Result<(Name, Place, Option<Expr>, &'a [Token]), Stop>
    ensures is { IfOk result (λ x.
        Stands (name_at x.0 x.1 ⨾ perhaps (equals all_limits) (option_map expression_tree x.2))
        input.entry x.3.now) }
    ensures shorter { IfOk result (λ x. length x.3.now < length input.entry.rest.now) }
    ensures reads { IfOk result (λ x.
        Comes (plain_name ∷ perhaps_value ∷ []) [] input.entry x.3.now) }
    ensures halts { HaltsOn result input.entry (plain_name ∷ perhaps_value ∷ []) }
{
    let (name, place, rest) = read_name(alloc, input)?;
    let (value, rest) = read_wire_value(alloc, Input { rest, ..input })?;
    Ok((name, place, value, rest))
}

// A `wire` of the type.
fn read_named_wire<'a>(alloc: Global, input: Input<'a>, of: SignalType) -> Read<'a, Decl>
    ensures is { Gives result input.entry declaration_tree
        (IsWireAs of.signed (option_map span_tree of.span) (option_map label_tree of.label)) }
    ensures shorter { Shortens result input.entry }
    ensures reads { Leads result input.entry (plain_name ∷ perhaps_value ∷ []) [] }
    ensures halts { HaltsOn result input.entry (plain_name ∷ perhaps_value ∷ []) }
{
    let (name, place, value, rest) = read_wire_name(alloc, input)?;
    Ok((declaration(DeclKind::Wire, of, name, place, value), rest))
}

// Signals of an item that begins with `wire`.
struct Wires;

impl Listed for Wires {
    type Item = Decl;

    ghost Tree = { DeclarationTree };

    ghost tree = { declaration_tree };

    ghost First = { λ n. IsWire };

    ghost Later = { λ n. IsWireLike };

    ghost next = { λ n. outer plain_name ∷ outer perhaps_value ∷ [] };

    fn later<'a>(alloc: Global, input: Input<'a>, _open: usize, before: &Decl) -> Read<'a, Decl> {
        let of = type_of(alloc, before)?;
        let (wire, rest) = read_named_wire(alloc, input, of)?;
        Ok((wire, rest))
    }
}

impl ListedFromFirst for Wires {
    ghost Begins = { IsNext words.Wire };

    ghost start = { λ n. outer items ∷ [] };

    ghost behind = { λ n. outer more_wires ∷ outer items ∷ [] };

    fn first<'a>(alloc: Global, input: Input<'a>, _open: usize) -> Read<'a, Decl> {
        let (_place, rest) = expect_word(WordKind::Wire, input.rest)?;
        let (of, rest) = read_signal_type(alloc, Input { rest, ..input })?;
        let (wire, rest) = read_named_wire(alloc, Input { rest, ..input }, of)?;
        Ok((wire, rest))
    }
}

/// The signals of an item that begins with `wire`.
pub fn read_wires<'a>(alloc: Global, input: Input<'a>) -> Read<'a, Vec<Item>>
    ensures is { GivesAll result input.entry item_tree
        (all_as tree.declared (AreSignals all_limits)) }
    ensures shorter { Shortens result input.entry }
    ensures reads { IsNext words.Wire (placed input.entry) → LeadsToEnd result input.entry }
    ensures halts { IsNext words.Wire (placed input.entry) →
        HaltsOn result input.entry (items ∷ []) }
{
    let (wires, rest) = read_list::<Wires>(alloc, input, 0)?;
    Ok((declared(alloc, wires)?, rest))
}

/// Registers behind the first, which is read already.
pub struct Registers;

impl Listed for Registers {
    type Item = Decl;

    ghost Tree = { DeclarationTree };

    ghost tree = { declaration_tree };

    ghost First = { λ n. IsSignal all_limits };

    ghost Later = { λ n before d. given (AreAlike before d) (IsNamedSignal all_limits d) };

    ghost next = { λ n. outer plain_name ∷ [] };

    fn later<'a>(alloc: Global, input: Input<'a>, _open: usize, before: &Decl) -> Read<'a, Decl> {
        let (register, rest) = read_named_alike(alloc, input, before)?;
        Ok((register, rest))
    }
}

/// The items that declare the signals.
pub fn declared(alloc: Global, decls: Vec<Decl>) -> Result<Vec<Item>, AllocError>
    ensures { IfOk result (λ items.
        map item_tree items.items ≡ map tree.declared (map declaration_tree decls.items)) }
{
    decls.into_iter().map(Item::Decl).collect(alloc)
}
