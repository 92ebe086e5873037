// Parameters (IEEE 1364-2005, clause 12.2).
ghost use Rattle.std.specs.Prelude.{◌≡◌, ◌<◌, ◌≤◌, ℕ, List, length, map, IfOk, [], ◌∷◌, ◌++◌};
ghost use Rattle.std.specs.Option.{option_map};
ghost use Rattle.sv_token.specs.Lexemes.{placed_tokens};
ghost use Rattle.sv_token.specs.declared.signs.SignKind.TheVariants as signs;
ghost use Rattle.sv_ast.specs.Tree as tree;
ghost use Rattle.sv_ast.specs.Tree.{ParameterTree};
ghost use Rattle.sv_ast.specs.Views.{expression_tree, span_tree, parameter_tree, item_tree};
ghost use Rattle.sv_ast.specs.GrammarForms.{◌⨾◌, ◌or◌, name_at, a_sign, a_word};
ghost use Rattle.sv_ast.specs.GrammarDeclarations.{IsParameterType, IsParameter, IsLaterParameter};
ghost use Rattle.sv_ast.specs.GrammarDeclarations.{IsValue, AreParameters, IsHeaderParameter};
ghost use Rattle.sv_ast.specs.GrammarDeclarations.{AreHeaderParameters, parameter_word};
ghost use Rattle.sv_ast.specs.GrammarModules.{all_as};
ghost use Rattle.sv_ast.specs.GrammarRules.{all_limits};
ghost use Rattle.sv_parse.specs.Reading.{LeadsToEnd, IsParameterAs, IsTypedParameter};
ghost use Rattle.sv_parse_machine.specs.Symbols.{outer, punctuation, parameter_type, items};
ghost use Rattle.sv_parse_machine.specs.Symbols.{more_parameters, header_parameter};
ghost use Rattle.sv_parse_machine.specs.Symbols.{later_header_parameter, more_header_parameters};
ghost use Rattle.sv_parse_machine.specs.Machine.{outside_on};
ghost use Rattle.sv_parse_expr.specs.Parses.{placed, in_text, Stands, Comes, Gives, GivesAll};
ghost use Rattle.sv_parse_expr.specs.Parses.{Shortens, Leads, HaltsOn, TakesNoMemory};
ghost use Rattle.sv_parse.specs.ReadingDeclarations.{named_value, typed_value};
ghost use Rattle.sv_parse.specs.ReadingTexts.{BeginsParameters};

use crate::types::{read_open_span, span_copy};
use std::alloc::{AllocError, Global};
use sv_ast::{Expr, Item, Param, Span};
use sv_num::{Name, Place};
use sv_parse_expr::cursor::{behind, behind_word, expect_sign, expect_word, read_name, unexpected};
use sv_parse_expr::expressions::read_expression;
use sv_parse_expr::lists::{Listed, ListedFromFirst, read_list};
use sv_parse_expr::stop::{Input, Read, Stop};
use sv_token::{SignKind, Token, WordKind};

// The signedness and the range of a parameter; without a range it is unsigned.
fn read_param_type<'a>(
    alloc: Global,
    input: Input<'a>,
) -> Result<(bool, Option<Span>, &'a [Token]), Stop>
    ensures is { IfOk result (λ x.
        Stands (IsParameterType all_limits x.0 (option_map span_tree x.1)) input.entry x.2.now) }
    ensures shorter { IfOk result (λ x. length x.2.now ≤ length input.entry.rest.now) }
    ensures reads { IfOk result (λ x. Comes (parameter_type ∷ []) [] input.entry x.2.now) }
    ensures halts { HaltsOn result input.entry (parameter_type ∷ []) }
{
    if let Some(rest) = behind_word(WordKind::Signed, input.rest) {
        let rest = expect_sign(SignKind::OpenBracket, rest)?;
        let (span, rest) = read_open_span(alloc, Input { rest, ..input })?;
        return Ok((true, Some(span), rest));
    }
    if let Some(rest) = behind(SignKind::OpenBracket, input.rest) {
        let (span, rest) = read_open_span(alloc, Input { rest, ..input })?;
        return Ok((false, Some(span), rest));
    }
    Ok((false, None, input.rest))
}

// The name of a parameter with its place, and the value.
fn read_param_value<'a>(
    alloc: Global,
    input: Input<'a>,
) -> Result<(Name, Place, Expr, &'a [Token]), Stop>
    ensures is { IfOk result (λ x.
        Stands (name_at x.0 x.1 ⨾ a_sign signs.Equals ⨾ IsValue all_limits (expression_tree x.2))
        input.entry x.3.now) }
    ensures shorter { IfOk result (λ x. length x.3.now < length input.entry.rest.now) }
    ensures reads { IfOk result (λ x. Comes named_value [] input.entry x.3.now) }
    ensures halts { HaltsOn result input.entry named_value }
{
    let (name, place, rest) = read_name(alloc, input)?;
    let rest = expect_sign(SignKind::Equals, rest)?;
    let (value, rest) = read_expression(alloc, Input { rest, ..input }, 0)?;
    Ok((name, place, value, rest))
}

// The name and the value of a parameter of the signedness and the range.
fn read_named_param<'a>(
    alloc: Global,
    input: Input<'a>,
    local: bool,
    signed: bool,
    span: Option<Span>,
) -> Read<'a, Param>
    ensures is { Gives result input.entry parameter_tree
        (IsParameterAs local signed (option_map span_tree span)) }
    ensures shorter { Shortens result input.entry }
    ensures reads { Leads result input.entry named_value [] }
    ensures halts { HaltsOn result input.entry named_value }
{
    let (name, place, value, rest) = read_param_value(alloc, input)?;
    let param = Param {
        local,
        signed,
        span,
        name,
        place,
        value,
    };
    Ok((param, rest))
}

// A parameter, behind its word.
fn read_typed_param<'a>(alloc: Global, input: Input<'a>, local: bool) -> Read<'a, Param>
    ensures is { Gives result input.entry parameter_tree (IsTypedParameter local) }
    ensures shorter { Shortens result input.entry }
    ensures reads { Leads result input.entry typed_value [] }
    ensures halts { HaltsOn result input.entry typed_value }
{
    let (signed, span, rest) = read_param_type(alloc, input)?;
    let (param, rest) = read_named_param(alloc, Input { rest, ..input }, local, signed, span)?;
    Ok((param, rest))
}

// A parameter with the word, signedness and range of the one before it.
fn read_param_alike<'a>(alloc: Global, input: Input<'a>, before: &Param) -> Read<'a, Param>
    ensures is { Gives result input.entry parameter_tree
        (IsLaterParameter all_limits (parameter_tree before.now)) }
    ensures shorter { Shortens result input.entry }
    ensures reads { Leads result input.entry named_value [] }
    ensures halts { HaltsOn result input.entry named_value }
{
    let span = span_copy(alloc, &before.span)?;
    let (local, signed) = (before.local, before.signed);
    let (param, rest) = read_named_param(alloc, input, local, signed, span)?;
    Ok((param, rest))
}

// Whether the word that comes is `localparam`, not `parameter`.
fn is_local(tokens: &[Token]) -> Read<'_, bool>
    ensures is { (bytes : List ℕ) → Gives result (in_text bytes tokens.now) parameter_word a_word }
    ensures shorter { IfOk result (λ x. length x.1.now < length tokens.now) }
    ensures reads { (bytes : List ℕ) → BeginsParameters (placed_tokens bytes tokens.now) →
        Leads result (in_text bytes tokens.now) (items ∷ [])
        (typed_value ++ more_parameters ∷ items ∷ []) }
    ensures halts { (bytes : List ℕ) → BeginsParameters (placed_tokens bytes tokens.now) →
        HaltsOn result (in_text bytes tokens.now) (items ∷ []) }
    ensures memory { TakesNoMemory result }
{
    if let Some(rest) = behind_word(WordKind::Parameter, tokens) {
        return Ok((false, rest));
    }
    match behind_word(WordKind::Localparam, tokens) {
        Some(rest) => Ok((true, rest)),
        None => Err(unexpected(tokens)),
    }
}

// The parameters of an item.
struct Params;

impl Listed for Params {
    type Item = Param;

    ghost Tree = { ParameterTree };

    ghost tree = { parameter_tree };

    ghost First = { λ n. IsParameter all_limits };

    ghost Later = { λ n before. IsLaterParameter all_limits before };

    ghost next = { λ n. outside_on named_value };

    fn later<'a>(alloc: Global, input: Input<'a>, _open: usize, before: &Param) -> Read<'a, Param> {
        read_param_alike(alloc, input, before)
    }
}

impl ListedFromFirst for Params {
    ghost Begins = { BeginsParameters };

    ghost start = { λ n. outer items ∷ [] };

    ghost behind = { λ n. outer more_parameters ∷ outer items ∷ [] };

    fn first<'a>(alloc: Global, input: Input<'a>, _open: usize) -> Read<'a, Param> {
        let (local, rest) = is_local(input.rest)?;
        let (param, rest) = read_typed_param(alloc, Input { rest, ..input }, local)?;
        Ok((param, rest))
    }
}

// The parameters of a header.
struct HeaderParams;

impl Listed for HeaderParams {
    type Item = Param;

    ghost Tree = { ParameterTree };

    ghost tree = { parameter_tree };

    ghost First = { λ n. IsHeaderParameter all_limits };

    ghost Later = { λ n before q.
        (IsHeaderParameter all_limits q or IsLaterParameter all_limits before q) };

    ghost next = { λ n. outer later_header_parameter ∷ [] };

    fn later<'a>(alloc: Global, input: Input<'a>, _open: usize, before: &Param) -> Read<'a, Param> {
        if let Some(rest) = behind_word(WordKind::Parameter, input.rest) {
            let (param, rest) = read_typed_param(alloc, Input { rest, ..input }, false)?;
            return Ok((param, rest));
        }
        let (alike, rest) = read_param_alike(alloc, input, before)?;
        Ok((alike, rest))
    }
}

impl ListedFromFirst for HeaderParams {
    ghost Begins = { λ ts. Unit {0} };

    ghost start = { λ n. outer header_parameter ∷ [] };

    ghost behind = { λ n. [] };

    fn first<'a>(alloc: Global, input: Input<'a>, _open: usize) -> Read<'a, Param> {
        let (_place, rest) = expect_word(WordKind::Parameter, input.rest)?;
        let (param, rest) = read_typed_param(alloc, Input { rest, ..input }, false)?;
        Ok((param, rest))
    }
}

/// The parameters of a header, at least one.
pub fn read_header_params<'a>(alloc: Global, input: Input<'a>) -> Read<'a, Vec<Param>>
    ensures is { GivesAll result input.entry parameter_tree (AreHeaderParameters all_limits) }
    ensures shorter { Shortens result input.entry }
    ensures reads { Leads result input.entry
        (header_parameter ∷ more_header_parameters ∷ []) (punctuation signs.CloseParenthesis ∷ []) }
    ensures halts { HaltsOn result input.entry (header_parameter ∷ more_header_parameters ∷ []) }
{
    let (params, rest) = read_list::<HeaderParams>(alloc, input, 0)?;
    Ok((params, rest))
}

// The items that declare the parameters.
fn declared(alloc: Global, params: Vec<Param>) -> Result<Vec<Item>, AllocError>
    ensures { IfOk result (λ items.
        map item_tree items.items ≡ map tree.parameter_item (map parameter_tree params.items)) }
{
    params.into_iter().map(Item::Param).collect(alloc)
}

/// The parameters of an item that begins with `parameter` or `localparam`.
pub fn read_params<'a>(alloc: Global, input: Input<'a>) -> Read<'a, Vec<Item>>
    ensures is { GivesAll result input.entry item_tree
        (all_as tree.parameter_item (AreParameters all_limits)) }
    ensures shorter { Shortens result input.entry }
    ensures reads { BeginsParameters (placed input.entry) → LeadsToEnd result input.entry }
    ensures halts { BeginsParameters (placed input.entry) →
        HaltsOn result input.entry (items ∷ []) }
{
    let (params, rest) = read_list::<Params>(alloc, input, 0)?;
    Ok((declared(alloc, params)?, rest))
}
