// The types of declarations: signedness, ranges and labels (IEEE 1364-2005, clause 4; labels are
// those of SecVerilog, ASPLOS 2015).
ghost use Rattle.std.specs.Prelude.{◌≡◌, ◌≤◌, ℕ, List, [], ◌∷◌, length, IfOk};
ghost use Rattle.std.specs.Option.{option_map};
ghost use Rattle.sv_token.specs.declared.signs.SignKind.TheVariants as signs;
ghost use Rattle.sv_token.specs.declared.keywords.WordKind.TheVariants as words;
ghost use Rattle.sv_ast.specs.Views.{span_tree, label_tree};
ghost use Rattle.sv_ast.specs.GrammarForms.{◌⨾◌, a_sign, a_name, flag, perhaps};
ghost use Rattle.sv_ast.specs.GrammarDeclarations.{IsValue, IsRange, IsLabel};
ghost use Rattle.sv_ast.specs.GrammarRules.{all_limits};
ghost use Rattle.sv_parse_machine.specs.Symbols.{plain_name, perhaps_signed, perhaps_range};
ghost use Rattle.sv_parse_machine.specs.Symbols.{perhaps_label, perhaps_second_name, label_end};
ghost use Rattle.sv_parse_machine.specs.ModuleTable.{value_range};
ghost use Rattle.sv_parse_expr.specs.Parses.{in_text, Stands, Comes, GivesAs, Gives, Shortens};
ghost use Rattle.sv_parse_expr.specs.Parses.{NoLonger, Leads, HaltsOn};
ghost use Rattle.sv_parse.specs.ReadingDeclarations.{name_type, table_end};
ghost use Rattle.sv_parse.specs.Reading.{IsTableEnd, IsOpenLabel, IsTypedAs};

use std::alloc::{AllocError, Global};
use sv_ast::{LabelText, Span};
use sv_num::{Name, Place};
use sv_parse_expr::cursor::{behind, behind_word, expect_sign, read_name};
use sv_parse_expr::stop::{Input, Read};
use sv_parse_stmt::closed::read_closed;
use sv_token::{SignKind, Token, WordKind};

/// Whether `signed` comes, and the tokens behind it.
pub fn is_signed(tokens: &[Token]) -> (bool, &[Token])
    ensures is { (bytes : List ℕ) →
        Stands (flag words.Signed result.0) (in_text bytes tokens.now) result.1.now }
    ensures shorter { length result.1.now ≤ length tokens.now }
    ensures reads { (bytes : List ℕ) →
        Comes (perhaps_signed ∷ []) [] (in_text bytes tokens.now) result.1.now }
{
    match behind_word(WordKind::Signed, tokens) {
        Some(rest) => (true, rest),
        None => (false, tokens),
    }
}

/// A range, behind its `[`.
pub fn read_open_span<'a>(alloc: Global, input: Input<'a>) -> Read<'a, Span>
    ensures is { GivesAs result input.entry (λ x.
        IsValue all_limits (span_tree x).high ⨾ a_sign signs.Colon
        ⨾ IsValue all_limits (span_tree x).low ⨾ a_sign signs.CloseBracket) }
    ensures shorter { Shortens result input.entry }
    ensures reads { Leads result input.entry value_range [] }
    ensures halts { HaltsOn result input.entry value_range }
{
    let (high, rest) = read_closed(alloc, input, 0, SignKind::Colon)?;
    let (low, rest) = read_closed(alloc, Input { rest, ..input }, 0, SignKind::CloseBracket)?;
    Ok((Span { high, low }, rest))
}

/// A range, if one comes.
pub fn read_span<'a>(alloc: Global, input: Input<'a>) -> Read<'a, Option<Span>>
    ensures is { Gives result input.entry (option_map span_tree) (perhaps (IsRange all_limits)) }
    ensures shorter { NoLonger result input.entry }
    ensures reads { Leads result input.entry (perhaps_range ∷ []) [] }
    ensures halts { HaltsOn result input.entry (perhaps_range ∷ []) }
{
    match behind(SignKind::OpenBracket, input.rest) {
        Some(rest) => {
            let (span, rest) = read_open_span(alloc, Input { rest, ..input })?;
            Ok((Some(span), rest))
        }
        None => Ok((None, input.rest)),
    }
}

// The second selector of a label, if one comes.
fn read_second_selector<'a>(alloc: Global, input: Input<'a>) -> Read<'a, Option<Name>>
    ensures is { GivesAs result input.entry (perhaps (λ x. a_sign signs.Comma ⨾ a_name x)) }
    ensures shorter { NoLonger result input.entry }
    ensures reads { Leads result input.entry (perhaps_second_name ∷ []) [] }
    ensures halts { HaltsOn result input.entry (perhaps_second_name ∷ []) }
{
    match behind(SignKind::Comma, input.rest) {
        Some(rest) => {
            let (name, _at, rest) = read_name(alloc, Input { rest, ..input })?;
            Ok((Some(name), rest))
        }
        None => Ok((None, input.rest)),
    }
}

/// A label with selectors, behind its map and the `(`.
pub fn read_table_label<'a>(
    alloc: Global,
    input: Input<'a>,
    map: Name,
    place: Place,
) -> Read<'a, LabelText>
    ensures is { Gives result input.entry label_tree (IsTableEnd map place) }
    ensures shorter { Shortens result input.entry }
    ensures reads { Leads result input.entry table_end [] }
    ensures halts { HaltsOn result input.entry table_end }
{
    let (first, _at, rest) = read_name(alloc, input)?;
    let (second, rest) = read_second_selector(alloc, Input { rest, ..input })?;
    let rest = expect_sign(SignKind::CloseParenthesis, rest)?;
    let rest = expect_sign(SignKind::CloseBrace, rest)?;
    Ok((LabelText::Table(map, first, second, place), rest))
}

// A label, behind its brace.
fn read_open_label<'a>(alloc: Global, input: Input<'a>) -> Read<'a, LabelText>
    ensures is { Gives result input.entry label_tree IsOpenLabel }
    ensures shorter { Shortens result input.entry }
    ensures reads { Leads result input.entry (plain_name ∷ label_end ∷ []) [] }
    ensures halts { HaltsOn result input.entry (plain_name ∷ label_end ∷ []) }
{
    let (name, place, rest) = read_name(alloc, input)?;
    if let Some(rest) = behind(SignKind::OpenParenthesis, rest) {
        let (label, rest) = read_table_label(alloc, Input { rest, ..input }, name, place)?;
        return Ok((label, rest));
    }
    let rest = expect_sign(SignKind::CloseBrace, rest)?;
    Ok((LabelText::Point(name, place), rest))
}

/// A label, if one comes.
pub fn read_label<'a>(alloc: Global, input: Input<'a>) -> Read<'a, Option<LabelText>>
    ensures is { Gives result input.entry (option_map label_tree) (perhaps IsLabel) }
    ensures shorter { NoLonger result input.entry }
    ensures reads { Leads result input.entry (perhaps_label ∷ []) [] }
    ensures halts { HaltsOn result input.entry (perhaps_label ∷ []) }
{
    match behind(SignKind::OpenBrace, input.rest) {
        Some(rest) => {
            let (label, rest) = read_open_label(alloc, Input { rest, ..input })?;
            Ok((Some(label), rest))
        }
        None => Ok((None, input.rest)),
    }
}

/// What the names of one declaration share: signedness, range and label.
#[derive(Drop)]
pub struct SignalType {
    pub signed: bool,
    pub span: Option<Span>,
    pub label: Option<LabelText>,
}

/// The type of a declaration.
pub fn read_signal_type<'a>(alloc: Global, input: Input<'a>) -> Read<'a, SignalType>
    ensures is { GivesAs result input.entry (λ x.
        IsTypedAs x.signed (option_map span_tree x.span) (option_map label_tree x.label)) }
    ensures shorter { NoLonger result input.entry }
    ensures reads { Leads result input.entry name_type [] }
    ensures halts { HaltsOn result input.entry name_type }
{
    let (signed, rest) = is_signed(input.rest);
    let (span, rest) = read_span(alloc, Input { rest, ..input })?;
    let (label, rest) = read_label(alloc, Input { rest, ..input })?;
    let signal_type = SignalType {
        signed,
        span,
        label,
    };
    Ok((signal_type, rest))
}

/// A second range that is equal.
pub fn span_copy(alloc: Global, span: &Option<Span>) -> Result<Option<Span>, AllocError>
    ensures { IfOk result (λ copy. option_map span_tree copy ≡ option_map span_tree span.now) }
{
    match span {
        Some(span) => Ok(Some(Span {
            high: span.high.copy(alloc)?,
            low: span.low.copy(alloc)?,
        })),
        None => Ok(None),
    }
}

// A second name that is equal.
fn name_copy(alloc: Global, name: &Option<Name>) -> Result<Option<Name>, AllocError>
    ensures { IfOk result (λ copy. copy ≡ name.now) }
{
    match name {
        Some(name) => Ok(Some(name.copy(alloc)?)),
        None => Ok(None),
    }
}

/// A second label that is equal.
pub fn label_copy(alloc: Global, label: &Option<LabelText>) -> Result<Option<LabelText>, AllocError>
    ensures { IfOk result (λ copy. option_map label_tree copy ≡ option_map label_tree label.now) }
{
    match label {
        Some(LabelText::Point(name, place)) => {
            Ok(Some(LabelText::Point(name.copy(alloc)?, *place)))
        }
        Some(LabelText::Table(map, first, second, place)) => Ok(Some(LabelText::Table(
            map.copy(alloc)?,
            first.copy(alloc)?,
            name_copy(alloc, second)?,
            *place,
        ))),
        None => Ok(None),
    }
}
