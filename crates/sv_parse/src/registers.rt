// Registers and memories (IEEE 1364-2005, clause 4; the forms of memories are this project's
// profile).
ghost use Rattle.std.specs.Prelude.{◌≡◌, ◌<◌, ℕ, List, length, map, true, false, IfOk, [], ◌∷◌};
ghost use Rattle.std.specs.Option.{option_map};
ghost use Rattle.sv_token.specs.Lexemes.{placed_tokens, literal_of};
ghost use Rattle.sv_token.specs.declared.signs.SignKind.TheVariants as signs;
ghost use Rattle.sv_token.specs.declared.keywords.WordKind.TheVariants as words;
ghost use Rattle.sv_ast.specs.Tree as tree;
ghost use Rattle.sv_ast.specs.Views.{span_tree, label_tree, memory_label_tree, memory_tree};
ghost use Rattle.sv_ast.specs.Views.{declaration_tree, item_tree};
ghost use Rattle.sv_ast.specs.GrammarForms.{◌⨾◌, ◌or◌, flag, perhaps, a_sign, a_number};
ghost use Rattle.sv_ast.specs.GrammarForms.{in_brackets};
ghost use Rattle.sv_ast.specs.GrammarStatements.{IsNext, only};
ghost use Rattle.sv_ast.specs.GrammarDeclarations.{IsRange, AreSignals, IsMemory};
ghost use Rattle.sv_ast.specs.GrammarModules.{all_as};
ghost use Rattle.sv_ast.specs.GrammarRules.{all_limits};
ghost use Rattle.sv_parse_machine.specs.Symbols.{outer, plain_name, perhaps_signed};
ghost use Rattle.sv_parse_machine.specs.Symbols.{perhaps_range, reg_label, reg_label_end};
ghost use Rattle.sv_parse_machine.specs.Symbols.{label_selector};
ghost use Rattle.sv_parse_machine.specs.Symbols.{more_names, items};
ghost use Rattle.sv_parse_machine.specs.Machine.{outside_on};
ghost use Rattle.sv_parse_machine.specs.Reads.{Reads};
ghost use Rattle.sv_parse_expr.specs.Parses.{placed, in_text, Comes, GivesAs, Gives, Shortens};
ghost use Rattle.sv_parse_expr.specs.Parses.{NoLonger, Leads, HaltsOn, TakesNoMemory};
ghost use Rattle.sv_parse.specs.Reading.{LeadsToEnd};
ghost use Rattle.sv_parse.specs.ReadingDeclarations.{memory_bounds, memory_end, behind_name};
ghost use Rattle.sv_parse.specs.ReadingItems.{IsRegLabelEnd, IsOpenRegLabel, IsRegLabel};
ghost use Rattle.sv_parse.specs.ReadingItems.{MayBeMemory, MayBeSignal, memory_label_of};
ghost use Rattle.sv_parse.specs.ReadingItems.{signal_label_of, IsMemoryAs};

use crate::declarations::{Registers, declared};
use crate::types::{is_signed, read_span, read_table_label};
use std::alloc::Global;
use sv_ast::{Decl, DeclKind, Item, LabelText, MemLabel, Memory, Span};
use sv_num::{Name, Place};
use sv_parse_expr::cursor::{behind, expect_sign, expect_word, read_name, read_number};
use sv_parse_expr::lists::{one, read_list_from};
use sv_parse_expr::stop::{Input, Read};
use sv_token::{Lit, SignKind, Token, WordKind};

// The label behind `reg` and its range: that of a register or of a memory, or of a memory alone.
#[derive(Drop)]
enum RegLabel {
    None,
    Point(Name, Place),
    Table(LabelText),
    ByIndex(Name, Place),
}

// A label with a selector or an index, behind its map and the `(`.
fn read_selected_label<'a>(
    alloc: Global,
    input: Input<'a>,
    map: Name,
    place: Place,
) -> Read<'a, RegLabel>
    ensures is { GivesAs result input.entry (IsRegLabelEnd map place) }
    ensures shorter { Shortens result input.entry }
    ensures reads { IfOk result (λ x.
        Comes (label_selector ∷ []) (plain_name ∷ behind_name x.0) input.entry x.1.now) }
    ensures halts { HaltsOn result input.entry (label_selector ∷ []) }
{
    match behind(SignKind::Hash, input.rest) {
        Some(rest) => {
            let rest = expect_sign(SignKind::CloseParenthesis, rest)?;
            let rest = expect_sign(SignKind::CloseBrace, rest)?;
            Ok((RegLabel::ByIndex(map, place), rest))
        }
        None => {
            let (label, rest) = read_table_label(alloc, input, map, place)?;
            Ok((RegLabel::Table(label), rest))
        }
    }
}

// A label, behind its brace. It is not read by `read_open_label` of `types`: the grammar has own
// symbols for labels of registers, which go on at a `#` and leave behind the `}` what the label
// allows, a memory or registers or both. One function for both would promise each clause twice, and
// what they share, a label with selectors, is `read_table_label`.
fn read_open_reg_label<'a>(alloc: Global, input: Input<'a>) -> Read<'a, RegLabel>
    ensures is { GivesAs result input.entry IsOpenRegLabel }
    ensures shorter { Shortens result input.entry }
    ensures reads { IfOk result (λ x.
        Comes (plain_name ∷ reg_label_end ∷ []) (plain_name ∷ behind_name x.0)
        input.entry x.1.now) }
    ensures halts { HaltsOn result input.entry (plain_name ∷ reg_label_end ∷ []) }
{
    let (name, place, rest) = read_name(alloc, input)?;
    if let Some(rest) = behind(SignKind::OpenParenthesis, rest) {
        let (label, rest) = read_selected_label(alloc, Input { rest, ..input }, name, place)?;
        return Ok((label, rest));
    }
    let rest = expect_sign(SignKind::CloseBrace, rest)?;
    Ok((RegLabel::Point(name, place), rest))
}

// A label, if one comes.
fn read_reg_label<'a>(alloc: Global, input: Input<'a>) -> Read<'a, RegLabel>
    ensures is { GivesAs result input.entry IsRegLabel }
    ensures shorter { NoLonger result input.entry }
    ensures reads { IfOk result (λ x.
        Comes (reg_label ∷ []) (plain_name ∷ behind_name x.0) input.entry x.1.now) }
    ensures halts { HaltsOn result input.entry (reg_label ∷ []) }
{
    match behind(SignKind::OpenBrace, input.rest) {
        Some(rest) => {
            let (label, rest) = read_open_reg_label(alloc, Input { rest, ..input })?;
            Ok((label, rest))
        }
        None => Ok((RegLabel::None, input.rest)),
    }
}

// What stands behind `reg` up to the name.
#[derive(Drop)]
struct RegType {
    signed: bool,
    span: Option<Span>,
    label: RegLabel,
}

fn read_reg_type<'a>(alloc: Global, input: Input<'a>) -> Read<'a, RegType>
    ensures is { GivesAs result input.entry (λ x.
        flag words.Signed x.signed ⨾ perhaps (IsRange all_limits) (option_map span_tree x.span)
        ⨾ IsRegLabel x.label) }
    ensures shorter { NoLonger result input.entry }
    ensures reads { IfOk result (λ x.
        Comes (perhaps_signed ∷ perhaps_range ∷ reg_label ∷ []) (plain_name ∷ behind_name x.0.label)
        input.entry x.1.now) }
    ensures halts { HaltsOn result input.entry (perhaps_signed ∷ perhaps_range ∷ reg_label ∷ []) }
{
    let (signed, rest) = is_signed(input.rest);
    let (span, rest) = read_span(alloc, Input { rest, ..input })?;
    let (label, rest) = read_reg_label(alloc, Input { rest, ..input })?;
    let reg_type = RegType {
        signed,
        span,
        label,
    };
    Ok((reg_type, rest))
}

// Whether the first token behind the name begins the range of a memory.
fn is_memory(label: &RegLabel, tokens: &[Token]) -> bool
    ensures memory { result ≡ true → MayBeMemory label.now }
    ensures signal { result ≡ false → MayBeSignal label.now }
    ensures words { (bytes : List ℕ) → result ≡ true →
        Reads (outside_on (behind_name label.now)) (outside_on memory_end)
        (placed_tokens bytes tokens.now) (placed_tokens bytes tokens.now) }
    ensures names { (bytes : List ℕ) → result ≡ false →
        Reads (outside_on (behind_name label.now)) (outer (more_names signs.Semicolon) ∷ [])
        (placed_tokens bytes tokens.now) (placed_tokens bytes tokens.now) }
{
    match label {
        RegLabel::None | RegLabel::Point(..) => { behind(SignKind::OpenBracket, tokens).is_some() }
        RegLabel::Table(_) => false,
        RegLabel::ByIndex(..) => true,
    }
}

// The label of a memory; no label of a register alone is one.
fn memory_label(label: RegLabel) -> Option<MemLabel>
    ensures { option_map memory_label_tree result ≡ memory_label_of label }
{
    match label {
        RegLabel::None | RegLabel::Table(_) => None,
        RegLabel::Point(point, place) => Some(MemLabel::Point(point, place)),
        RegLabel::ByIndex(map, place) => Some(MemLabel::ByIndex(map, place)),
    }
}

// The label of a register; no label of a memory alone is one.
fn signal_label(label: RegLabel) -> Option<LabelText>
    ensures { option_map label_tree result ≡ signal_label_of label }
{
    match label {
        RegLabel::None | RegLabel::ByIndex(..) => None,
        RegLabel::Point(point, place) => Some(LabelText::Point(point, place)),
        RegLabel::Table(table) => Some(table),
    }
}

// The first and the last number of a memory's words, in brackets.
fn read_bounds(tokens: &[Token]) -> Read<'_, (Lit, Lit)>
    ensures is { (bytes : List ℕ) →
        GivesAs result (in_text bytes tokens.now) (λ x.
        in_brackets (a_number (literal_of x.0) ⨾ a_sign signs.Colon ⨾ a_number (literal_of x.1))) }
    ensures shorter { IfOk result (λ x. length x.1.now < length tokens.now) }
    ensures reads { (bytes : List ℕ) → Leads result (in_text bytes tokens.now) memory_bounds [] }
    ensures halts { (bytes : List ℕ) → HaltsOn result (in_text bytes tokens.now) memory_bounds }
    ensures memory { TakesNoMemory result }
{
    let rest = expect_sign(SignKind::OpenBracket, tokens)?;
    let (first, _place, rest) = read_number(rest)?;
    let rest = expect_sign(SignKind::Colon, rest)?;
    let (last, _at, rest) = read_number(rest)?;
    let rest = expect_sign(SignKind::CloseBracket, rest)?;
    Ok(((first, last), rest))
}

// A memory, behind its name.
fn read_memory(of: RegType, name: Name, place: Place, tokens: &[Token]) -> Read<'_, Memory>
    ensures is { (bytes : List ℕ) →
        Gives result (in_text bytes tokens.now) memory_tree
        (IsMemoryAs of.signed (option_map span_tree of.span) (memory_label_of of.label)
        name place) }
    ensures shorter { IfOk result (λ x. length x.1.now < length tokens.now) }
    ensures reads { (bytes : List ℕ) → Leads result (in_text bytes tokens.now) memory_bounds [] }
    ensures halts { (bytes : List ℕ) → HaltsOn result (in_text bytes tokens.now) memory_bounds }
    ensures memory { TakesNoMemory result }
{
    let ((first, last), rest) = read_bounds(tokens)?;
    let RegType {
        signed,
        span,
        label,
    } = of;
    let memory = Memory {
        signed,
        span,
        label: memory_label(label),
        name,
        place,
        first,
        last,
    };
    Ok((memory, rest))
}

// The first register, behind its name.
fn first_register(of: RegType, name: Name, place: Place) -> Decl
    ensures { declaration_tree result ≡ record {
      kind = DeclKind.Reg;
      signed = of.signed;
      span = option_map span_tree of.span;
      label = signal_label_of of.label;
      name = name;
      place = place;
      value = None;
    } }
{
    let RegType {
        signed,
        span,
        label,
    } = of;
    Decl {
        kind: DeclKind::Reg,
        signed,
        span,
        label: signal_label(label),
        name,
        place,
        value: None,
    }
}

/// The registers of an item that begins with `reg`, or its memory.
pub fn read_registers<'a>(alloc: Global, input: Input<'a>) -> Read<'a, Vec<Item>>
    ensures is { GivesAs result input.entry (λ x.
        all_as tree.declared (AreSignals all_limits) (map item_tree x.items)
        or all_as tree.memory_item (only (IsMemory all_limits)) (map item_tree x.items)) }
    ensures shorter { Shortens result input.entry }
    ensures reads { IsNext words.Reg (placed input.entry) → LeadsToEnd result input.entry }
    ensures halts { IsNext words.Reg (placed input.entry) →
        HaltsOn result input.entry (items ∷ []) }
{
    let (_place, rest) = expect_word(WordKind::Reg, input.rest)?;
    let (of, rest) = read_reg_type(alloc, Input { rest, ..input })?;
    let (name, place, rest) = read_name(alloc, Input { rest, ..input })?;
    if is_memory(&of.label, rest) {
        let (memory, rest) = read_memory(of, name, place, rest)?;
        let items = one(alloc, Item::Memory(memory))?;
        return Ok((items, rest));
    }
    let first = first_register(of, name, place);
    let (decls, rest) = read_list_from::<Registers>(alloc, Input { rest, ..input }, 0, first)?;
    let items = declared(alloc, decls)?;
    Ok((items, rest))
}
