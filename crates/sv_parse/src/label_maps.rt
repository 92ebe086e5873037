// Label maps (SecVerilog, ASPLOS 2015; ranges and rows are this project's profile).
ghost use Rattle.std.specs.Prelude.{◌≡◌, ◌<◌, ◌≤◌, true, false, ℕ, List, length, IfOk, [], ◌∷◌};
ghost use Rattle.std.specs.Option.{option_map};
ghost use Rattle.sv_token.specs.Lexemes.{placed_tokens};
ghost use Rattle.sv_token.specs.declared.signs.SignKind.TheVariants as signs;
ghost use Rattle.sv_token.specs.declared.keywords.WordKind.TheVariants as words;
ghost use Rattle.sv_ast.specs.Views.{span_tree, key_tree, row_tree, map_tree};
ghost use Rattle.sv_ast.specs.GrammarForms.{◌⨾◌, perhaps, each, a_word, a_sign, a_name};
ghost use Rattle.sv_ast.specs.GrammarModules.{IsKeyRange, IsKey, IsRow, IsMap};
ghost use Rattle.sv_ast.specs.GrammarStatements.{IsNext};
ghost use Rattle.sv_parse.specs.ReadingDeclarations.{to_point};
ghost use Rattle.sv_parse.specs.ReadingItems.{IsOpenKeyRange, range_tree};
ghost use Rattle.sv_parse.specs.ReadingTexts.{EndsRows};
ghost use Rattle.sv_parse_machine.specs.Symbols.{punctuation, plain_number, perhaps_maps};
ghost use Rattle.sv_parse_machine.specs.Symbols.{perhaps_key_range, rows, perhaps_second_key};
ghost use Rattle.sv_parse_machine.specs.Symbols.{end_of_map};
ghost use Rattle.sv_parse_machine.specs.ModuleTable.{number_range};
ghost use Rattle.sv_parse_machine.specs.Reads.{NextIsNotWord};
ghost use Rattle.sv_parse_expr.specs.Parses.{placed, in_text, GivesAs, Gives, GivesAll, Shortens};
ghost use Rattle.sv_parse_expr.specs.Parses.{NoLonger, Leads, HaltsOn, TakesNoMemory};

use std::alloc::Global;
use sv_ast::{Expr, MapText, Span};
use sv_num::{Name, Place};
use sv_parse_expr::cursor::{
    behind, behind_word, expect_sign, expect_word, read_name, read_number,
};
use sv_parse_expr::stop::{Input, Read};
use sv_token::{Lit, SignKind, Token, TokenKind, WordKind};

// A range of plain numbers, each with its place. It is made a tree last: a tree that is held where
// reading may stop makes proofs costly.
#[derive(Clone, Copy)]
struct KeyRange {
    high: Lit,
    high_place: Place,
    low: Lit,
    low_place: Place,
}

// The tree of a range.
fn span_of(range: KeyRange) -> Span
    ensures { span_tree result ≡ range_tree range }
{
    Span {
        high: Expr::Number(range.high, range.high_place),
        low: Expr::Number(range.low, range.low_place),
    }
}

// The tree of a range, if there is one.
fn perhaps_span(range: Option<KeyRange>) -> Option<Span>
    ensures { option_map span_tree result ≡ option_map range_tree range }
{
    match range {
        Some(range) => Some(span_of(range)),
        None => None,
    }
}

// A range of plain numbers, behind its `[`.
fn read_open_range(tokens: &[Token]) -> Read<'_, KeyRange>
    ensures is { (bytes : List ℕ) →
        Gives result (in_text bytes tokens.now) range_tree IsOpenKeyRange }
    ensures shorter { IfOk result (λ x. length x.1.now < length tokens.now) }
    ensures reads { (bytes : List ℕ) → Leads result (in_text bytes tokens.now) number_range [] }
    ensures halts { (bytes : List ℕ) → HaltsOn result (in_text bytes tokens.now) number_range }
    ensures memory { TakesNoMemory result }
{
    let (high, high_place, rest) = read_number(tokens)?;
    let rest = expect_sign(SignKind::Colon, rest)?;
    let (low, low_place, rest) = read_number(rest)?;
    let rest = expect_sign(SignKind::CloseBracket, rest)?;
    let range = KeyRange {
        high,
        high_place,
        low,
        low_place,
    };
    Ok((range, rest))
}

// A range, which has to come.
fn read_range(tokens: &[Token]) -> Read<'_, KeyRange>
    ensures is { (bytes : List ℕ) → Gives result (in_text bytes tokens.now) range_tree IsKeyRange }
    ensures shorter { IfOk result (λ x. length x.1.now < length tokens.now) }
    ensures reads { (bytes : List ℕ) →
        Leads result (in_text bytes tokens.now) (punctuation signs.OpenBracket ∷ number_range) [] }
    ensures halts { (bytes : List ℕ) →
        HaltsOn result (in_text bytes tokens.now) (punctuation signs.OpenBracket ∷ number_range) }
    ensures memory { TakesNoMemory result }
{
    let rest = expect_sign(SignKind::OpenBracket, tokens)?;
    let (range, rest) = read_open_range(rest)?;
    Ok((range, rest))
}

// A second range, if one comes.
fn read_second_range(tokens: &[Token]) -> Read<'_, Option<KeyRange>>
    ensures is { (bytes : List ℕ) →
        Gives result (in_text bytes tokens.now) (option_map range_tree) (perhaps IsKeyRange) }
    ensures shorter { IfOk result (λ x. length x.1.now ≤ length tokens.now) }
    ensures reads { (bytes : List ℕ) →
        Leads result (in_text bytes tokens.now) (perhaps_key_range ∷ []) [] }
    ensures halts { (bytes : List ℕ) →
        HaltsOn result (in_text bytes tokens.now) (perhaps_key_range ∷ []) }
    ensures memory { TakesNoMemory result }
{
    match behind(SignKind::OpenBracket, tokens) {
        Some(rest) => {
            let (range, rest) = read_open_range(rest)?;
            Ok((Some(range), rest))
        }
        None => Ok((None, tokens)),
    }
}

// A second key, if one comes.
fn read_second_key(tokens: &[Token]) -> Read<'_, Option<(Lit, Place)>>
    ensures is { (bytes : List ℕ) →
        Gives result (in_text bytes tokens.now) (option_map key_tree)
        (perhaps (λ k. a_sign signs.Comma ⨾ IsKey k)) }
    ensures shorter { IfOk result (λ x. length x.1.now ≤ length tokens.now) }
    ensures reads { (bytes : List ℕ) →
        Leads result (in_text bytes tokens.now) (perhaps_second_key ∷ []) [] }
    ensures halts { (bytes : List ℕ) →
        HaltsOn result (in_text bytes tokens.now) (perhaps_second_key ∷ []) }
    ensures memory { TakesNoMemory result }
{
    match behind(SignKind::Comma, tokens) {
        Some(rest) => {
            let (value, place, rest) = read_number(rest)?;
            Ok((Some((value, place)), rest))
        }
        None => Ok((None, tokens)),
    }
}

// A point behind a `:`, and the `;` behind it.
fn read_to_point<'a>(alloc: Global, input: Input<'a>) -> Read<'a, Name>
    ensures is { GivesAs result input.entry (λ x.
        a_sign signs.Colon ⨾ a_name x ⨾ a_sign signs.Semicolon) }
    ensures shorter { Shortens result input.entry }
    ensures reads { Leads result input.entry to_point [] }
    ensures halts { HaltsOn result input.entry to_point }
{
    let rest = expect_sign(SignKind::Colon, input.rest)?;
    let (point, _place, rest) = read_name(alloc, Input { rest, ..input })?;
    let rest = expect_sign(SignKind::Semicolon, rest)?;
    Ok((point, rest))
}

// A row: a key or two, with their places, and the point.
type Row = (Lit, Place, Option<(Lit, Place)>, Name);

fn read_row<'a>(alloc: Global, input: Input<'a>) -> Read<'a, Row>
    ensures is { Gives result input.entry row_tree IsRow }
    ensures shorter { Shortens result input.entry }
    ensures reads { Leads result input.entry (plain_number ∷ perhaps_second_key ∷ to_point) [] }
    ensures halts { HaltsOn result input.entry (plain_number ∷ perhaps_second_key ∷ to_point) }
{
    let (first, place, rest) = read_number(input.rest)?;
    let (second, rest) = read_second_key(rest)?;
    let (point, rest) = read_to_point(alloc, Input { rest, ..input })?;
    Ok(((first, place, second, point), rest))
}

// Whether no further row comes, but `default` or the last word.
fn ends_rows(tokens: &[Token]) -> bool
    ensures ends { (bytes : List ℕ) → result ≡ true → EndsRows (placed_tokens bytes tokens.now) }
    ensures default { (bytes : List ℕ) → result ≡ false →
        NextIsNotWord WordKind.Default (placed_tokens bytes tokens.now) }
    ensures last { (bytes : List ℕ) → result ≡ false →
        NextIsNotWord WordKind.Endlabelmap (placed_tokens bytes tokens.now) }
{
    match tokens {
        [first, ..] => match first.kind {
            TokenKind::Word(WordKind::Default | WordKind::Endlabelmap) => true,
            _ => false,
        },
        [] => false,
    }
}

// The rows, and then `default` or the last word.
fn read_rows<'a>(alloc: Global, input: Input<'a>) -> Read<'a, Vec<Row>>
    ensures is { GivesAll result input.entry row_tree (each IsRow) }
    ensures shorter { NoLonger result input.entry }
    ensures reads { Leads result input.entry (rows ∷ []) (rows ∷ []) }
    ensures halts { HaltsOn result input.entry (rows ∷ []) }
    ensures ends { IfOk result (λ x. EndsRows (placed_tokens input.entry.bytes.now x.1.now)) }
{
    let mut rows = Vec::new(alloc);
    let mut rest = input.rest;
    while !ends_rows(rest) {
        let (row, more) = read_row(alloc, Input { rest, ..input })?;
        rows.push(row)?;
        rest = more;
    }
    Ok((rows, rest))
}

// The point of the other keys, if one comes.
fn read_other<'a>(alloc: Global, input: Input<'a>) -> Read<'a, Option<Name>>
    ensures is { GivesAs result input.entry
        (perhaps (λ x. a_word words.Default ⨾ a_sign signs.Colon ⨾ a_name x
        ⨾ a_sign signs.Semicolon)) }
    ensures shorter { NoLonger result input.entry }
    ensures reads { EndsRows (placed input.entry) →
        Leads result input.entry (rows ∷ []) (end_of_map ∷ []) }
    ensures halts { EndsRows (placed input.entry) → HaltsOn result input.entry (rows ∷ []) }
{
    match behind_word(WordKind::Default, input.rest) {
        Some(rest) => {
            let (point, rest) = read_to_point(alloc, Input { rest, ..input })?;
            Ok((Some(point), rest))
        }
        None => Ok((None, input.rest)),
    }
}

/// A label map.
pub fn read_label_map<'a>(alloc: Global, input: Input<'a>) -> Read<'a, MapText>
    ensures is { Gives result input.entry map_tree IsMap }
    ensures shorter { Shortens result input.entry }
    ensures reads { IsNext WordKind.Labelmap (placed input.entry) →
        Leads result input.entry (perhaps_maps ∷ []) (perhaps_maps ∷ []) }
    ensures halts { IsNext WordKind.Labelmap (placed input.entry) →
        HaltsOn result input.entry (perhaps_maps ∷ []) }
{
    let (_word, rest) = expect_word(WordKind::Labelmap, input.rest)?;
    let (name, place, rest) = read_name(alloc, Input { rest, ..input })?;
    let (range, rest) = read_range(rest)?;
    let (second, rest) = read_second_range(rest)?;
    let (rows, rest) = read_rows(alloc, Input { rest, ..input })?;
    let (other, rest) = read_other(alloc, Input { rest, ..input })?;
    let (_last, rest) = expect_word(WordKind::Endlabelmap, rest)?;
    let map = MapText {
        name,
        place,
        span: span_of(range),
        second: perhaps_span(second),
        rows,
        other,
    };
    Ok((map, rest))
}
