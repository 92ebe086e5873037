// The label maps of a text.
ghost use Rattle.std.specs.Prelude.{◌≡◌, ℕ, ◌^◌, ◌+◌, ◌<◌, ◌≤◌, ◌∷◌, [], false, true, List, Result};
ghost use Rattle.std.specs.Prelude.{Option, Some, None, Ok, Err, map, option_map, unwrap_or};
ghost use Rattle.std.specs.Prelude.{length, slice_index_or, IfOk, IfErr, MatchOption, IsTrue, OnOk};
ghost use Rattle.std.specs.List.{list_all};
ghost use Rattle.sv_num.specs.Vectors.{number_of};
ghost use Rattle.sv_token.specs.Lexemes.{literal_of};
ghost use Rattle.sv_lattice.specs.Maps.{MapRows, IsMap};
ghost use Rattle.sv_ast.specs.Shape.{is_number, is_plain_span, is_shaped_map};
ghost use Rattle.sv_ast.specs.Values.{whole_number};
ghost use Rattle.sv_ast.specs.Views.{expression_tree, span_tree, row_tree, map_tree, text_tree};
ghost use Rattle.sv_elab_rules.specs.Lattices.{point_number};
ghost use Rattle.sv_elab_rules.specs.ExpressionSteps.{is_below};
ghost use Rattle.sv_elab_rules.specs.LabelMaps.{no_names, is_map_range, rows_walk, default_walk};
ghost use Rattle.sv_elab_rules.specs.LabelMaps.{map_walk, maps_walk, key_value};
ghost use Rattle.sv_width.specs.Answers.{IsBreach};
ghost use Rattle.sv_width.specs.Answers.{whole_part};
ghost use Rattle.sv_elab.specs.MapParts.{first_width, second_width, bits_of, bits_in, has_ranges};
ghost use Rattle.sv_elab.specs.MapParts.{IsRange, HasWidths, is_row_key, IsPart, IsValue};
ghost use Rattle.sv_elab.specs.MapParts.{IsWrongRow, IsRow, IsTable, AreFilled, is_whole};
ghost use Rattle.sv_elab.specs.MapParts.{points_in, own_walk};

use crate::lattices::Points;
use indexmap::IndexMap;
use std::alloc::Global;
use sv_ast::{Expr, MapText, Span};
use sv_lattice::{LabelMap, Point};
use sv_num::{Bits, Fault, Name, OutOfMemory, Place, Rule};
use sv_token::Lit;
use sv_width::{natural, refusal_naming};

// The most bits that the ranges of a map have in all.
const MOST_BITS: u8 = 8;

// A row of a map, as its tree has it.
type Row = (Lit, Place, Option<(Lit, Place)>, Name);

// The widths of a map's ranges.
#[derive(Clone, Copy)]
struct Ranges {
    first: u8,
    second: Option<u8>,
}

// The whole number that a plain bound is, if it is not negative.
fn bound(expr: &Expr) -> Option<u64>
    requires { IsTrue (is_number (expression_tree expr.now)) }
    ensures { result ≡ whole_part (whole_number no_names (expression_tree expr.now)) }
{
    match expr {
        Expr::Number(number, _) => natural(number.bits),
        _ => unreachable!(),
    }
}

// The width of a range `[m:0]` with m from 0 to 7.
fn range_width(span: &Span) -> Option<u8>
    requires { IsTrue (is_plain_span (span_tree span.now)) }
    ensures { MatchOption result (is_map_range (span_tree span.now) ≡ false)
        (IsRange (span_tree span.now)) }
{
    let high = bound(&span.high)?;
    let low = bound(&span.low)?;
    if low == 0 && high < 8 {
        Some(high as u8 + 1)
    } else {
        None
    }
}

// The widths of the ranges, which have at most 8 bits in all.
fn widths(text: &MapText) -> Option<Ranges>
    requires { IsTrue (is_shaped_map (map_tree text.now)) }
    ensures { MatchOption result (has_ranges (map_tree text.now) ≡ false)
        (HasWidths (map_tree text.now)) }
{
    let first = range_width(&text.span)?;
    match &text.second {
        None => Some(Ranges {
            first,
            second: None,
        }),
        Some(span) => {
            let second = range_width(span)?;
            if first + second > MOST_BITS {
                return None;
            }
            Some(Ranges {
                first,
                second: Some(second),
            })
        }
    }
}

// A part of a key as a value of so many bits.
fn key_part(bits: Bits, width: u8) -> Option<u64>
    requires { width ≤ 8 }
    ensures { MatchOption result (is_below (2 ^ width) (number_of bits) ≡ false) (λ value.
        IsPart width bits value) }
{
    let value = natural(bits)?;
    if value < 1 << width {
        Some(value)
    } else {
        None
    }
}

// The value of a row's key, if it has a part for each range that fits it.
fn row_value(ranges: Ranges, row: &Row) -> Option<u64>
    requires { bits_in ranges.first ranges.second ≤ 8 }
    ensures { MatchOption result
        (is_row_key ranges.first ranges.second (row_tree row.now) ≡ false)
        (IsValue ranges.first ranges.second (row_tree row.now)) }
{
    let first = key_part(row.0.bits, ranges.first)?;
    match (ranges.second, &row.2) {
        (None, None) => Some(first),
        (Some(width), Some((second, _))) => {
            let second = key_part(second.bits, width)?;
            Some((first << width) + second)
        }
        _ => None,
    }
}

// The value of a row and its point, if the key fits, the value has no point yet, and the row's is
// one.
fn row_entry(
    points: &Points,
    ranges: Ranges,
    table: &[Option<Point>],
    row: &Row,
) -> Option<(usize, Point)>
    requires bits { bits_in ranges.first ranges.second ≤ 8 }
    requires size { length table.now ≡ 2 ^ bits_in ranges.first ranges.second }
    ensures { MatchOption result
        (IsWrongRow points.now.points ranges.first ranges.second table.now (row_tree row.now))
        (λ found. IsRow points.now.points ranges.first ranges.second table.now (row_tree row.now)
        found.0 found.1) }
{
    let value = row_value(ranges, row)? as usize;
    if table[value].is_some() {
        return None;
    }
    let point = points.find(&row.3)?;
    Some((value, point))
}

// The table of the points that the rows give. Rule 307 refuses the first row that is wrong.
fn filled(
    alloc: Global,
    points: &Points,
    ranges: Ranges,
    text: &MapText,
) -> Result<Vec<Option<Point>>, Fault>
    requires bits { bits_in ranges.first ranges.second ≤ 8 }
    ensures found { IfOk result (λ table.
        AreFilled points.now.points (map_tree text.now) ranges.first ranges.second table.items) }
    ensures broken { IfErr result
        (IsBreach (rows_walk points.now.points (map_tree text.now) ranges.first ranges.second []
        (map_tree text.now).rows).end) }
{
    let mut table = vec![in alloc; None; 1 << (ranges.first + ranges.second.unwrap_or(0))]?;
    for row in &text.rows {
        match row_entry(points, ranges, &table, row) {
            Some((value, point)) => table[value] = Some(point),
            None => return Err(refusal_naming(alloc, Rule::MapRow, text.place, &text.name)),
        }
    }
    Ok(table)
}

// The point of the other keys. Rule 307 refuses a name that is no point.
fn other_point(alloc: Global, points: &Points, text: &MapText) -> Result<Option<Point>, Fault>
    ensures found { IfOk result (λ p.
        (default_walk points.now.points (map_tree text.now) (map_tree text.now).other).end ≡
        Ok (option_map (λ q. q.0) p)) }
    ensures broken { IfErr result
        (IsBreach (default_walk points.now.points (map_tree text.now)
        (map_tree text.now).other).end) }
{
    match &text.other {
        None => Ok(None),
        Some(name) => match points.find(name) {
            Some(point) => Ok(Some(point)),
            None => Err(refusal_naming(alloc, Rule::MapRow, text.place, &text.name)),
        },
    }
}

// The points of all values, if each has one in the table or by default.
fn all_points(
    alloc: Global,
    table: &[Option<Point>],
    other: Option<Point>,
) -> Result<Option<Vec<Point>>, OutOfMemory>
    ensures { IfOk result (λ found. MatchOption found (is_whole table.now other ≡ false)
        (λ all. (is_whole table.now other ≡ true) × (all.items ≡ points_in table.now other))) }
{
    let mut all = Vec::new(alloc);
    for entry in table {
        match entry.or(other) {
            Some(point) => all.push(point)?,
            None => return Ok(None),
        }
    }
    Ok(Some(all))
}

// The map of these ranges and rows.
fn new_map(ranges: Ranges, rows: Vec<Point>) -> LabelMap
    requires { IsMap ranges.first ranges.second rows.items }
    ensures { result ≡ record { first = ranges.first; second = ranges.second; rows = rows.items } }
{
    match ranges.second {
        None => LabelMap::new(ranges.first, rows).unwrap(),
        Some(second) => LabelMap::pair(ranges.first, second, rows).unwrap(),
    }
}

// A label map whose name is new.
fn label_map(alloc: Global, points: &Points, text: &MapText) -> Result<LabelMap, Fault>
    requires { IsTrue (is_shaped_map (map_tree text.now)) }
    ensures found { IfOk result (λ map.
        (own_walk points.now.points (map_tree text.now)).end ≡ Ok map) }
    ensures broken { IfErr result (IsBreach (own_walk points.now.points (map_tree text.now)).end) }
{
    match widths(text) {
        Some(ranges) => map_of(alloc, points, ranges, text),
        None => Err(refusal_naming(alloc, Rule::MapRow, text.place, &text.name)),
    }
}

// The label map with these ranges.
fn map_of(alloc: Global, points: &Points, ranges: Ranges, text: &MapText) -> Result<LabelMap, Fault>
    requires { HasWidths (map_tree text.now) ranges }
    ensures found { IfOk result (λ map.
        (own_walk points.now.points (map_tree text.now)).end ≡ Ok map) }
    ensures broken { IfErr result (IsBreach (own_walk points.now.points (map_tree text.now)).end) }
{
    let table = filled(alloc, points, ranges, text)?;
    let other = other_point(alloc, points, text)?;
    match all_points(alloc, &table, other)? {
        Some(rows) => Ok(new_map(ranges, rows)),
        None => Err(refusal_naming(alloc, Rule::MapHole, text.place, &text.name)),
    }
}

/// The label maps of a text by name. Rules 306 to 308 refuse the first map that breaks one of them.
pub fn label_maps(
    alloc: Global,
    points: &Points,
    texts: &[MapText],
) -> Result<IndexMap<Name, LabelMap>, Fault>
    requires { IsTrue (list_all is_shaped_map (map map_tree texts.now)) }
    ensures found { IfOk result (λ maps.
        (maps_walk points.now.points [] (map map_tree texts.now)).end ≡ Ok maps.entries) }
    ensures broken { IfErr result
        (IsBreach (maps_walk points.now.points [] (map map_tree texts.now)).end) }
{
    let mut maps = IndexMap::new(alloc);
    for text in texts {
        if maps.contains_key(&text.name) {
            return Err(refusal_naming(alloc, Rule::MapName, text.place, &text.name));
        }
        let map = label_map(alloc, points, text)?;
        maps.insert(text.name.copy(alloc)?, map)?;
    }
    Ok(maps)
}
