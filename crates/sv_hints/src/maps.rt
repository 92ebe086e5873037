// What is said of lattices and label maps.
use crate::cases::{Case, owned};
use crate::rows::Row;
use crate::sentences::{Hole, told};
use crate::tables::is_among;
use std::alloc::{AllocError, Global};
use sv_ast::{Expr, MapText, Span, Text};
use sv_num::{Name, Place};
use sv_token::Lit;

// How many numbers the ranges `[0:0]` to `[7:0]` have.
const COUNTS: [u64; 8] = [2, 4, 8, 16, 32, 64, 128, 256];

// How many keys the ranges of a map have at most.
const LARGEST_MAP: u64 = 256;

// A row of a label map: a key, a second part of it where the map has two ranges, and the point.
type MapRow = (Lit, Place, Option<(Lit, Place)>, Name);

/// The names of the points of a text, in a row.
pub fn points_of(alloc: Global, text: &Text) -> Result<String, AllocError> {
    let Some(lattice) = &text.lattice else {
        return owned(alloc, "`L`, `H`");
    };
    let mut row = Row::of_points(alloc);
    for point in &lattice.points {
        row.add(point.0.bytes(), "")?;
    }
    row.finish()
}

// Whether a text has a point of the name.
fn has_point(text: &Text, name: &[u8]) -> bool {
    if text.lattice.is_some() {
        first_point(text, name).is_some()
    } else {
        is_among(name, &[b"L", b"H"])
    }
}

/// Of a lattice of no point, or of too many.
pub fn lattice_size(alloc: Global, text: Option<&Text>) -> Result<String, AllocError> {
    match count_of_points(text) {
        Some(count) => told(
            alloc,
            "this lattice has {} points, and 1 to 32 there may be",
            &[Hole::Number(count)],
        ),
        None => owned(alloc, "a lattice has 1 to 32 points"),
    }
}

// How many points the lattice of a text has, where it has one.
fn count_of_points(text: Option<&Text>) -> Option<u64> {
    Some(text?.lattice.as_ref()?.points.len() as u64)
}

/// Of a point that is declared twice, or not at all.
pub fn lattice_name(alloc: Global, case: &Case, text: Option<&Text>) -> Result<String, AllocError> {
    let name = Hole::Name(case.name());
    let Some(text) = text else {
        return told(alloc, "`{}` is declared twice, or not at all", &[name]);
    };
    match first_point(text, case.name()) {
        Some(place) => told(
            alloc,
            "the point `{}` is declared twice, first at {}",
            &[name, Hole::Place(place)],
        ),
        None => told(
            alloc,
            "there is no point `{}`: declare it by `point {};`",
            &[name, name],
        ),
    }
}

// The place of the first point of the name.
fn first_point(text: &Text, name: &[u8]) -> Option<Place> {
    for point in &text.lattice.as_ref()?.points {
        if point.0.bytes() == name {
            return Some(point.1);
        }
    }
    None
}

/// Of a label map that is declared twice.
pub fn map_name(alloc: Global, case: &Case, text: Option<&Text>) -> Result<String, AllocError> {
    match first_map(text, case.name()) {
        Some(map) => told(
            alloc,
            "the label map `{}` is declared twice, first at {}",
            &[Hole::Name(case.name()), Hole::Place(map.place)],
        ),
        None => told(
            alloc,
            "the label map `{}` is declared twice",
            &[Hole::Name(case.name())],
        ),
    }
}

// The first map of a name.
fn first_map<'t>(text: Option<&'t Text>, name: &[u8]) -> Option<&'t MapText> {
    map_named(text?, name)
}

/// The label map of a name.
pub fn map_named<'t>(text: &'t Text, name: &[u8]) -> Option<&'t MapText> {
    text.maps.iter().find(|map| map.name.bytes() == name)
}

// The map at the place of a case.
fn map_at<'t>(text: &'t Text, case: &Case) -> Option<&'t MapText> {
    for map in &text.maps {
        if map.place == case.place {
            return Some(map);
        }
    }
    None
}

/// Of a label map with a wrong range, key or point.
pub fn map_row(alloc: Global, case: &Case, text: Option<&Text>) -> Result<String, AllocError> {
    if let Some(text) = text {
        if let Some(map) = map_at(text, case) {
            if let Some(fault) = map_fault(text, map) {
                let fault = fault_words(alloc, text, fault)?;
                return told(
                    alloc,
                    "label map `{}`: {}",
                    &[Hole::Name(case.name()), Hole::Words(fault.as_str())],
                );
            }
        }
    }
    told(
        alloc,
        "the label map `{}` has a wrong range, key or point, or a key twice",
        &[Hole::Name(case.name())],
    )
}

/// Whether a literal is a number below 0: a signed one whose highest bit is 1.
pub fn is_negative(number: &Lit) -> bool {
    let bits = number.bits;
    let below = (bits.width() as u32).saturating_sub(1);
    bits.signed() && matches!(bits.value().checked_shr(below), Some(1))
}

// The number of a literal that is not below 0.
fn number_in(expr: &Expr) -> Option<u64> {
    match expr {
        Expr::Number(number, _) if !is_negative(number) => Some(number.bits.value()),
        _ => None,
    }
}

// How many numbers a range of a map has; None where it is wrong.
fn count_of(span: &Span) -> Option<u64> {
    match (number_in(&span.high), number_in(&span.low)) {
        (Some(high), Some(0)) => COUNTS.get(high as usize).copied(),
        _ => None,
    }
}

/// How many numbers the ranges of a map have, 1 for a second one that there is not; None where they
/// are wrong.
pub fn counts_of(map: &MapText) -> Option<(u64, u64)> {
    let counts = each_count(map)?;
    if counts.0.saturating_mul(counts.1) <= LARGEST_MAP {
        Some(counts)
    } else {
        None
    }
}

// The same, however many they have together.
fn each_count(map: &MapText) -> Option<(u64, u64)> {
    let first = count_of(&map.span)?;
    let second = match &map.second {
        Some(span) => count_of(span)?,
        None => 1,
    };
    Some((first, second))
}

// What is wrong with a map: its ranges, a key at a place, one that has a row already, or a point.
#[derive(Clone, Copy)]
enum MapFault<'t> {
    Range(&'static str),
    Key(&'static str, Place),
    Twice(Place, Place),
    Point(&'t Name),
}

fn fault_words(alloc: Global, text: &Text, fault: MapFault) -> Result<String, AllocError> {
    match fault {
        MapFault::Range(words) => owned(alloc, words),
        MapFault::Key(sentence, place) => told(alloc, sentence, &[Hole::Place(place)]),
        MapFault::Twice(place, earlier) => told(
            alloc,
            "the key at {} has a row already, at {}",
            &[Hole::Place(place), Hole::Place(earlier)],
        ),
        MapFault::Point(point) => no_point(alloc, text, point.bytes()),
    }
}

/// That there is no point of a name.
pub fn no_point(alloc: Global, text: &Text, name: &[u8]) -> Result<String, AllocError> {
    let points = points_of(alloc, text)?;
    told(
        alloc,
        "there is no point `{}`; the points are {}",
        &[Hole::Name(name), Hole::Words(points.as_str())],
    )
}

// What is wrong with a map.
fn map_fault<'t>(text: &Text, map: &'t MapText) -> Option<MapFault<'t>> {
    let Some(counts) = counts_of(map) else {
        return Some(MapFault::Range(range_fault(map)));
    };
    if let Some(fault) = rows_fault(text, map, counts) {
        return Some(fault);
    }
    point_fault(text, map.other.as_ref()?)
}

// What is wrong with the ranges of a map.
fn range_fault(map: &MapText) -> &'static str {
    if each_count(map).is_some() {
        "its two ranges have over 8 bits together, which are the most"
    } else if map.second.is_some() {
        "each of its ranges is to be `[m:0]` with m from 0 to 7"
    } else {
        "its range is to be `[m:0]` with m from 0 to 7"
    }
}

// What is wrong with the rows of a map.
fn rows_fault<'t>(text: &Text, map: &'t MapText, counts: (u64, u64)) -> Option<MapFault<'t>> {
    for (number, row) in map.rows.iter().enumerate() {
        let earlier = map.rows.get(..number).unwrap_or(&[]);
        if let Some(fault) = row_fault(text, row, earlier, map.second.is_some(), counts) {
            return Some(fault);
        }
    }
    None
}

// What is wrong with a row, behind earlier ones.
fn row_fault<'t>(
    text: &Text,
    row: &'t MapRow,
    earlier: &[MapRow],
    is_double: bool,
    counts: (u64, u64),
) -> Option<MapFault<'t>> {
    if let Some(sentence) = key_fault(row, is_double, counts) {
        return Some(MapFault::Key(sentence, row.1));
    }
    match earlier_row(earlier, &row.0, &row.2) {
        Some(place) => Some(MapFault::Twice(row.1, place)),
        None => point_fault(text, &row.3),
    }
}

// What is wrong with the key of a row.
fn key_fault(row: &MapRow, is_double: bool, counts: (u64, u64)) -> Option<&'static str> {
    if row.2.is_some() != is_double {
        Some("the key at {} is to have a number for each range")
    } else if is_negative(&row.0) || is_second_negative(&row.2) {
        Some("the key at {} is below 0, since its `s` makes it signed: take the `s` away")
    } else if row.0.bits.value() >= counts.0 || second_value(&row.2) >= counts.1 {
        Some("the key at {} is outside of the range")
    } else {
        None
    }
}

// That there is no such point.
fn point_fault<'t>(text: &Text, point: &'t Name) -> Option<MapFault<'t>> {
    if has_point(text, point.bytes()) {
        None
    } else {
        Some(MapFault::Point(point))
    }
}

// Whether a second part of a key is below 0.
fn is_second_negative(other: &Option<(Lit, Place)>) -> bool {
    match other {
        Some((key, _)) => is_negative(key),
        None => false,
    }
}

// The value of a second part of a key.
fn second_value(other: &Option<(Lit, Place)>) -> u64 {
    match other {
        Some((key, _)) => key.bits.value(),
        None => 0,
    }
}

// The place of the row of a key.
fn earlier_row(rows: &[MapRow], key: &Lit, other: &Option<(Lit, Place)>) -> Option<Place> {
    for row in rows {
        if row.0.bits.value() == key.bits.value() && second_value(&row.2) == second_value(other) {
            return Some(row.1);
        }
    }
    None
}

/// Of a key without a row.
pub fn map_hole(alloc: Global, case: &Case, text: Option<&Text>) -> Result<String, AllocError> {
    let name = Hole::Name(case.name());
    match hole_in(text, case) {
        Some((key, None)) => told(
            alloc,
            "label map `{}` gives the key {} no point: add a row, or `default: POINT;`",
            &[name, Hole::Number(key)],
        ),
        Some((key, Some(other))) => told(
            alloc,
            "label map `{}` gives the key {}, {} no point: add a row, or `default: POINT;`",
            &[name, Hole::Number(key), Hole::Number(other)],
        ),
        None => told(
            alloc,
            "label map `{}` gives some key no point: add a row, or `default: POINT;`",
            &[name],
        ),
    }
}

// The first key without a row of the map at the place of a case: its numbers, of which there is a
// second one where the map has two ranges.
fn hole_in(text: Option<&Text>, case: &Case) -> Option<(u64, Option<u64>)> {
    let map = map_at(text?, case)?;
    let (key, other) = first_hole(map, counts_of(map)?)?;
    if map.second.is_some() {
        Some((key, Some(other)))
    } else {
        Some((key, None))
    }
}

// The first key without a row.
fn first_hole(map: &MapText, counts: (u64, u64)) -> Option<(u64, u64)> {
    for key in 0..counts.0 {
        if let Some(other) = hole_behind(map, key, counts.1) {
            return Some((key, other));
        }
    }
    None
}

// The first second part without a row behind a first one.
fn hole_behind(map: &MapText, key: u64, count: u64) -> Option<u64> {
    for other in 0..count {
        if !has_row(map, key, other) {
            return Some(other);
        }
    }
    None
}

// Whether a map has a row for the key.
fn has_row(map: &MapText, key: u64, other: u64) -> bool {
    for row in &map.rows {
        if row.0.bits.value() == key && second_value(&row.2) == other {
            return true;
        }
    }
    false
}
