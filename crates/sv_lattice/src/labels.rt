// Label maps and labels.
ghost use Rattle.std.specs.Prelude.{◌≡◌, ◌↔◌, ◌<◌, ◌^◌, Some, None, length, IsSome, IfSome, IfOk};
ghost use Rattle.std.specs.Prelude.{unwrap_or};
ghost use Rattle.sv_lattice.specs.Maps.{IsMap, row_of, pair_value};
ghost use Rattle.sv_lattice.specs.Labels.{IsReadable, label_of};

use crate::points::Point;
use std::alloc::{AllocError, Global};
use std::marker::Model;

/// A point for each value of a range, or for each pair of values of two ranges. Each range has at
/// least 1 bit, and both together have at most 8.
#[derive(Debug, Drop)]
pub struct LabelMap {
    first: u8,
    second: Option<u8>,
    rows: Vec<Point>,
}

impl Model for LabelMap {
    ghost use Rattle.sv_lattice.specs.Maps.{MapRows, IsMap};

    ghost Value = { MapRows };

    ghost view = { λ m. record { first = m.first; second = m.second; rows = m.rows.items } };

    ghost invariant = { λ m. IsMap m.first m.second m.rows.items };
}

impl LabelMap {
    /// The map of one range with these rows, the first for the value 0. None unless the width is 1
    /// to 8 and there is a row for each value of that width.
    pub fn new(width: u8, rows: Vec<Point>) -> Option<LabelMap>
        ensures fits { IsSome result ↔ IsMap width None rows.items }
        ensures map { IfSome result (λ map.
            map ≡ record { first = width; second = None; rows = rows.items }) }
    {
        if width == 0 || width > 8 || rows.len() != 1 << width {
            return None;
        }
        Some(LabelMap {
            first: width,
            second: None,
            rows,
        })
    }

    /// The map of two ranges with these rows, in order of the first value and then of the second.
    /// None unless each width is at least 1, both together are at most 8, and there is a row for
    /// each pair of values.
    pub fn pair(first: u8, second: u8, rows: Vec<Point>) -> Option<LabelMap>
        ensures fits { IsSome result ↔ IsMap first (Some second) rows.items }
        ensures map { IfSome result (λ map.
            map ≡ record { first = first; second = Some second; rows = rows.items }) }
    {
        let width = u32::from(first) + u32::from(second);
        if first == 0 || second == 0 || width > 8 || rows.len() != 1 << width {
            return None;
        }
        Some(LabelMap {
            first,
            second: Some(second),
            rows,
        })
    }

    /// The width of the first range, and that of the second where there are two.
    pub fn widths(&self) -> (u8, Option<u8>)
        ensures widths { result ≡ (self.now.first, self.now.second) }
        ensures map { IsMap self.now.first self.now.second self.now.rows }
    {
        (self.first, self.second)
    }

    /// The rows, in order of the value, or of the first value and then of the second.
    pub fn rows(&self) -> &[Point]
        ensures rows { result.now ≡ self.now.rows }
        ensures map { IsMap self.now.first self.now.second self.now.rows }
    {
        self.rows.as_slice()
    }

    /// The row at a value, or at the value of a pair.
    pub fn row(&self, value: u64) -> Point
        requires { value < length self.now.rows }
        ensures { result ≡ row_of self.now value }
    {
        self.rows[value as usize]
    }

    // The value of a pair, which is the number of a row.
    #[tactic(auto, using(crate::proofs::MapLemmas::pair_has_row))]
    fn pair_value(&self, first: u64, second: u64) -> u64
        requires first { first < 2 ^ self.now.first }
        requires second { second < 2 ^ unwrap_or self.now.second 0 }
        ensures value { result ≡ pair_value self.now first second }
        ensures row { result < length self.now.rows }
    {
        (first << self.second.unwrap_or(0)) + second
    }

    /// A second map that is equal.
    pub fn copy(&self, alloc: Global) -> Result<LabelMap, AllocError>
        ensures { IfOk result (λ map. map ≡ self.now) }
    {
        Ok(LabelMap {
            first: self.first,
            second: self.second,
            rows: self.rows.as_slice().to_vec(alloc)?,
        })
    }
}

/// What a signal's label is: a point, or the row of a map at the value of a selecting signal or of
/// a pair of them.
#[derive(Clone, Copy, Debug, PartialEq, Eq)]
pub enum Label {
    /// A declared point.
    Point(Point),
    /// The map and the selectors by number, a second one where the map has two ranges.
    Table {
        map: u32,
        first: u32,
        second: Option<u32>,
    },
}

/// The point of a label where the signals have the given values, by signal number.
pub fn label_at(maps: &[LabelMap], label: &Label, values: &[u64]) -> Point
    requires { IsReadable maps.now label.now values.now }
    ensures { result ≡ label_of maps.now label.now values.now }
{
    match *label {
        Label::Point(point) => point,
        Label::Table { map, first, second } => {
            let map = &maps[map as usize];
            let first = values[first as usize];
            match second {
                None => map.rows[first as usize],
                Some(second) => map.row(map.pair_value(first, values[second as usize])),
            }
        }
    }
}
