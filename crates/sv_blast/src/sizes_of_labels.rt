// How many gates labels and flows between them take, up to one over the most variables.
ghost use Rattle.std.specs.Prelude.{◌≡◌, ℕ, ◌+◌, ◌<◌, ◌≤◌, false, ◌==◌, ◌&&◌, not, min, sum, map};
ghost use Rattle.std.specs.Prelude.{count_by};
ghost use Rattle.std.specs.Prelude.{length, slice_index_or, All};
ghost use Rattle.std.specs.List.{list_any, range_with_len};
ghost use Rattle.sv_lattice.specs.declared.points.Point.{Point};
ghost use Rattle.sv_lattice.specs.Labels.{map_of};
ghost use Rattle.sv_lattice.specs.Tables.{flow_test};
ghost use Rattle.sv_flat.specs.ByNumber.{signal_forms};
ghost use Rattle.sv_flat.specs.Views.{design_of};
ghost use Rattle.sv_design.specs.Designs.{IsDesign};
ghost use Rattle.sv_design.specs.Numbers.{numbers};
ghost use Rattle.sv_encoding.specs.Sizes.{point_size, selector_width, label_size};
ghost use Rattle.sv_encoding.specs.Sizes.{label_of_signal, stay_count, stays_size};
ghost use Rattle.sv_blast.specs.PointSizes.{points_size, has_point, stays_from, stays_between};
ghost use Rattle.sv_blast.specs.PointSizes.{stays_of};

use crate::sizes_of_expressions::width_of;
use crate::sizes_of_operators::{gate_chain_size, sum};
use sv_design::Design;
use sv_flat::{SigId, Signal};
use sv_gates::MOST_VARIABLES;
use sv_lattice::{Label, Lattice, Point};

// The most points that a lattice has.
const MOST_POINTS: usize = 32;

// ---- labels

// The label of a signal.
fn label_of(design: &Design, signal: SigId) -> Label
    requires { signal.0 < length design.now.signals.items }
    ensures label { result ≡ label_of_signal (design_of design.now) signal.0 }
    ensures design { IsDesign (design_of design.now) }
{
    design.signals()[signal.0 as usize].label
}

// The rows of a map, and none where there is no such map.
fn rows_of(design: &Design, map: u32) -> &[Point]
    ensures { result.now ≡ (map_of (design_of design.now).maps map).rows }
{
    match design.maps().get(map as usize) {
        Some(map) => map.rows(),
        None => &[],
    }
}

// The width of what selects.
fn selector_width(signals: &[Signal], first: u32, second: Option<u32>) -> u32
    ensures { result ≡ selector_width (signal_forms signals.now) first second }
{
    let width = u32::from(width_of(signals, SigId(first)));
    match second {
        Some(second) => u32::from(width_of(signals, SigId(second))) + width,
        None => width,
    }
}

// The gates of a point that so many keys select.
fn point_size(width: u32, keys: usize) -> u32
    ensures { result ≡ min (point_size width keys) 4194305 }
{
    let tests = keys.saturating_mul(width.saturating_sub(1) as usize);
    let most = MOST_VARIABLES as usize + 1;
    tests.saturating_add(keys.saturating_sub(1)).min(most) as u32
}

// How many rows have a point.
fn rows_with(rows: &[Point], point: u32) -> usize
    ensures { result ≡ count_by (λ (row : Point). row.0 == point) rows.now }
{
    rows.iter().filter(|row| u32::from(row.0) == point).count()
}

// The gates of all points of a lattice of so many that stand in rows.
fn points_size(points: u32, width: u32, rows: &[Point]) -> u32
    ensures { result ≡ min (points_size width rows.now (range_with_len 0 points)) 4194305 }
{
    let mut total = 0;
    for point in 0..points {
        total = sum(total, point_size(width, rows_with(rows, point)));
    }
    total
}

/// The gates of a signal's label.
pub fn label_size(design: &Design, signal: SigId) -> u32
    requires { signal.0 < length design.now.signals.items }
    ensures { result ≡ min (label_size (design_of design.now)
        (label_of_signal (design_of design.now) signal.0)) 4194305 }
{
    match label_of(design, signal) {
        Label::Point(_) => 0,
        Label::Table { map, first, second } => {
            let width = selector_width(design.signals(), first, second);
            points_size(design.lattice().size(), width, rows_of(design, map))
        }
    }
}

/// The gates of the labels of signals.
pub fn labels_size(design: &Design, signals: &[SigId]) -> u32
    requires { All (λ s. s < length design.now.signals.items) (numbers signals.now) }
    ensures { result ≡ min (sum (map (λ t. label_size (design_of design.now)
        (label_of_signal (design_of design.now) t)) (numbers signals.now))) 4194305 }
{
    let mut total = 0;
    for signal in signals {
        total = sum(total, label_size(design, *signal));
    }
    total
}

// ---- flows

// Whether some row has a point.
fn has_row(rows: &[Point], point: u32) -> bool
    ensures { result ≡ list_any (λ (row : Point). row.0 == point) rows.now }
{
    rows.iter().any(|row| u32::from(row.0) == point)
}

// Whether a label may be a point.
fn has_point(design: &Design, label: Label, point: u32) -> bool
    ensures { result ≡ has_point (design_of design.now) label point }
{
    match label {
        Label::Point(declared) => u32::from(declared.0) == point,
        Label::Table { map, .. } => has_row(rows_of(design, map), point),
    }
}

// For each point whether a label may be it.
fn points_of(design: &Design, label: Label) -> [bool; MOST_POINTS]
    ensures count { length design.now.lattice ≤ length result }
    ensures points { (p : ℕ) → p < length design.now.lattice →
        slice_index_or result p false ≡ has_point (design_of design.now) label p }
{
    let mut points = [false; MOST_POINTS];
    for point in 0..design.lattice().size() {
        points[point as usize] = has_point(design, label, point);
    }
    points
}

// Whether a point is the target's and another one does not flow to it.
fn stays(lattice: &Lattice, from: u8, to: u8, target: &[bool]) -> bool
    requires from { from < length lattice.now }
    requires to { to < length lattice.now }
    requires points { length lattice.now ≤ length target.now }
    ensures { result ≡
        (slice_index_or target.now to false && not (flow_test lattice.now from to)) }
{
    target[to as usize] && !lattice.flows(Point(from), Point(to))
}

// To how many points of the target a point does not flow.
fn stays_from(lattice: &Lattice, from: u8, target: &[bool]) -> u32
    requires from { from < length lattice.now }
    requires points { length lattice.now ≤ length target.now }
    ensures { result ≡ min (stays_from lattice.now from target.now
        (range_with_len 0 (length lattice.now))) 4194305 }
{
    let mut total = 0;
    for point in 0..lattice.size() {
        if stays(lattice, from, point as u8, target) {
            total = sum(total, 1);
        }
    }
    total
}

// How many pairs there are of a point of one label that does not flow to a point of the other.
fn stay_count(lattice: &Lattice, label: &[bool], target: &[bool]) -> u32
    requires label { length lattice.now ≤ length label.now }
    requires target { length lattice.now ≤ length target.now }
    ensures { result ≡ min (stays_between lattice.now label.now target.now
        (range_with_len 0 (length lattice.now))) 4194305 }
{
    let mut total = 0;
    for point in 0..lattice.size() {
        if label[point as usize] {
            total = sum(total, stays_from(lattice, point as u8, target));
        }
    }
    total
}

// The pairs that do not flow, for the labels of all reads.
fn stays_of(design: &Design, reads: &[SigId], target: &[bool]) -> u32
    requires known { All (λ s. s < length design.now.signals.items) (numbers reads.now) }
    requires target { length design.now.lattice ≤ length target.now }
    ensures { result ≡ min (stays_of (design_of design.now) target.now (numbers reads.now))
        4194305 }
{
    let mut total = 0;
    for read in reads {
        let label = points_of(design, label_of(design, *read));
        total = sum(total, stay_count(design.lattice(), &label, target));
    }
    total
}

/// The gates of whether some read's label does not flow to the target's.
pub fn stays_size(design: &Design, reads: &[SigId], target: SigId) -> u32
    requires known { All (λ s. s < length design.now.signals.items) (numbers reads.now) }
    requires target { target.0 < length design.now.signals.items }
    ensures { result ≡ min (stays_size (design_of design.now) (numbers reads.now) target.0)
        4194305 }
{
    let points = points_of(design, label_of(design, target));
    gate_chain_size(stays_of(design, reads, &points))
}
