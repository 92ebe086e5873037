// Whether a flat design is sound.
ghost use Rattle.std.specs.Prelude.{◌≡◌, ◌&&◌, map};
ghost use Rattle.std.specs.List.{list_all};
ghost use Rattle.sv_flat.specs.ByNumber.{signal_forms};
ghost use Rattle.sv_flat.specs.Soundness.{piece_fits, pieces_fit, statement_sound, is_whole};
ghost use Rattle.sv_flat.specs.Soundness.{is_one_assignment};
ghost use Rattle.sv_flat.specs.Soundness.{is_point, kind_sound, process_sound};
ghost use Rattle.sv_flat.specs.Soundness.{selector_fits, second_fits, label_sound, signal_sound};
ghost use Rattle.sv_flat.specs.Soundness.{map_sound, invariant_sound, sound};
ghost use Rattle.sv_flat.specs.Values.{signal_width};
ghost use Rattle.sv_flat.specs.Views.{typed_tree, piece_form, flat_statement, flat_statements};
ghost use Rattle.sv_flat.specs.Views.{chain_of, process_kind, process_form, signal_form};
ghost use Rattle.sv_flat.specs.Views.{invariant_form, design_of};

use crate::designs::{Flat, ProcKind, Process};
use crate::expressions::FExpr;
use crate::signals::{SigId, Signal};
use crate::statements::{FStmt, Piece};
use crate::typing::{is_part_of, is_signal, well_formed};
use crate::values::width_of_signal;
use sv_lattice::{Label, LabelMap, Point};

/// Whether the design keeps to what every flat design does: there are fewer than 4,294,967,295
/// signals, each of 1 to 64 bits, and a name for each point; every number of a signal, map or point
/// is that of one, every selector has the width of its range, and every expression is well formed;
/// each assigned piece lies inside its signal and takes bits inside the value; and what is no
/// `always` is one blocking assignment to whole signals.
pub fn sound(flat: &Flat) -> bool
    ensures { result ≡ sound (design_of flat.now) }
{
    flat.signals.len() < 4_294_967_295
        && flat.points.len() == flat.lattice.size() as usize
        && are_maps_sound(flat)
        && are_signals_sound(flat)
        && are_processes_sound(flat)
        && are_invariants_sound(flat)
}

fn are_maps_sound(flat: &Flat) -> bool
    ensures { result ≡ list_all (map_sound (design_of flat.now)) flat.now.maps.items }
{
    flat.maps.iter().all(|map| are_points(map.rows(), flat))
}

fn are_points(points: &[Point], flat: &Flat) -> bool
    ensures { result ≡ list_all (is_point (design_of flat.now)) points.now }
{
    points.iter().all(|point| is_point(*point, flat))
}

fn is_point(point: Point, flat: &Flat) -> bool
    ensures { result ≡ is_point (design_of flat.now) point }
{
    u32::from(point.0) < flat.lattice.size()
}

fn are_signals_sound(flat: &Flat) -> bool
    ensures { result ≡ list_all (signal_sound (design_of flat.now))
        (signal_forms flat.now.signals.items) }
{
    flat.signals
        .iter()
        .all(|signal| is_signal_sound(signal, flat))
}

fn is_signal_sound(signal: &Signal, flat: &Flat) -> bool
    ensures { result ≡ signal_sound (design_of flat.now) (signal_form signal.now) }
{
    1 <= signal.width && signal.width <= 64 && is_label_sound(&signal.label, flat)
}

fn is_label_sound(label: &Label, flat: &Flat) -> bool
    ensures { result ≡ label_sound (design_of flat.now) label.now }
{
    match label {
        Label::Point(point) => is_point(*point, flat),
        Label::Table { map, first, second } => match flat.maps.get(*map as usize) {
            Some(map) => are_selectors_sound(*first, *second, map, flat),
            None => false,
        },
    }
}

fn are_selectors_sound(first: u32, second: Option<u32>, map: &LabelMap, flat: &Flat) -> bool
    ensures { let signals = signal_forms flat.now.signals.items in
        result ≡ (selector_fits signals first map.now.first
        && second_fits signals second map.now.second) }
{
    let widths = map.widths();
    selector_fits(first, widths.0, flat)
        && match (second, widths.1) {
            (None, None) => true,
            (Some(second), Some(width)) => selector_fits(second, width, flat),
            _ => false,
        }
}

fn selector_fits(selector: u32, width: u8, flat: &Flat) -> bool
    ensures { result ≡ selector_fits (signal_forms flat.now.signals.items) selector width }
{
    let selector = SigId(selector);
    is_signal(selector, &flat.signals) && width_of_signal(selector, &flat.signals) == width
}

fn are_processes_sound(flat: &Flat) -> bool
    ensures { result ≡ list_all (process_sound (design_of flat.now))
        (map process_form flat.now.processes.items) }
{
    flat.processes
        .iter()
        .all(|process| is_process_sound(process, flat))
}

fn is_process_sound(process: &Process, flat: &Flat) -> bool
    ensures { result ≡ process_sound (design_of flat.now) (process_form process.now) }
{
    is_kind_sound(process.kind, &process.body, flat)
        && is_statement_sound(&process.body, &flat.signals)
}

fn is_kind_sound(kind: ProcKind, body: &FStmt, flat: &Flat) -> bool
    ensures { result ≡ kind_sound (design_of flat.now) (process_kind kind)
        (flat_statement body.now) }
{
    match kind {
        ProcKind::Assign | ProcKind::PortIn | ProcKind::PortOut => {
            is_one_assignment(body, &flat.signals)
        }
        ProcKind::Comb => true,
        ProcKind::Clocked(clock) => is_signal(clock, &flat.signals),
        ProcKind::Release(point) => {
            is_point(point, flat) && is_one_assignment(body, &flat.signals)
        }
    }
}

fn is_one_assignment(body: &FStmt, signals: &[Signal]) -> bool
    ensures { result ≡ is_one_assignment (signal_forms signals.now) (flat_statement body.now) }
{
    match body {
        FStmt::Assign {
            pieces,
            blocking,
            ..
        } => *blocking && are_whole(pieces, signals),
        FStmt::Block(_) | FStmt::If { .. } => false,
    }
}

fn are_whole(pieces: &[Piece], signals: &[Signal]) -> bool
    ensures { result ≡ list_all (is_whole (signal_forms signals.now)) (map piece_form pieces.now) }
{
    pieces.iter().all(|piece| is_whole(piece, signals))
}

fn is_whole(piece: &Piece, signals: &[Signal]) -> bool
    ensures { result ≡ is_whole (signal_forms signals.now) (piece_form piece.now) }
{
    piece.low == 0 && u16::from(piece.high) + 1 == width_or_none(piece.signal, signals)
}

// The width of a signal, and 0 where there is none.
fn width_or_none(signal: SigId, signals: &[Signal]) -> u16
    ensures { result ≡ signal_width (signal_forms signals.now) signal.0 }
{
    match signals.get(signal.0 as usize) {
        Some(signal) => u16::from(signal.width),
        None => 0,
    }
}

fn are_invariants_sound(flat: &Flat) -> bool
    ensures { result ≡ list_all (invariant_sound (design_of flat.now))
        (map invariant_form flat.now.invariants.items) }
{
    flat.invariants
        .iter()
        .all(|(_, expression)| well_formed(expression, &flat.signals))
}

// The statements after a condition are looked at one arm in the other, the last arm without a call:
// a `case` may have many arms.
#[cycle(statement_soundness)]
fn is_statement_sound(stmt: &FStmt, signals: &[Signal]) -> bool
    ensures { result ≡ statement_sound (signal_forms signals.now) (flat_statement stmt.now) }
{
    let mut stmt = stmt;
    loop {
        match stmt {
            FStmt::Assign { pieces, value, .. } => {
                return well_formed(value, signals) && do_pieces_fit(pieces, value, signals);
            }
            FStmt::Block(stmts) => return are_statements_sound(stmts, signals),
            FStmt::If { cond, yes, no, .. } => {
                if !well_formed(cond, signals) || !is_statement_sound(yes, signals) {
                    return false;
                }
                stmt = no;
            }
        }
    }
}

#[cycle(statement_soundness)]
fn are_statements_sound(stmts: &[FStmt], signals: &[Signal]) -> bool
    ensures { result ≡ statement_sound (signal_forms signals.now)
        (chain_of (flat_statements stmts.now)) }
{
    for stmt in stmts {
        if !is_statement_sound(stmt, signals) {
            return false;
        }
    }
    true
}

fn do_pieces_fit(pieces: &[Piece], value: &FExpr, signals: &[Signal]) -> bool
    ensures { result ≡ pieces_fit (signal_forms signals.now) (typed_tree value.now)
        (map piece_form pieces.now) }
{
    pieces
        .iter()
        .all(|piece| does_piece_fit(piece, value, signals))
}

fn does_piece_fit(piece: &Piece, value: &FExpr, signals: &[Signal]) -> bool
    ensures { result ≡ piece_fits (signal_forms signals.now) (typed_tree value.now)
        (piece_form piece.now) }
{
    is_signal(piece.signal, signals)
        && is_part_of(
            width_of_signal(piece.signal, signals),
            value.width.saturating_sub(piece.from),
            piece.high,
            piece.low,
        )
}
