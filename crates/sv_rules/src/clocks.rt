// Clocks, and rule 602.
ghost use Rattle.std.specs.Prelude.{◌≡◌, ◌<◌, length, IsTrue, IfOk};
ghost use Rattle.std.specs.List.{list_any};
ghost use Rattle.sv_flat.specs.Clocks.{has_edge, is_edge, is_clock_link, is_port_in};
ghost use Rattle.sv_flat.specs.Design.{PieceForm};
ghost use Rattle.sv_flat.specs.Processes.{is_top_kind, signals_that};
ghost use Rattle.sv_flat.specs.Soundness.{sound, process_sound};
ghost use Rattle.sv_flat.specs.Views.{design_of, process_form, process_kind};
ghost use Rattle.sv_rules.specs.Pieces.{piece_forms};
ghost use Rattle.sv_rules.specs.DriverTables.{AreClocks};
ghost use Rattle.sv_graph.specs.Marks.{Marks, is_marked};
ghost use Rattle.sv_rules.specs.ReadMarks.{HasClockBelow};
ghost use Rattle.sv_graph.specs.Numbers.{numbers};

use crate::links::clock_graph;
use crate::marks::unmarked;
use std::alloc::{AllocError, Global};
use sv_flat::{FStmt, Flat, Piece, ProcKind, Process, SigId, SigKind};
use sv_graph::{has_mark, listed, mark, search_from};

/// Whether a signal of the kind is an input of the top module.
pub fn is_top(kind: SigKind) -> bool
    ensures { result ≡ is_top_kind kind }
{
    matches!(kind, SigKind::TopInput)
}

// Whether some piece is one of a signal that the table has.
fn is_any(pieces: &[Piece], table: &[bool]) -> bool
    ensures { result ≡ list_any (λ (p : PieceForm).
        is_marked table.now p.signal) (piece_forms pieces.now) }
{
    pieces.iter().any(|piece| has_mark(table, piece.signal))
}

// Whether the process is a link to an input port.
fn links_input(kind: ProcKind) -> bool
    ensures { result ≡ is_port_in (process_kind kind) }
{
    matches!(kind, ProcKind::PortIn)
}

/// Whether the process is a link to a clock, which is no process.
pub fn is_clock_link(flat: &Flat, process: &Process, clocks: &[bool]) -> bool
    requires sound { IsTrue (process_sound (design_of flat.now) (process_form process.now)) }
    requires clocks { AreClocks (design_of flat.now) clocks.now }
    ensures { result ≡ is_clock_link (design_of flat.now) (process_form process.now) }
{
    if !links_input(process.kind) {
        return false;
    }
    match &process.body {
        FStmt::Assign { pieces, .. } => is_any(pieces, clocks),
        FStmt::Block(_) => false,
        FStmt::If { .. } => false,
    }
}

// Marks the clock of a process, where there is one.
fn mark_edge(table: &mut [bool], process: &Process)
    requires { HasClockBelow (length table.old) (process_kind process.now.kind) }
    ensures { Marks table.old table.new (λ s. has_edge s (process_kind process.now.kind)) }
{
    if let ProcKind::Clocked(clock) = process.kind {
        mark(table, clock);
    }
}

// The signals after `posedge`.
fn edges_of(alloc: Global, flat: &Flat) -> Result<Vec<SigId>, AllocError>
    requires { IsTrue (sound (design_of flat.now)) }
    ensures { IfOk result (λ edges.
        numbers edges.items ≡ signals_that (design_of flat.now) (is_edge (design_of flat.now))) }
{
    let mut table = unmarked(alloc, flat)?;
    for process in &flat.processes {
        mark_edge(&mut table, process);
    }
    listed(alloc, &table)
}

/// For each signal, whether it is a clock. It fails where memory runs out.
pub fn clock_table(alloc: Global, flat: &Flat) -> Result<Vec<bool>, AllocError>
    requires { IsTrue (sound (design_of flat.now)) }
    ensures { IfOk result (λ clocks. AreClocks (design_of flat.now) clocks.items) }
{
    let graph = clock_graph(alloc, flat)?;
    let edges = edges_of(alloc, flat)?;
    let clocks = search_from(alloc, &graph, 0, &edges)?;
    clocks.table(alloc)
}
