// Tables that say of each signal whether it is marked.
ghost use Rattle.std.specs.Prelude.{◌≡◌, ◌<◌, ◌==◌, false, length, replicate, IsTrue, OnOk, IfOk};
ghost use Rattle.sv_flat.specs.Assigned.{assigns};
ghost use Rattle.sv_flat.specs.Readings.{names_signal};
ghost use Rattle.sv_flat.specs.Soundness.{sound, statement_sound, well_formed};
ghost use Rattle.sv_flat.specs.Views.{design_of, typed_tree, flat_statement, flat_statements};
ghost use Rattle.sv_flat.specs.Views.{chain_of};
ghost use Rattle.sv_rules.specs.Pieces.{piece_forms};
ghost use Rattle.sv_rules.specs.DriverTables.{AreTargets, IsSoundOver, assigned_in};
ghost use Rattle.sv_graph.specs.Marks.{Marks};
ghost use Rattle.sv_rules.specs.ReadMarks.{reads_in};

use crate::names::names_in;
use std::alloc::{AllocError, Global};
use sv_flat::{FExpr, FStmt, Flat, Piece};
use sv_graph::mark;

/// A table in which no signal is marked. It fails where memory runs out.
pub fn unmarked(alloc: Global, flat: &Flat) -> Result<Vec<bool>, AllocError>
    ensures { IfOk result (λ table. table.items ≡ replicate (length flat.now.signals.items) false) }
{
    vec![in alloc; false; flat.signals.len()]
}

// Marks the signals of pieces.
fn mark_pieces(table: &mut [bool], pieces: &[Piece])
    requires { AreTargets (length table.old) (piece_forms pieces.now) }
    ensures { Marks table.old table.new (assigned_in (piece_forms pieces.now)) }
{
    for piece in pieces {
        mark(table, piece.signal);
    }
}

/// Marks the signals that a statement assigns.
#[cycle(mark_targets)]
pub fn mark_targets(table: &mut [bool], stmt: &FStmt)
    requires { IsSoundOver (length table.old) (flat_statement stmt.now) }
    ensures { Marks table.old table.new (assigns (flat_statement stmt.now)) }
{
    match stmt {
        FStmt::Assign { pieces, .. } => mark_pieces(table, pieces),
        FStmt::Block(stmts) => mark_all_targets(table, stmts),
        FStmt::If { yes, no, .. } => {
            mark_targets(table, yes);
            mark_targets(table, no);
        }
    }
}

#[cycle(mark_targets)]
fn mark_all_targets(table: &mut [bool], stmts: &[FStmt])
    requires { IsSoundOver (length table.old) (chain_of (flat_statements stmts.now)) }
    ensures { Marks table.old table.new (assigns (chain_of (flat_statements stmts.now))) }
{
    for stmt in stmts {
        mark_targets(table, stmt);
    }
}

/// Marks the signals that an expression names. It fails where memory runs out.
pub fn mark_names(
    alloc: Global,
    flat: &Flat,
    table: &mut [bool],
    expr: &FExpr,
) -> Result<(), AllocError>
    requires formed { IsTrue (well_formed (design_of flat.now).signals (typed_tree expr.now)) }
    requires size { length table.old ≡ length flat.now.signals.items }
    ensures { OnOk result
        (Marks table.old table.new
        (names_signal (design_of flat.now).signals (typed_tree expr.now))) }
{
    let names = names_in(alloc, flat.signals.as_slice(), expr)?;
    for name in &names {
        mark(table, name.signal);
    }
    Ok(())
}

/// Marks the signals that a statement reads. It fails where memory runs out.
#[cycle(mark_reads)]
pub fn mark_reads(
    alloc: Global,
    flat: &Flat,
    table: &mut [bool],
    stmt: &FStmt,
) -> Result<(), AllocError>
    requires stmt { IsTrue
        (statement_sound (design_of flat.now).signals (flat_statement stmt.now)) }
    requires size { length table.old ≡ length flat.now.signals.items }
    ensures { OnOk result
        (Marks table.old table.new
        (reads_in (design_of flat.now).signals (flat_statement stmt.now))) }
{
    match stmt {
        FStmt::Assign { value, .. } => mark_names(alloc, flat, table, value),
        FStmt::Block(stmts) => mark_all_reads(alloc, flat, table, stmts),
        FStmt::If { cond, yes, no, .. } => {
            mark_names(alloc, flat, table, cond)?;
            mark_reads(alloc, flat, table, yes)?;
            mark_reads(alloc, flat, table, no)
        }
    }
}

#[cycle(mark_reads)]
fn mark_all_reads(
    alloc: Global,
    flat: &Flat,
    table: &mut [bool],
    stmts: &[FStmt],
) -> Result<(), AllocError>
    requires stmts { IsTrue
        (statement_sound (design_of flat.now).signals (chain_of (flat_statements stmts.now))) }
    requires size { length table.old ≡ length flat.now.signals.items }
    ensures { OnOk result
        (Marks table.old table.new
        (reads_in (design_of flat.now).signals (chain_of (flat_statements stmts.now)))) }
{
    for stmt in stmts {
        mark_reads(alloc, flat, table, stmt)?;
    }
    Ok(())
}
