// Rule 601: which assignments stand where they may.
ghost use Rattle.std.specs.Prelude.{◌≡◌, ◌<◌, ◌≤◌, List, [], IfOk, IsTrue};
ghost use Rattle.std.specs.List.{list_all, list_any};
ghost use Rattle.sv_flat.specs.Design.{TypedTree, PieceForm};
ghost use Rattle.sv_flat.specs.Views.{design_of, piece_form, process_kind, flat_statement};
ghost use Rattle.sv_flat.specs.Views.{flat_statements, chain_of};
ghost use Rattle.sv_flat.specs.Soundness.{sound, piece_fits, statement_sound};
ghost use Rattle.sv_flat.specs.Assignments.{is_wrong_sign, is_wrong_kind, is_wrong_target, overlap};
ghost use Rattle.sv_flat.specs.Assignments.{targets_after, wrong_assigns};
ghost use Rattle.sv_flat.specs.Processes.{is_reg_kind};
ghost use Rattle.sv_rules.specs.Pieces.{HoldsPieces, piece_forms};
ghost use Rattle.sv_rules.specs.First.{FindsFirst};
ghost use Rattle.sv_rules.specs.WrongAssigns.{wrong_of, wrong_in};

use crate::clocks::is_top;
use crate::found::{Found, first_of, found_if};
use std::alloc::{AllocError, Global};
use sv_flat::{FStmt, Flat, Piece, ProcKind, SigKind};
use sv_graph::{BitSet, mask, share};

// Whether `=` or `<=` is the wrong sign.
fn wrong_sign(kind: ProcKind, blocking: bool) -> bool
    ensures { result ≡ is_wrong_sign (process_kind kind) blocking }
{
    match kind {
        ProcKind::Clocked(_) => blocking,
        ProcKind::Comb => !blocking,
        _ => false,
    }
}

fn is_reg(kind: SigKind) -> bool
    ensures { result ≡ is_reg_kind kind }
{
    matches!(kind, SigKind::Reg | SigKind::OutputReg)
}

// Whether such a process may not assign such a signal.
fn wrong_kind(kind: ProcKind, target: SigKind) -> bool
    ensures { result ≡ is_wrong_kind (process_kind kind) target }
{
    match kind {
        ProcKind::Clocked(_) | ProcKind::Comb => !is_reg(target),
        ProcKind::Assign | ProcKind::PortOut | ProcKind::Release(_) => {
            is_reg(target) || is_top(target)
        }
        ProcKind::PortIn => false,
    }
}

// Whether a bit of the piece is among those that were assigned before.
fn is_again(before: &BitSet, piece: &Piece) -> bool
    requires ordered { piece.now.low ≤ piece.now.high }
    requires few { piece.now.high < 64 }
    ensures { (passed : List PieceForm) → HoldsPieces before.now passed →
        result ≡ list_any (overlap (piece_form piece.now)) passed }
{
    share(before.of(piece.signal), mask(piece.high, piece.low))
}

// Whether an assignment may not have the piece as a target.
fn is_wrong(flat: &Flat, kind: ProcKind, piece: &Piece, blocking: bool, before: &BitSet) -> bool
    requires sound { IsTrue (sound (design_of flat.now)) }
    requires fits { (e : TypedTree)
        × IsTrue (piece_fits (design_of flat.now).signals e (piece_form piece.now)) }
    ensures { (passed : List PieceForm) → HoldsPieces before.now passed
        → result ≡ is_wrong_target (design_of flat.now) (process_kind kind)
        (record { piece = piece_form piece.now; before = passed; blocking = blocking }) }
{
    let target = flat.signals[piece.signal.0 as usize].kind;
    let sign = wrong_sign(kind, blocking);
    let of_kind = wrong_kind(kind, target);
    let again = is_again(before, piece);
    sign | of_kind | again
}

// The first wrong target of an assignment.
fn wrong_piece(
    alloc: Global,
    flat: &Flat,
    kind: ProcKind,
    pieces: &[Piece],
    blocking: bool,
) -> Result<Option<Found>, AllocError>
    requires sound { IsTrue (sound (design_of flat.now)) }
    requires fit { (e : TypedTree)
        × IsTrue (list_all (piece_fits (design_of flat.now).signals e) (piece_forms pieces.now)) }
    ensures { IfOk result
        (FindsFirst 601 (wrong_of (design_of flat.now) (process_kind kind)
        (targets_after [] (piece_forms pieces.now) blocking))) }
{
    let mut found = None;
    let mut before = BitSet::new(alloc);
    for piece in pieces {
        let wrong = is_wrong(flat, kind, piece, blocking, &before);
        found = first_of(found, found_if(wrong, piece.place, piece.signal));
        before.add(piece.signal, mask(piece.high, piece.low))?;
    }
    Ok(found)
}

// The first wrong target of a statement.
#[cycle(wrong_target)]
fn wrong_target(
    alloc: Global,
    flat: &Flat,
    kind: ProcKind,
    stmt: &FStmt,
) -> Result<Option<Found>, AllocError>
    requires sound { IsTrue (sound (design_of flat.now)) }
    requires stmt { IsTrue
        (statement_sound (design_of flat.now).signals (flat_statement stmt.now)) }
    ensures { IfOk result
        (FindsFirst 601 (wrong_in (design_of flat.now) (process_kind kind)
        (flat_statement stmt.now))) }
{
    match stmt {
        FStmt::Assign {
            pieces,
            blocking,
            ..
        } => wrong_piece(alloc, flat, kind, pieces, *blocking),
        FStmt::Block(stmts) => wrong_in_all(alloc, flat, kind, stmts),
        FStmt::If { yes, no, .. } => {
            let found = wrong_target(alloc, flat, kind, yes)?;
            let other = wrong_target(alloc, flat, kind, no)?;
            Ok(first_of(found, other))
        }
    }
}

// The first wrong target of some statements.
#[cycle(wrong_target)]
fn wrong_in_all(
    alloc: Global,
    flat: &Flat,
    kind: ProcKind,
    stmts: &[FStmt],
) -> Result<Option<Found>, AllocError>
    requires sound { IsTrue (sound (design_of flat.now)) }
    requires stmts { IsTrue
        (statement_sound (design_of flat.now).signals (chain_of (flat_statements stmts.now))) }
    ensures { IfOk result
        (FindsFirst 601 (wrong_in (design_of flat.now) (process_kind kind)
        (chain_of (flat_statements stmts.now)))) }
{
    let mut found = None;
    for stmt in stmts {
        found = first_of(found, wrong_target(alloc, flat, kind, stmt)?);
    }
    Ok(found)
}

/// The first assignment that breaks rule 601.
pub fn first_wrong_assign(alloc: Global, flat: &Flat) -> Result<Option<Found>, AllocError>
    requires { IsTrue (sound (design_of flat.now)) }
    ensures { IfOk result (FindsFirst 601 (wrong_assigns (design_of flat.now))) }
{
    let mut found = None;
    for process in &flat.processes {
        let wrong = wrong_target(alloc, flat, process.kind, &process.body)?;
        found = first_of(found, wrong);
    }
    Ok(found)
}
