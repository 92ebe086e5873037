// Runs of processes, on values by signal number.
ghost use Rattle.std.specs.Prelude.{◌≡◌, ◌<◌, ◌≤◌, ◌/◌, ◌^◌, ◌==◌, true, false, [], fold, map};
ghost use Rattle.std.specs.Prelude.{length, IsTrue, IsFalse};
ghost use Rattle.sv_flat.specs.ByNumber.{signal_forms, by_number, FitSignals, AreWords, updated};
ghost use Rattle.sv_flat.specs.ByNumber.{is_nonblocking, is_branch};
ghost use Rattle.sv_flat.specs.declared.statements.FStmt.{size-FStmt};
ghost use Rattle.sv_flat.specs.Design.{TypedTree};
ghost use Rattle.sv_flat.specs.Runs.{Updates, with_piece, put_piece, run, run_alone};
ghost use Rattle.sv_flat.specs.Soundness.{pieces_fit, well_formed, statement_sound};
ghost use Rattle.sv_flat.specs.Values.{value, signal_width};
ghost use Rattle.sv_flat.specs.Views.{typed_tree, piece_form, flat_statement, flat_statements};
ghost use Rattle.sv_flat.specs.Views.{chain_of};

use crate::bits::{replaced_bits, shifted};
use crate::expressions::FExpr;
use crate::signals::Signal;
use crate::statements::{FStmt, Piece};
use crate::values::{value_of, width_of_signal};

/// Runs a sound statement on the values (IEEE 1364-2005, clauses 6 and 9): each blocking assignment
/// changes them where it stands, and nonblocking ones are left aside.
#[cycle(blocking_runs)]
pub fn run_body(body: &FStmt, signals: &[Signal], values: &mut [u64])
    requires sound { IsTrue (statement_sound (signal_forms signals.now) (flat_statement body.now)) }
    requires words { AreWords (signal_forms signals.now) }
    requires fit { FitSignals (signal_forms signals.now) values.old }
    ensures run { by_number values.new
        ≡ run_alone (signal_forms signals.now) (flat_statement body.now) (by_number values.old) }
    ensures fit { FitSignals (signal_forms signals.now) values.new }
{
    match selected(body, signals, values) {
        FStmt::Assign {
            pieces,
            blocking,
            value,
            ..
        } => {
            if *blocking {
                assign(pieces, value, signals, values);
            }
        }
        FStmt::Block(stmts) => run_all(stmts, signals, values),
        FStmt::If { .. } => unreachable!(),
    }
}

// The arm that is taken, and of an `if` in it the arm that is taken, and so on. No call goes down
// here, since a `case` may have many arms.
fn selected<'a>(body: &'a FStmt, signals: &[Signal], values: &[u64]) -> &'a FStmt
    requires sound { IsTrue (statement_sound (signal_forms signals.now) (flat_statement body.now)) }
    requires fit { FitSignals (signal_forms signals.now) values.now }
    ensures sound { IsTrue
        (statement_sound (signal_forms signals.now) (flat_statement result.now)) }
    ensures nonblocking { IsTrue (is_nonblocking (flat_statement body.now)) →
        IsTrue (is_nonblocking (flat_statement result.now)) }
    ensures run { let forms = signal_forms signals.now in
        (updates : Updates) → run forms (flat_statement result.now) (by_number values.now, updates)
        ≡ run forms (flat_statement body.now) (by_number values.now, updates) }
    ensures taken { IsFalse (is_branch (flat_statement result.now)) }
    ensures depth { size-FStmt result.now ≤ size-FStmt body.now }
{
    let mut body = body;
    while let FStmt::If { cond, yes, no, .. } = body {
        if value_of(cond, signals, values) != 0 {
            body = yes;
        } else {
            body = no;
        }
    }
    body
}

// Runs the statements one after the other.
#[cycle(blocking_runs)]
fn run_all(stmts: &[FStmt], signals: &[Signal], values: &mut [u64])
    requires sound { IsTrue
        (statement_sound (signal_forms signals.now) (chain_of (flat_statements stmts.now))) }
    requires words { AreWords (signal_forms signals.now) }
    requires fit { FitSignals (signal_forms signals.now) values.old }
    ensures run { by_number values.new
        ≡ run_alone (signal_forms signals.now) (chain_of (flat_statements stmts.now))
        (by_number values.old) }
    ensures fit { FitSignals (signal_forms signals.now) values.new }
{
    for stmt in stmts {
        run_body(stmt, signals, values);
    }
}

// A blocking assignment: the value is taken once, and the pieces are put in textual order.
fn assign(pieces: &[Piece], expr: &FExpr, signals: &[Signal], values: &mut [u64])
    requires formed { IsTrue (well_formed (signal_forms signals.now) (typed_tree expr.now)) }
    requires inside { IsTrue (pieces_fit (signal_forms signals.now) (typed_tree expr.now)
        (map piece_form pieces.now)) }
    requires words { AreWords (signal_forms signals.now) }
    requires fit { FitSignals (signal_forms signals.now) values.old }
    ensures run { let forms = signal_forms signals.now in
        let right = value forms (by_number values.old) (typed_tree expr.now) in
        by_number values.new ≡
        (fold (put_piece forms true right) (by_number values.old, [])
        (map piece_form pieces.now)).0 }
    ensures fit { FitSignals (signal_forms signals.now) values.new }
{
    let right = value_of(expr, signals, values);
    put_pieces(pieces, right, signals, values);
}

// Puts the pieces of a right side's value in textual order.
fn put_pieces(pieces: &[Piece], right: u64, signals: &[Signal], values: &mut [u64])
    requires inside { (e : TypedTree) × IsTrue
        (pieces_fit (signal_forms signals.now) e (map piece_form pieces.now)) }
    requires words { AreWords (signal_forms signals.now) }
    requires fit { FitSignals (signal_forms signals.now) values.old }
    ensures run { by_number values.new ≡ (fold (put_piece (signal_forms signals.now) true right)
        (by_number values.old, []) (map piece_form pieces.now)).0 }
    ensures fit { FitSignals (signal_forms signals.now) values.new }
{
    for piece in pieces {
        let place = piece.signal.0 as usize;
        values[place] = with_piece(piece, right, values[place], signals);
    }
}

// A signal's value in which the bits of the piece are those that it takes from the right side's
// value.
fn with_piece(piece: &Piece, right: u64, old: u64, signals: &[Signal]) -> u64
    requires known { piece.now.signal.0 < length signals.now }
    requires order { piece.now.low ≤ piece.now.high }
    requires inside { piece.now.high < signal_width (signal_forms signals.now) piece.now.signal.0 }
    requires words { AreWords (signal_forms signals.now) }
    ensures value { result ≡ with_piece (signal_forms signals.now) (piece_form piece.now)
        right old }
    ensures range { result < 2 ^ signal_width (signal_forms signals.now) piece.now.signal.0 }
{
    let width = width_of_signal(piece.signal, signals);
    replaced_bits(
        old,
        width,
        piece.high,
        piece.low,
        shifted(right, u64::from(piece.from)),
    )
}

/// Runs a sound statement without blocking assignments on the values, and makes what it updates in
/// the next values: where these have some updates made already, they get those of the run after
/// them (IEEE 1364-2005, clause 9.2.2).
#[cycle(nonblocking_runs)]
pub fn update_body(body: &FStmt, signals: &[Signal], values: &[u64], next: &mut [u64])
    requires sound { IsTrue (statement_sound (signal_forms signals.now) (flat_statement body.now)) }
    requires nonblocking { IsTrue (is_nonblocking (flat_statement body.now)) }
    requires words { AreWords (signal_forms signals.now) }
    requires fit { FitSignals (signal_forms signals.now) values.now }
    requires next_fit { FitSignals (signal_forms signals.now) next.old }
    ensures run { (updates : Updates) → by_number next.old ≡ updated (by_number values.now) updates
        → by_number next.new ≡ updated (by_number values.now)
        (run (signal_forms signals.now) (flat_statement body.now)
        (by_number values.now, updates)).1 }
    ensures fit { FitSignals (signal_forms signals.now) next.new }
{
    match selected(body, signals, values) {
        FStmt::Assign { pieces, value, .. } => update(pieces, value, signals, values, next),
        FStmt::Block(stmts) => update_all(stmts, signals, values, next),
        FStmt::If { .. } => unreachable!(),
    }
}

#[cycle(nonblocking_runs)]
fn update_all(stmts: &[FStmt], signals: &[Signal], values: &[u64], next: &mut [u64])
    requires sound { IsTrue
        (statement_sound (signal_forms signals.now) (chain_of (flat_statements stmts.now))) }
    requires nonblocking { IsTrue (is_nonblocking (chain_of (flat_statements stmts.now))) }
    requires words { AreWords (signal_forms signals.now) }
    requires fit { FitSignals (signal_forms signals.now) values.now }
    requires next_fit { FitSignals (signal_forms signals.now) next.old }
    ensures run { (updates : Updates) → by_number next.old ≡ updated (by_number values.now) updates
        → by_number next.new ≡ updated (by_number values.now)
        (run (signal_forms signals.now) (chain_of (flat_statements stmts.now))
        (by_number values.now, updates)).1 }
    ensures fit { FitSignals (signal_forms signals.now) next.new }
{
    for stmt in stmts {
        update_body(stmt, signals, values, next);
    }
}

// A nonblocking assignment: a piece keeps what is pending of the signal's other bits.
fn update(pieces: &[Piece], expr: &FExpr, signals: &[Signal], values: &[u64], next: &mut [u64])
    requires formed { IsTrue (well_formed (signal_forms signals.now) (typed_tree expr.now)) }
    requires inside { IsTrue (pieces_fit (signal_forms signals.now) (typed_tree expr.now)
        (map piece_form pieces.now)) }
    requires words { AreWords (signal_forms signals.now) }
    requires fit { FitSignals (signal_forms signals.now) values.now }
    requires next_fit { FitSignals (signal_forms signals.now) next.old }
    ensures run { let forms = signal_forms signals.now in
        let right = value forms (by_number values.now) (typed_tree expr.now) in
        (updates : Updates) → by_number next.old ≡ updated (by_number values.now) updates
        → by_number next.new ≡ updated (by_number values.now)
        (fold (put_piece forms false right) (by_number values.now, updates)
        (map piece_form pieces.now)).1 }
    ensures fit { FitSignals (signal_forms signals.now) next.new }
{
    let right = value_of(expr, signals, values);
    put_pieces(pieces, right, signals, next);
}
