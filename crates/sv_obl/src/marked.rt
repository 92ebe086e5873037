// Bodies with earlier reads, in which those are wanted, and each part tells what it assigns.
ghost use Rattle.std.specs.Prelude.{◌≡◌, ◌≤◌, ◌<◌, ◌-◌, max, true, [], ◌++◌, map, fold};
ghost use Rattle.std.specs.Prelude.{length, All, Option, IsTrue, IsFalse, IfOk, OnOk};
ghost use Rattle.std.specs.BTreeSet.{insert_key};
ghost use Rattle.std.specs.List.{AllZip};
ghost use Rattle.std.specs.Ordering.{nat_cmp};
ghost use Rattle.sv_flat.specs.ByNumber.{signal_forms, is_branch, AreWords};
ghost use Rattle.sv_flat.specs.Design.{FlatStatement, ProcessForm};
ghost use Rattle.sv_flat.specs.Soundness.{statement_sound};
ghost use Rattle.sv_flat.specs.Views.{typed_tree, flat_statement, flat_statements, chain_of};
ghost use Rattle.sv_flat.specs.Processes.{is_block};
ghost use Rattle.sv_flat.specs.Views.{process_form, process_kind};
ghost use Rattle.sv_rules.specs.Surroundings.{in_surrounding};
ghost use Rattle.sv_obl.specs.Marked.{targets_in, IsChain, IsBranch, names_copy, has_copy};
ghost use Rattle.sv_obl.specs.Marked.{IsMarking, EndsIn};
ghost use Rattle.sv_obl.specs.MarkedArms.{AreArms, AreConditions};
ghost use Rattle.sv_obl.specs.MarkedBodies.{marked_statement, IsMarkedBody};

use crate::indexed::{push_pieces, push_set, set_of};
use crate::marking::marked_expr;
use crate::names::names_of;
use std::alloc::{AllocError, Global};
use std::collections::BTreeSet;
use sv_flat::{FExpr, FStmt, Piece, ProcKind, Process, Signal};
use sv_graph::BitSet;
use sv_num::Place;
use sv_rules::{Surrounding, add_pieces};

/// A statement in which earlier reads are wanted. What has parts tells what these assign, so that a
/// walk passes over what it does not want. A block is halves of halves, so that what walks through
/// it does not go as deep as it is long.
#[derive(Drop)]
pub enum Marked<'a> {
    Nothing,
    Assign {
        pieces: &'a [Piece],
        place: Place,
        blocking: bool,
        right: FExpr,
    },
    /// One after the other.
    Chain {
        targets: BTreeSet<u32>,
        first: Box<Marked<'a>>,
        second: Box<Marked<'a>>,
    },
    Branch {
        targets: BTreeSet<u32>,
        place: Place,
        cond: FExpr,
        yes: Box<Marked<'a>>,
        no: Box<Marked<'a>>,
    },
}

// Adds what a statement assigns.
fn push_targets(stmt: &Marked, names: &mut Vec<u32>) -> Result<(), AllocError>
    ensures { OnOk result (names.new.items ≡ names.old.items ++ targets_in stmt.now) }
{
    match stmt {
        Marked::Nothing => Ok(()),
        Marked::Assign { pieces, .. } => push_pieces(*pieces, names),
        Marked::Chain { targets, .. } => push_set(targets, names),
        Marked::Branch { targets, .. } => push_set(targets, names),
    }
}

// What two statements assign.
fn targets_of(alloc: Global, first: &Marked, second: &Marked) -> Result<BTreeSet<u32>, AllocError>
    ensures { IfOk result (λ targets. targets.keys
        ≡ fold (insert_key nat_cmp) [] (targets_in first.now ++ targets_in second.now)) }
{
    let mut names = Vec::new(alloc);
    push_targets(first, &mut names)?;
    push_targets(second, &mut names)?;
    set_of(alloc, &names)
}

// The two one after the other.
fn chained<'a>(
    alloc: Global,
    first: Marked<'a>,
    second: Marked<'a>,
) -> Result<Marked<'a>, AllocError>
    ensures { IfOk result (IsChain first.entry second.entry) }
{
    let targets = targets_of(alloc, &first, &second)?;
    Ok(Marked::Chain {
        targets,
        first: Box::new(alloc, first)?,
        second: Box::new(alloc, second)?,
    })
}

// The branch of two arms.
fn branched<'a>(
    alloc: Global,
    place: Place,
    cond: FExpr,
    yes: Marked<'a>,
    no: Marked<'a>,
) -> Result<Marked<'a>, AllocError>
    ensures { IfOk result (IsBranch place (typed_tree cond) yes.entry no.entry) }
{
    let targets = targets_of(alloc, &yes, &no)?;
    Ok(Marked::Branch {
        targets,
        place,
        cond,
        yes: Box::new(alloc, yes)?,
        no: Box::new(alloc, no)?,
    })
}

// The last of some, and nothing where there are none.
fn last_of<'a>(parts: &mut Vec<Marked<'a>>) -> Marked<'a>
    ensures ends { EndsIn parts.old.items parts.new.items result }
    ensures count { length parts.new.items ≡ length parts.old.items - 1 }
{
    match parts.pop() {
        Some(last) => last,
        None => Marked::Nothing,
    }
}

// The last so many of some taken as one, of which the last comes first in the text. There is one at
// least, or none at all.
fn together<'a>(
    count: usize,
    alloc: Global,
    parts: &mut Vec<Marked<'a>>,
) -> Result<Marked<'a>, AllocError>
    ensures ends { IfOk result (λ whole. EndsIn parts.old.items parts.new.items whole) }
    ensures count { OnOk result
        (length parts.new.items ≡ length parts.old.items - max count 1) }
{
    if count <= 1 {
        return Ok(last_of(parts));
    }
    let half = count / 2;
    let first = together(half, alloc, parts)?;
    let second = together(count - half, alloc, parts)?;
    chained(alloc, first, second)
}

/// A branch but for its second arm: its first is marked, with the bits that it can assign.
#[derive(Drop)]
pub struct MarkedArm<'a> {
    pub place: Place,
    pub cond: &'a FExpr,
    pub yes: Marked<'a>,
    pub bits: BitSet,
}

// The chain of the branches with these first arms, where the last second arm is the one given.
fn marked_arms<'a>(
    alloc: Global,
    signals: &[Signal],
    arms: Vec<MarkedArm<'a>>,
    last: (Marked<'a>, BitSet),
    later: &Surrounding,
) -> Result<(Marked<'a>, BitSet), AllocError>
    requires few { length signals.now ≤ 2147483647 }
    requires words { AreWords (signal_forms signals.now) }
    requires conds { AreConditions (signal_forms signals.now) arms.items }
    ensures { (rest whole : FlatStatement)
        → AreArms (signal_forms signals.now) (in_surrounding later.now) arms.entry.items rest whole
        → IsMarking (signal_forms signals.now) (in_surrounding later.now) rest last.entry.0
        last.entry.1
        → IfOk result (λ both.
        IsMarking (signal_forms signals.now) (in_surrounding later.now) whole both.0 both.1) }
{
    let mut arms = arms;
    let (mut rest, mut bits) = last;
    while let Some(arm) = arms.pop() {
        let MarkedArm {
            place,
            cond,
            yes,
            bits: own,
        } = arm;
        bits.add_all(&own)?;
        let inside = Surrounding::Inside(&bits, &*later);
        let cond = marked_expr(cond, alloc, signals, &inside)?;
        rest = branched(alloc, place, cond, yes, rest)?;
    }
    Ok((rest, bits))
}

// The statement in which earlier reads are wanted, where some bits can be assigned later, and the
// bits that it can assign itself. No call goes down a chain of branches: a `case` may have many
// arms.
#[cycle(marked_stmt)]
fn marked_stmt<'a>(
    stmt: &'a FStmt,
    alloc: Global,
    signals: &[Signal],
    later: &Surrounding,
) -> Result<(Marked<'a>, BitSet), AllocError>
    requires few { length signals.now ≤ 2147483647 }
    requires words { AreWords (signal_forms signals.now) }
    requires stmt { IsTrue (statement_sound (signal_forms signals.now) (flat_statement stmt.now)) }
    ensures { IfOk result (λ both. IsMarking (signal_forms signals.now) (in_surrounding later.now)
        (flat_statement stmt.now) both.0 both.1) }
{
    let mut arms = Vec::new(alloc);
    let mut rest = stmt;
    while let FStmt::If {
        place,
        cond,
        yes,
        no,
    } = rest
    {
        let place = *place;
        let (yes, bits) = marked_stmt(yes, alloc, signals, later)?;
        arms.push(MarkedArm {
            place,
            cond,
            yes,
            bits,
        })?;
        rest = no;
    }
    let last = marked_plain(rest, alloc, signals, later)?;
    marked_arms(alloc, signals, arms, last, later)
}

// The same of a statement that is no branch.
#[cycle(marked_stmt)]
fn marked_plain<'a>(
    stmt: &'a FStmt,
    alloc: Global,
    signals: &[Signal],
    later: &Surrounding,
) -> Result<(Marked<'a>, BitSet), AllocError>
    requires plain { IsFalse (is_branch (flat_statement stmt.now)) }
    requires few { length signals.now ≤ 2147483647 }
    requires words { AreWords (signal_forms signals.now) }
    requires stmt { IsTrue (statement_sound (signal_forms signals.now) (flat_statement stmt.now)) }
    ensures { IfOk result (λ both. IsMarking (signal_forms signals.now) (in_surrounding later.now)
        (flat_statement stmt.now) both.0 both.1) }
{
    match stmt {
        FStmt::Assign {
            pieces,
            place,
            blocking,
            value,
        } => {
            let mut bits = BitSet::new(alloc);
            add_pieces(&mut bits, pieces)?;
            let inside = Surrounding::Inside(&bits, &*later);
            let right = marked_expr(value, alloc, signals, &inside)?;
            let marked = Marked::Assign {
                pieces,
                place: *place,
                blocking: *blocking,
                right,
            };
            Ok((marked, bits))
        }
        FStmt::Block(stmts) => marked_block(stmts, alloc, signals, later),
        FStmt::If { .. } => unreachable!(),
    }
}

// Statements one after the other.
#[cycle(marked_stmt)]
fn marked_block<'a>(
    stmts: &'a [FStmt],
    alloc: Global,
    signals: &[Signal],
    later: &Surrounding,
) -> Result<(Marked<'a>, BitSet), AllocError>
    requires few { length signals.now ≤ 2147483647 }
    requires words { AreWords (signal_forms signals.now) }
    requires stmts { IsTrue
        (statement_sound (signal_forms signals.now) (chain_of (flat_statements stmts.now))) }
    ensures { IfOk result (λ both. IsMarking (signal_forms signals.now) (in_surrounding later.now)
        (chain_of (flat_statements stmts.now)) both.0 both.1) }
{
    let mut parts = Vec::new(alloc);
    let mut here = BitSet::new(alloc);
    for i in 0..stmts.len() {
        let stmt = &stmts[stmts.len() - 1 - i];
        let inside = Surrounding::Inside(&here, &*later);
        let (part, bits) = marked_stmt(stmt, alloc, signals, &inside)?;
        parts.push(part)?;
        here.add_all(&bits)?;
    }
    let count = parts.len();
    let whole = together(count, alloc, &mut parts)?;
    Ok((whole, here))
}

// Whether a name in the expression is that of a copy, where there are so many signals.
fn names_copy(alloc: Global, expr: &FExpr, count: u32) -> Result<bool, AllocError>
    ensures { IfOk result (λ found. found ≡ names_copy count (typed_tree expr.now)) }
{
    let names = names_of(alloc, expr)?;
    for name in &names {
        if *name >= count {
            return Ok(true);
        }
    }
    Ok(false)
}

// Whether a read in the statement is an earlier one, where there are so many signals.
#[cycle(has_copy)]
fn has_copy(stmt: &Marked, alloc: Global, count: u32) -> Result<bool, AllocError>
    ensures { IfOk result (λ found. found ≡ has_copy count (marked_statement stmt.now)) }
{
    match stmt {
        Marked::Nothing => Ok(false),
        Marked::Assign { right, .. } => names_copy(alloc, right, count),
        Marked::Chain { first, second, .. } => {
            Ok(has_copy(first, alloc, count)? || has_copy(second, alloc, count)?)
        }
        Marked::Branch { cond, yes, no, .. } => Ok(
            names_copy(alloc, cond, count)?
                || has_copy(yes, alloc, count)?
                || has_copy(no, alloc, count)?,
        ),
    }
}

// Whether a process of this kind is an `always @*`.
fn is_block(kind: ProcKind) -> bool
    ensures { result ≡ is_block (process_kind kind) }
{
    matches!(kind, ProcKind::Comb)
}

// The body of a process in which earlier reads are wanted, where it has one.
fn marked_body<'a>(
    alloc: Global,
    signals: &[Signal],
    process: &'a Process,
) -> Result<Option<Marked<'a>>, AllocError>
    requires few { length signals.now ≤ 2147483647 }
    requires words { AreWords (signal_forms signals.now) }
    requires body { IsTrue
        (statement_sound (signal_forms signals.now) (flat_statement process.now.body)) }
    ensures { IfOk result (IsMarkedBody (signal_forms signals.now) (process_form process.now)) }
{
    if !is_block(process.kind) {
        return Ok(None);
    }
    let (body, _bits) = marked_stmt(&process.body, alloc, signals, &Surrounding::Nothing)?;
    let found = has_copy(&body, alloc, signals.len() as u32)?;
    if found { Ok(Some(body)) } else { Ok(None) }
}

/// The bodies of processes in which earlier reads are wanted, of those that have one; an error
/// where memory runs out.
pub fn marked_bodies<'a>(
    alloc: Global,
    signals: &[Signal],
    processes: &'a [Process],
) -> Result<Vec<Option<Marked<'a>>>, AllocError>
    requires words { AreWords (signal_forms signals.now) }
    requires bodies { All (λ (process : ProcessForm). IsTrue
        (statement_sound (signal_forms signals.now) process.body))
        (map process_form processes.now) }
    ensures bodies { IfOk result (λ bodies. AllZip (IsMarkedBody (signal_forms signals.now))
        (map process_form processes.now) bodies.items) }
    ensures few { OnOk result (length signals.now ≤ 2147483647) }
{
    if signals.len() > 2_147_483_647 {
        return Err(AllocError);
    }
    let mut bodies = Vec::with_capacity(alloc, processes.len())?;
    for process in processes {
        bodies.push(marked_body(alloc, signals, process)?)?;
    }
    Ok(bodies)
}
