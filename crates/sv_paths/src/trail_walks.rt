// The walk through a body with earlier reads, from its last statement back.
ghost use Rattle.std.specs.Prelude.{◌≡◌, ◌<◌, ◌≤◌, ◌^◌, ◌∷◌, [], ◌++◌, length, map, flat_map, take};
ghost use Rattle.std.specs.Prelude.{drop, None, OnOk};
ghost use Rattle.sv_flat.specs.ByNumber.{signal_forms};
ghost use Rattle.sv_flat.specs.Views.{typed_tree};
ghost use Rattle.sv_obl.specs.MarkedBodies.{marked_statement, TellsTargets};
ghost use Rattle.sv_obl.specs.Views.{piece_forms};
ghost use Rattle.sv_paths.specs.Trails.{open_trail, takes, chosen, marked_by, with_own_ways};
ghost use Rattle.sv_paths.specs.Trails.{with_own_put, with_assign, trails_before};
ghost use Rattle.sv_paths.specs.TrailViews.{trail_form, trail_forms, WalksTrails, AddsTrails};

use crate::faults::{MOST_PATHS, WalkFault};
use crate::list_lines::StepMark;
use crate::routes::StepRef;
use crate::trails::Trail;
use crate::walks::TargetWalk;
use std::alloc::{AllocError, Global};
use sv_flat::{FExpr, FNode, Piece, SigId, Signal};
use sv_obl::Marked;

/// How a value is put for the result's own name: from one of its bits on, where there are so many
/// signals.
#[derive(Clone, Copy)]
pub struct Splice {
    pub alloc: Global,
    pub count: u32,
    pub from: u8,
}

// Adds a trail, where they stay few enough.
#[tactic(auto, using(crate::proofs::TrailFacts::one_too_many))]
fn add(trail: Trail, all: &mut Vec<Trail>) -> Result<(), WalkFault>
    ensures adds { AddsTrails (trail_forms all.old.items ++ trail_form trail ∷ [])
        (trail_forms all.new.items) result }
    ensures few { OnOk result (length all.new.items ≤ 4096) }
{
    if all.len() >= MOST_PATHS {
        return Err(WalkFault::TooMany);
    }
    all.push(trail)?;
    Ok(())
}

// Puts a condition before each of the trails from a place on.
fn put_behind(
    alloc: Global,
    all: &mut Vec<Trail>,
    start: usize,
    count: u32,
    mark: StepMark,
    cond: &FExpr,
) -> Result<(), AllocError>
    requires { start ≤ length all.old.items }
    ensures trails { OnOk result (trail_forms all.new.items ≡ take start (trail_forms all.old.items)
        ++ map (marked_by count mark (typed_tree cond.now))
        (drop start (trail_forms all.old.items))) }
    ensures count { length all.new.items ≡ length all.old.items }
{
    for i in start..all.len() {
        let trail = &mut all[i];
        trail.add_mark(alloc, count, mark, cond)?;
    }
    Ok(())
}

// Takes the trail through the ways of a right side for the result's own name. Of the trails that
// come of it the last is left in its place, and the others are added.
#[cycle(trail_ways)]
fn put_ways(
    right: &FExpr,
    splice: Splice,
    trail: &mut Trail,
    others: &mut Vec<Trail>,
) -> Result<(), WalkFault>
    ensures adds { AddsTrails (trail_forms others.old.items ++ with_own_ways
        splice.count splice.from (typed_tree right.now) (trail_form trail.old))
        (trail_forms others.new.items ++ trail_form trail.new ∷ []) result }
    ensures few { length others.old.items ≤ 4096 → OnOk result (length others.new.items ≤ 4096) }
{
    match &right.node {
        FNode::Choice(place, cond, yes, no) => {
            let taken = StepRef {
                place: *place,
                cond,
                truth: true,
            };
            let passed = StepRef {
                place: *place,
                cond,
                truth: false,
            };
            put_copied(yes, taken, splice, trail, others)?;
            put_way(no, passed, splice, trail, others)
        }
        _ => {
            trail.put_value(splice.alloc, splice.count, splice.from, right)?;
            Ok(())
        }
    }
}

// The same of one way of a choice, each behind its condition.
#[cycle(trail_ways)]
fn put_way(
    right: &FExpr,
    step: StepRef,
    splice: Splice,
    trail: &mut Trail,
    others: &mut Vec<Trail>,
) -> Result<(), WalkFault>
    ensures adds { AddsTrails (trail_forms others.old.items
        ++ map (marked_by splice.count (record {
          truth = step.entry.truth;
          place = step.entry.place;
        })
        (typed_tree step.entry.cond.now)) (with_own_ways splice.count splice.from
        (typed_tree right.now)
        (chosen step.entry.truth (trail_form trail.old))))
        (trail_forms others.new.items ++ trail_form trail.new ∷ []) result }
    ensures few { length others.old.items ≤ 4096 → OnOk result (length others.new.items ≤ 4096) }
{
    let mark = StepMark {
        truth: step.truth,
        place: step.place,
    };
    let start = others.len();
    trail.choose(step.truth)?;
    put_ways(right, splice, trail, others)?;
    put_behind(splice.alloc, others, start, splice.count, mark, step.cond)?;
    trail.add_mark(splice.alloc, splice.count, mark, step.cond)?;
    Ok(())
}

// Adds those of one way of a choice, of a copy of the trail.
#[cycle(trail_ways)]
fn put_copied(
    right: &FExpr,
    step: StepRef,
    splice: Splice,
    trail: &Trail,
    all: &mut Vec<Trail>,
) -> Result<(), WalkFault>
    ensures adds { AddsTrails (trail_forms all.old.items
        ++ map (marked_by splice.count (record {
          truth = step.entry.truth;
          place = step.entry.place;
        })
        (typed_tree step.entry.cond.now)) (with_own_ways splice.count splice.from
        (typed_tree right.now)
        (chosen step.entry.truth (trail_form trail.now)))) (trail_forms all.new.items) result }
    ensures few { length all.old.items ≤ 4096 → OnOk result (length all.new.items ≤ 4096) }
{
    let mut copy = trail.copy(splice.alloc)?;
    put_way(right, step, splice, &mut copy, all)?;
    add(copy, all)
}

// Puts so many pieces of a right side for some bits of the result's own name.
fn put_rest(
    alloc: Global,
    count: u32,
    times: u32,
    right: &FExpr,
    trail: &mut Trail,
) -> Result<(), AllocError>
    ensures { OnOk result (with_own_put count times None (typed_tree right.now)
        (trail_form trail.old) ≡ trail_form trail.new ∷ []) }
{
    if times == 0 {
        return Ok(());
    }
    trail.put_parts(alloc, count, times, right)
}

// Takes the trail through an assignment that is taken. Of the trails that come of it the last is
// left in its place, and the others are added.
fn put_assign(
    walk: TargetWalk,
    pieces: &[Piece],
    right: &FExpr,
    trail: &mut Trail,
    others: &mut Vec<Trail>,
) -> Result<(), WalkFault>
    requires known { walk.target.0 < length walk.signals.now }
    requires counted { length walk.signals.now < 2 ^ 32 }
    ensures adds { AddsTrails (trail_forms others.old.items ++ with_assign
        (signal_forms walk.entry.signals.now) walk.entry.target.0 (piece_forms pieces.now)
        (typed_tree right.now) (trail_form trail.old))
        (trail_forms others.new.items ++ trail_form trail.new ∷ []) result }
    ensures few { length others.old.items ≤ 4096 → OnOk result (length others.new.items ≤ 4096) }
{
    let alloc = walk.alloc;
    let count = walk.signals.len() as u32;
    let times = trail.own_pieces(pieces);
    let whole = trail.whole_from(walk.signals, pieces);
    trail.put_right(alloc, walk.signals, walk.target, pieces, right)?;
    match whole {
        Some(from) => put_ways(right, Splice { alloc, count, from }, trail, others),
        None => {
            put_rest(alloc, count, times, right, trail)?;
            Ok(())
        }
    }
}

/// Whether the statement assigns a signal that the trail wants.
pub fn is_taken(stmt: &Marked, trail: &Trail) -> bool
    requires { TellsTargets stmt.now }
    ensures { result ≡ takes (marked_statement stmt.now) (trail_form trail.now) }
{
    match stmt {
        Marked::Nothing => false,
        Marked::Assign { pieces, .. } => trail.wants_piece(*pieces),
        Marked::Chain { targets, .. } => trail.wants_some(targets),
        Marked::Branch { targets, .. } => trail.wants_some(targets),
    }
}

// Takes the trail back through a statement. Of the trails that come of it the last is left in its
// place, and the others are added: nearly always there are none, and then nothing is moved. An
// error where they are more than 4,096, or where memory runs out.
#[cycle(trail_before)]
fn before(
    stmt: &Marked,
    walk: TargetWalk,
    trail: &mut Trail,
    others: &mut Vec<Trail>,
) -> Result<(), WalkFault>
    requires known { walk.target.0 < length walk.signals.now }
    requires counted { length walk.signals.now < 2 ^ 32 }
    requires tells { TellsTargets stmt.now }
    ensures adds { AddsTrails (trail_forms others.old.items ++ trails_before
        (signal_forms walk.entry.signals.now) walk.entry.target.0 (marked_statement stmt.now)
        (trail_form trail.old)) (trail_forms others.new.items ++ trail_form trail.new ∷ []) result }
    ensures few { length others.old.items ≤ 4096 → OnOk result (length others.new.items ≤ 4096) }
{
    if !is_taken(stmt, trail) {
        return Ok(());
    }
    match stmt {
        Marked::Nothing => Ok(()),
        Marked::Assign { pieces, right, .. } => put_assign(walk, *pieces, right, trail, others),
        Marked::Chain { first, second, .. } => {
            let mut between = Vec::new(walk.alloc);
            before(second, walk, trail, &mut between)?;
            before_each(first, walk, between, others)?;
            before(first, walk, trail, others)
        }
        Marked::Branch {
            place,
            cond,
            yes,
            no,
            ..
        } => {
            let taken = StepRef {
                place: *place,
                cond,
                truth: true,
            };
            let passed = StepRef {
                place: *place,
                cond,
                truth: false,
            };
            before_copied(yes, taken, walk, trail, others)?;
            before_arm(no, passed, walk, trail, others)
        }
    }
}

// The same of one arm of a branch, each behind its condition.
#[cycle(trail_before)]
fn before_arm(
    stmt: &Marked,
    step: StepRef,
    walk: TargetWalk,
    trail: &mut Trail,
    others: &mut Vec<Trail>,
) -> Result<(), WalkFault>
    requires known { walk.target.0 < length walk.signals.now }
    requires counted { length walk.signals.now < 2 ^ 32 }
    requires tells { TellsTargets stmt.now }
    ensures adds { AddsTrails (trail_forms others.old.items
        ++ map (marked_by (length (signal_forms walk.entry.signals.now))
        (record { truth = step.entry.truth; place = step.entry.place })
        (typed_tree step.entry.cond.now))
        (trails_before (signal_forms walk.entry.signals.now) walk.entry.target.0
        (marked_statement stmt.now)
        (chosen step.entry.truth (trail_form trail.old))))
        (trail_forms others.new.items ++ trail_form trail.new ∷ []) result }
    ensures few { length others.old.items ≤ 4096 → OnOk result (length others.new.items ≤ 4096) }
{
    let mark = StepMark {
        truth: step.truth,
        place: step.place,
    };
    let start = others.len();
    trail.choose(step.truth)?;
    before(stmt, walk, trail, others)?;
    let count = walk.signals.len() as u32;
    put_behind(walk.alloc, others, start, count, mark, step.cond)?;
    trail.add_mark(walk.alloc, count, mark, step.cond)?;
    Ok(())
}

// Adds those of one arm of a branch, of a copy of the trail.
#[cycle(trail_before)]
fn before_copied(
    stmt: &Marked,
    step: StepRef,
    walk: TargetWalk,
    trail: &Trail,
    all: &mut Vec<Trail>,
) -> Result<(), WalkFault>
    requires known { walk.target.0 < length walk.signals.now }
    requires counted { length walk.signals.now < 2 ^ 32 }
    requires tells { TellsTargets stmt.now }
    ensures adds { AddsTrails (trail_forms all.old.items
        ++ map (marked_by (length (signal_forms walk.entry.signals.now))
        (record { truth = step.entry.truth; place = step.entry.place })
        (typed_tree step.entry.cond.now))
        (trails_before (signal_forms walk.entry.signals.now) walk.entry.target.0
        (marked_statement stmt.now)
        (chosen step.entry.truth (trail_form trail.now)))) (trail_forms all.new.items) result }
    ensures few { length all.old.items ≤ 4096 → OnOk result (length all.new.items ≤ 4096) }
{
    let mut copy = trail.copy(walk.alloc)?;
    before_arm(stmt, step, walk, &mut copy, all)?;
    add(copy, all)
}

// Adds those that some trails become.
#[cycle(trail_before)]
fn before_each(
    stmt: &Marked,
    walk: TargetWalk,
    trails: Vec<Trail>,
    all: &mut Vec<Trail>,
) -> Result<(), WalkFault>
    requires known { walk.target.0 < length walk.signals.now }
    requires counted { length walk.signals.now < 2 ^ 32 }
    requires tells { TellsTargets stmt.now }
    ensures adds { AddsTrails (trail_forms all.old.items
        ++ flat_map (trails_before (signal_forms walk.entry.signals.now) walk.entry.target.0
        (marked_statement stmt.now)) (trail_forms trails.items))
        (trail_forms all.new.items) result }
    ensures few { length all.old.items ≤ 4096 → OnOk result (length all.new.items ≤ 4096) }
{
    for trail in trails {
        let mut taken = trail;
        before(stmt, walk, &mut taken, all)?;
        add(taken, all)?;
    }
    Ok(())
}

/// The trails of a target through a body; an error where they are more than 4,096, or where memory
/// runs out.
pub fn trails_of(
    alloc: Global,
    signals: &[Signal],
    target: SigId,
    body: &Marked,
) -> Result<Vec<Trail>, WalkFault>
    requires known { target.0 < length signals.now }
    requires tells { TellsTargets body.now }
    ensures { WalksTrails (trails_before (signal_forms signals.now) target.0
        (marked_statement body.now) (open_trail target.0)) result }
{
    if signals.len() > u32::MAX as usize {
        return Err(WalkFault::OutOfMemory);
    }
    let mut trails = Vec::new(alloc);
    let mut open = Trail::open(alloc, target);
    let walk = TargetWalk {
        alloc,
        signals,
        target,
    };
    before(body, walk, &mut open, &mut trails)?;
    add(open, &mut trails)?;
    Ok(trails)
}
