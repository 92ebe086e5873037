// The obligation of one path through a body with earlier reads. The path is walked once more, along
// the arms that it took, and its conditions are made into expressions on the way.
ghost use Rattle.std.specs.Prelude.{◌≡◌, ◌<◌, false, map, reverse, length, None, IfOk, OnOk};
ghost use Rattle.sv_flat.specs.ByNumber.{signal_forms};
ghost use Rattle.sv_flat.specs.Views.{typed_tree, process_form};
ghost use Rattle.sv_paths.specs.Alongs.{next_arm, on_arm, with_step, along_ways, along_own};
ghost use Rattle.sv_paths.specs.Alongs.{along_assign, along};
ghost use Rattle.sv_paths.specs.Alongs.{conditions_along, trail_obligation};
ghost use Rattle.sv_paths.specs.AlongViews.{condition_form, way_form};
ghost use Rattle.sv_obl.specs.Exchange.{exchanged as exchanged_tree};
ghost use Rattle.sv_obl.specs.MarkedBodies.{marked_statement, TellsTargets};
ghost use Rattle.sv_obl.specs.Paths.{step_with};
ghost use Rattle.sv_paths.specs.PutIn.{put_for, CanBePut, AreInWords, HasWords};
ghost use Rattle.sv_obl.specs.Views.{piece_forms};
ghost use Rattle.sv_paths.specs.RouteViews.{step_ref_form};
ghost use Rattle.sv_paths.specs.TrailViews.{trail_form};
ghost use Rattle.sv_obl.specs.Views.{step_form, obligation_of};
ghost use Rattle.sv_obl.specs.Wanted.{with_copies, closed_tree};

use crate::conditions::Condition;
use crate::exchange::{Put, with_put};
use crate::list_lines::StepMark;
use crate::path_queries::{frame_of, place_of};
use crate::reads::signals_of;
use crate::routes::StepRef;
use crate::trail_walks::{Splice, is_taken};
use crate::trails::Trail;
use crate::walks::TargetWalk;
use std::alloc::{AllocError, Global};
use std::mem;
use sv_flat::{FExpr, FNode, Piece, Process, SigId, Signal};
use sv_obl::{Goal, Marked, PathStep, Query};

// A path on the way: what it wants, and its conditions, the last in the text first.
#[derive(Drop)]
struct Making<'c> {
    trail: Trail,
    conditions: Vec<Condition>,
    choices: &'c [bool],
    next: usize,
}

impl<'c> Making<'c> {
    // The arm that is taken next.
    fn choose(&mut self) -> bool
        ensures arm { result ≡ next_arm (way_form self.old).arms }
        ensures way { way_form self.new ≡ on_arm (way_form self.old) }
    {
        let next = self.next;
        let choices = self.choices;
        if next < choices.len() {
            self.next = next + 1;
            choices[next]
        } else {
            false
        }
    }

    // Adds a condition.
    fn add(&mut self, alloc: Global, count: u32, step: StepRef) -> Result<(), AllocError>
        ensures { OnOk result (way_form self.new
            ≡ with_step count (step_ref_form step.entry) (way_form self.old)) }
    {
        let mark = StepMark {
            truth: step.truth,
            place: step.place,
        };
        self.trail.add_mark(alloc, count, mark, step.cond)?;
        let copy = PathStep {
            place: step.place,
            cond: step.cond.copy(alloc)?,
            truth: step.truth,
        };
        self.conditions.push(Condition::new(alloc, count, copy)?)?;
        Ok(())
    }
}

// The conditions with what is put into each; an error where one nests too deep then.
fn put_in_conditions(
    alloc: Global,
    signals: &[Signal],
    conditions: Vec<Condition>,
    put: Put,
) -> Result<Vec<Condition>, AllocError>
    requires few { length signals.now < 4294967296 }
    requires put { CanBePut put }
    ensures { IfOk result (λ made. map condition_form made.items ≡ map (step_with (exchanged_tree
        (with_copies (signal_forms signals.now)) (put_for (signal_forms signals.now) put.entry)))
        (map condition_form conditions.items)) }
{
    let mut made = Vec::with_capacity(alloc, conditions.len())?;
    for condition in conditions {
        made.push(condition.with_put(alloc, signals, put)?)?;
    }
    Ok(made)
}

// Takes the way of a right side that was taken for the result's own name.
#[cycle(along_ways)]
fn along_ways<'c>(right: &FExpr, splice: Splice, making: &mut Making<'c>) -> Result<(), AllocError>
    ensures { OnOk result (way_form making.new
        ≡ along_ways splice.count splice.from (typed_tree right.now) (way_form making.old)) }
{
    match &right.node {
        FNode::Choice(place, cond, yes, no) => {
            if making.choose() {
                along_way(yes, StepRef::new(*place, cond, true), splice, making)
            } else {
                along_way(no, StepRef::new(*place, cond, false), splice, making)
            }
        }
        _ => making
            .trail
            .put_value(splice.alloc, splice.count, splice.from, right),
    }
}

// Takes one way of a choice, behind its condition.
#[cycle(along_ways)]
fn along_way<'c>(
    right: &FExpr,
    step: StepRef,
    splice: Splice,
    making: &mut Making<'c>,
) -> Result<(), AllocError>
    ensures { OnOk result (way_form making.new ≡ with_step splice.count (step_ref_form step.entry)
        (along_ways splice.count splice.from (typed_tree right.now) (way_form making.old))) }
{
    along_ways(right, splice, making)?;
    making.add(splice.alloc, splice.count, step)
}

// Takes an assignment that is wanted.
fn along_assign<'c>(
    walk: TargetWalk,
    pieces: &[Piece],
    right: &FExpr,
    making: &mut Making<'c>,
) -> Result<(), AllocError>
    requires known { walk.target.0 < length walk.signals.now }
    requires few { length walk.signals.now < 4294967296 }
    requires words { AreInWords (piece_forms pieces.now) }
    ensures { OnOk result (way_form making.new
        ≡ along_assign (signal_forms walk.entry.signals.now) walk.entry.target.0
        (piece_forms pieces.now)
        (typed_tree right.now) (way_form making.old)) }
{
    let alloc = walk.alloc;
    let signals = walk.signals;
    let count = signals.len() as u32;
    let times = making.trail.own_pieces(pieces);
    let whole = making.trail.whole_from(signals, pieces);
    making
        .trail
        .put_right(alloc, signals, walk.target, pieces, right)?;
    let conditions = mem::replace(&mut making.conditions, Vec::new(alloc));
    let put = Put::Pieces(pieces, right);
    making.conditions = put_in_conditions(alloc, signals, conditions, put)?;
    along_own(alloc, count, times, whole, right, making)
}

// Puts a value for the result's own name: from one of its bits on, or so many pieces for some of
// its bits.
fn along_own<'c>(
    alloc: Global,
    count: u32,
    times: u32,
    whole: Option<u8>,
    right: &FExpr,
    making: &mut Making<'c>,
) -> Result<(), AllocError>
    ensures { OnOk result (way_form making.new
        ≡ along_own count times whole (typed_tree right.now) (way_form making.old)) }
{
    match whole {
        Some(from) => along_ways(right, Splice { alloc, count, from }, making),
        None => along_rest(alloc, count, times, right, making),
    }
}

// Puts so many pieces for some bits of the result's own name.
fn along_rest<'c>(
    alloc: Global,
    count: u32,
    times: u32,
    right: &FExpr,
    making: &mut Making<'c>,
) -> Result<(), AllocError>
    ensures { OnOk result (way_form making.new
        ≡ along_own count times None (typed_tree right.now) (way_form making.old)) }
{
    if times == 0 {
        return Ok(());
    }
    making.trail.put_parts(alloc, count, times, right)
}

// Takes a statement before the path.
#[cycle(along)]
fn along<'c>(stmt: &Marked, walk: TargetWalk, making: &mut Making<'c>) -> Result<(), AllocError>
    requires known { walk.target.0 < length walk.signals.now }
    requires few { length walk.signals.now < 4294967296 }
    requires tells { TellsTargets stmt.now }
    requires words { HasWords (marked_statement stmt.now) }
    ensures { OnOk result (way_form making.new ≡ along (signal_forms walk.entry.signals.now)
        walk.entry.target.0 (marked_statement stmt.now) (way_form making.old)) }
{
    if !is_taken(stmt, &making.trail) {
        return Ok(());
    }
    match stmt {
        Marked::Nothing => Ok(()),
        Marked::Assign { pieces, right, .. } => along_assign(walk, *pieces, right, making),
        Marked::Chain { first, second, .. } => {
            along(second, walk, making)?;
            along(first, walk, making)
        }
        Marked::Branch {
            place,
            cond,
            yes,
            no,
            ..
        } => {
            if making.choose() {
                along_arm(yes, StepRef::new(*place, cond, true), walk, making)
            } else {
                along_arm(no, StepRef::new(*place, cond, false), walk, making)
            }
        }
    }
}

// Takes one arm of a branch, behind its condition.
#[cycle(along)]
fn along_arm<'c>(
    stmt: &Marked,
    step: StepRef,
    walk: TargetWalk,
    making: &mut Making<'c>,
) -> Result<(), AllocError>
    requires known { walk.target.0 < length walk.signals.now }
    requires few { length walk.signals.now < 4294967296 }
    requires tells { TellsTargets stmt.now }
    requires words { HasWords (marked_statement stmt.now) }
    ensures { OnOk result (way_form making.new
        ≡ with_step (length walk.entry.signals.now) (step_ref_form step.entry)
        (along (signal_forms walk.entry.signals.now) walk.entry.target.0 (marked_statement stmt.now)
        (way_form making.old))) }
{
    along(stmt, walk, making)?;
    making.add(walk.alloc, walk.signals.len() as u32, step)
}

// The conditions in textual order, at the beginning of the process; an error where one nests too
// deep then.
fn closed(
    alloc: Global,
    signals: &[Signal],
    conditions: Vec<Condition>,
) -> Result<Vec<PathStep>, AllocError>
    requires few { length signals.now < 4294967296 }
    ensures { IfOk result (λ steps. map step_form steps.items
        ≡ reverse (map (step_with (closed_tree (signal_forms signals.now) false))
        (map condition_form conditions.items))) }
{
    let mut rest = conditions;
    let mut closed = Vec::with_capacity(alloc, rest.len())?;
    while let Some(condition) = rest.pop() {
        let PathStep { place, cond, truth } = condition.step;
        closed.push(PathStep {
            place,
            cond: with_put(cond, alloc, signals, Put::Zero)?,
            truth,
        })?;
    }
    Ok(closed)
}

// The conditions of the path, in textual order.
fn steps_along(walk: TargetWalk, body: &Marked, trail: &Trail) -> Result<Vec<PathStep>, AllocError>
    requires known { walk.target.0 < length walk.signals.now }
    requires few { length walk.signals.now < 4294967296 }
    requires tells { TellsTargets body.now }
    requires words { HasWords (marked_statement body.now) }
    ensures { IfOk result (λ steps. map step_form steps.items ≡ conditions_along
        (signal_forms walk.entry.signals.now) walk.entry.target.0 (marked_statement body.now)
        (trail_form trail.now)) }
{
    let mut making = Making {
        trail: Trail::open(walk.alloc, walk.target),
        conditions: Vec::new(walk.alloc),
        choices: trail.choices.as_slice(),
        next: 0,
    };
    along(body, walk, &mut making)?;
    closed(walk.alloc, walk.signals, making.conditions)
}

/// The obligation of a path of the target through the process; an error where memory runs out.
pub fn trail_query(
    alloc: Global,
    signals: &[Signal],
    process: &Process,
    target: SigId,
    body: &Marked,
    trail: &Trail,
) -> Result<Query, AllocError>
    requires known { target.0 < length signals.now }
    requires few { length signals.now < 4294967296 }
    requires tells { TellsTargets body.now }
    requires words { HasWords (marked_statement body.now) }
    ensures { IfOk result (λ query. obligation_of query ≡ trail_obligation
        (signal_forms signals.now) (process_form process.now) target.0
        (marked_statement body.now) (trail_form trail.now)) }
{
    let walk = TargetWalk {
        alloc,
        signals,
        target,
    };
    let path = steps_along(walk, body, trail)?;
    let reads = signals_of(alloc, &trail.names.settled)?;
    Ok(Query {
        facts: Vec::new(alloc),
        path,
        right: place_of(process, trail.place),
        reads,
        goal: Goal::Flow {
            target,
            frame: frame_of(process.kind),
        },
    })
}
