// The cones of an obligation.
ghost use Rattle.std.specs.Prelude.{◌≡◌, ◌<◌, ◌&&◌, ℕ, List, length, map, flat_map, IfOk};
ghost use Rattle.sv_flat.specs.Reads.{reads_for};
ghost use Rattle.sv_flat.specs.Selectors.{selectors_of};
ghost use Rattle.sv_flat.specs.Sets.{holds};
ghost use Rattle.sv_flat.specs.Views.{design_of};
ghost use Rattle.sv_design.specs.Designs.{IsDesign};
ghost use Rattle.sv_graph.specs.Marks.{is_marked, Marks, IsTable};
ghost use Rattle.sv_design.specs.Numbers.{numbers};
ghost use Rattle.sv_obl.specs.DesignQueries.{IsQueryOf};
ghost use Rattle.sv_obl.specs.Paths.{StepForm};
ghost use Rattle.sv_obl.specs.Views.{obligation_of, goal_form, step_form, IsGoalAmong};
ghost use Rattle.sv_encoding.specs.Cones.{label_selectors, with_reads, asked_next, asked_now};
ghost use Rattle.sv_encoding.specs.Cones.{next_cone, now_cone, registers_in};
ghost use Rattle.sv_encoding.specs.Encoding.{given_in, inputs_in, settled_in};
ghost use Rattle.sv_blast.specs.NamedMarks.{is_named_in, starts_now, AreBelow};

use crate::marks::{kept, mark, mark_all, mark_all_names, mark_names, marked_inputs, unmarked};
use std::alloc::{AllocError, Global};
use sv_design::Design;
use sv_flat::SigId;
use sv_graph::{has_mark, listed};
use sv_lattice::Label;
use sv_obl::{Frame, Goal, PathStep, Query};

// Marks the selectors of a label.
fn mark_selectors_of(table: &mut [bool], label: Label)
    ensures { Marks table.old table.new (holds (selectors_of label)) }
{
    if let Label::Table { first, second, .. } = label {
        mark(table, SigId(first));
        if let Some(second) = second {
            mark(table, SigId(second));
        }
    }
}

// Marks the selectors of a signal's label.
fn mark_selectors(table: &mut [bool], design: &Design, signal: SigId)
    requires { signal.0 < length design.now.signals.items }
    ensures { Marks table.old table.new (holds (label_selectors (design_of design.now) signal.0)) }
{
    mark_selectors_of(table, design.signals()[signal.0 as usize].label);
}

// Marks the selectors of the labels of signals.
fn mark_all_selectors(table: &mut [bool], design: &Design, signals: &[SigId])
    requires { AreBelow (length design.now.signals.items) (numbers signals.now) }
    ensures { Marks table.old table.new
        (holds (flat_map (label_selectors (design_of design.now)) (numbers signals.now))) }
{
    for signal in signals {
        mark_selectors(table, design, *signal);
    }
}

// Marks the signals on whose values in the next cycle a goal hangs.
fn mark_asked_next(table: &mut [bool], design: &Design, goal: &Goal)
    requires size { length table.old ≡ length design.now.signals.items }
    requires known { IsGoalAmong (length design.now.signals.items) (goal_form goal.now) }
    ensures { Marks table.old table.new
        (holds (asked_next (design_of design.now) (goal_form goal.now))) }
{
    match goal {
        Goal::Flow {
            target,
            frame: Frame::Next,
        } => mark_selectors(table, design, *target),
        Goal::Holds {
            expr,
            frame: Frame::Next,
        } => mark_names(table, expr),
        _ => {}
    }
}

// Marks the signals on whose values in this cycle a goal hangs.
fn mark_asked_now(table: &mut [bool], design: &Design, goal: &Goal)
    requires size { length table.old ≡ length design.now.signals.items }
    requires known { IsGoalAmong (length design.now.signals.items) (goal_form goal.now) }
    ensures { Marks table.old table.new
        (holds (asked_now (design_of design.now) (goal_form goal.now))) }
{
    match goal {
        Goal::Flow {
            target,
            frame: Frame::Now,
        } => mark_selectors(table, design, *target),
        Goal::Holds {
            expr,
            frame: Frame::Now,
        } => mark_names(table, expr),
        Goal::Selector { signal } => mark_selectors(table, design, *signal),
        _ => {}
    }
}

// Marks the signals that conditions name.
fn mark_conditions(table: &mut [bool], path: &[PathStep])
    ensures { Marks table.old table.new
        (is_named_in (map (λ (step : StepForm). step.condition) (map step_form path.now))) }
{
    for step in path {
        mark_names(table, &step.cond);
    }
}

// Marks what is read for a signal.
fn mark_reads(table: &mut [bool], design: &Design, signal: SigId)
    requires { signal.0 < length design.now.signals.items }
    ensures { Marks table.old table.new (holds (reads_for (design_of design.now) signal.0)) }
{
    mark_all(table, design.reads_for(signal));
}

// Marks what is read for signals.
fn mark_all_reads(table: &mut [bool], design: &Design, signals: &[SigId])
    requires { AreBelow (length design.now.signals.items) (numbers signals.now) }
    ensures { Marks table.old table.new
        (holds (flat_map (reads_for (design_of design.now)) (numbers signals.now))) }
{
    for signal in signals {
        mark_reads(table, design, *signal);
    }
}

// Marks what is read for a signal, where it is marked itself.
fn bring_reads(table: &mut [bool], design: &Design, signal: SigId)
    requires { signal.0 < length design.now.signals.items }
    ensures { Marks table.old table.new (λ s.
        is_marked table.old signal.0 && holds (reads_for (design_of design.now) signal.0) s) }
{
    if has_mark(table, signal) {
        mark_reads(table, design, signal);
    }
}

// Marks what is read for each marked combinational signal, and so on: what is read for a signal
// has a lower depth, so each signal is looked at once, from the greatest depth down.
fn close(table: &mut [bool], design: &Design)
    requires { length table.old ≡ length design.now.signals.items }
    ensures marked { (starts : List ℕ) → AreBelow (length design.now.signals.items) starts
        → IsTable (length design.now.signals.items) table.old (holds starts)
        → IsTable (length design.now.signals.items) table.new
        (holds (with_reads (design_of design.now) starts)) }
    ensures design { IsDesign (design_of design.now) }
{
    let order = design.order();
    let mut left = order.len();
    while left > 0 {
        left -= 1;
        bring_reads(table, design, order[left]);
    }
}

// The marked signals with what is read for each combinational one among them, and so on, in signal
// order. An error says that memory ran out.
fn closed(alloc: Global, table: &mut [bool], design: &Design) -> Result<Vec<SigId>, AllocError>
    requires { length table.old ≡ length design.now.signals.items }
    ensures { (starts : List ℕ) → AreBelow (length design.now.signals.items) starts
        → IsTable (length design.now.signals.items) table.old (holds starts)
        → IfOk result (λ cone.
        numbers cone.items ≡ with_reads (design_of design.now) starts) }
{
    close(table, design);
    listed(alloc, table)
}

/// The signals on whose values in the next cycle an obligation hangs, in signal order.
/// An error says that memory ran out.
pub fn next_cone(alloc: Global, design: &Design, query: &Query) -> Result<Vec<SigId>, AllocError>
    requires { IsQueryOf (design_of design.now) (obligation_of query.now) }
    ensures { IfOk result (λ cone.
        numbers cone.items ≡ next_cone (design_of design.now) (obligation_of query.now)) }
{
    let mut table = unmarked(alloc, design)?;
    let marks = table.as_mut_slice();
    mark_asked_next(marks, design, &query.goal);
    closed(alloc, marks, design)
}

// Marks the signals on whose values in this cycle an obligation hangs, but for what is read for
// these; the registers are those of its cone in the next cycle.
fn mark_starts(table: &mut [bool], design: &Design, query: &Query, registers: &[SigId])
    requires design { IsDesign (design_of design.now) }
    requires query { IsQueryOf (design_of design.now) (obligation_of query.now) }
    requires registers { numbers registers.now ≡ registers_in (design_of design.now)
        (next_cone (design_of design.now) (obligation_of query.now)) }
    requires size { length table.old ≡ length design.now.signals.items }
    ensures { Marks table.old table.new
        (holds (starts_now (design_of design.now) (obligation_of query.now))) }
{
    mark_all_names(table, &query.facts);
    mark_conditions(table, &query.path);
    mark_all_selectors(table, design, &query.reads);
    mark_asked_now(table, design, &query.goal);
    mark_all_reads(table, design, registers);
}

/// The signals on whose values in this cycle an obligation hangs, in signal order, by those of the
/// next cycle. An error says that memory ran out.
pub fn now_cone(
    alloc: Global,
    design: &Design,
    query: &Query,
    next: &[SigId],
) -> Result<Vec<SigId>, AllocError>
    requires query { IsQueryOf (design_of design.now) (obligation_of query.now) }
    requires next { numbers next.now ≡ next_cone (design_of design.now) (obligation_of query.now) }
    ensures { IfOk result (λ cone.
        numbers cone.items ≡ now_cone (design_of design.now) (obligation_of query.now)) }
{
    let registers = registers_in(alloc, design, next)?;
    let mut table = unmarked(alloc, design)?;
    let marks = table.as_mut_slice();
    mark_starts(marks, design, query, &registers);
    closed(alloc, marks, design)
}

/// The inputs of a cone, in signal order. An error says that memory ran out.
pub fn inputs_in(alloc: Global, design: &Design, cone: &[SigId]) -> Result<Vec<SigId>, AllocError>
    ensures { IfOk result (λ found.
        numbers found.items ≡ inputs_in (design_of design.now) (numbers cone.now)) }
{
    let table = marked_inputs(alloc, design)?;
    kept(alloc, table.as_slice(), cone)
}

/// The inputs and registers of a cone, in signal order. An error says that memory ran out.
pub fn given_in(alloc: Global, design: &Design, cone: &[SigId]) -> Result<Vec<SigId>, AllocError>
    ensures { IfOk result (λ found.
        numbers found.items ≡ given_in (design_of design.now) (numbers cone.now)) }
{
    let mut table = marked_inputs(alloc, design)?;
    let marks = table.as_mut_slice();
    mark_all(marks, design.registers());
    kept(alloc, marks, cone)
}

/// The registers of a cone, in signal order. An error says that memory ran out.
pub fn registers_in(
    alloc: Global,
    design: &Design,
    cone: &[SigId],
) -> Result<Vec<SigId>, AllocError>
    ensures { IfOk result (λ found.
        numbers found.items ≡ registers_in (design_of design.now) (numbers cone.now)) }
{
    let mut table = unmarked(alloc, design)?;
    let marks = table.as_mut_slice();
    mark_all(marks, design.registers());
    kept(alloc, marks, cone)
}

/// The combinational signals of a cone, by depth and then by number. An error says that memory ran
/// out.
pub fn settled_in(alloc: Global, design: &Design, cone: &[SigId]) -> Result<Vec<SigId>, AllocError>
    ensures { IfOk result (λ found.
        numbers found.items ≡ settled_in (design_of design.now) (numbers cone.now)) }
{
    let mut table = unmarked(alloc, design)?;
    let marks = table.as_mut_slice();
    mark_all(marks, cone);
    kept(alloc, marks, design.order())
}
