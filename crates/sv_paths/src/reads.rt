// The signals that a path reads.
ghost use Rattle.std.specs.Prelude.{◌≡◌, ℕ, ◌<◌, [], ◌∷◌, ◌&&◌, if◌then◌else◌, fold, map};
ghost use Rattle.std.specs.Prelude.{flat_map, All, IfOk, OnOk};
ghost use Rattle.std.specs.BTreeSet.{insert_key};
ghost use Rattle.std.specs.Ordering.{nat_cmp};
ghost use Rattle.sv_flat.specs.Sets.{holds, those};
ghost use Rattle.sv_flat.specs.Readings.{parts_reads};
ghost use Rattle.sv_flat.specs.Views.{typed_tree, typed_trees, parts_of};
ghost use Rattle.sv_obl.specs.Paths.{StepForm};
ghost use Rattle.sv_obl.specs.Routes.{signals_of_reads, names_in, with_names};
ghost use Rattle.sv_paths.specs.RouteObligations.{names_on};
ghost use Rattle.sv_paths.specs.RouteViews.{step_ref_form, route_form};
ghost use Rattle.sv_obl.specs.Views.{number_of};

use crate::routes::{Route, StepRef};
use std::alloc::{AllocError, Global};
use std::collections::BTreeSet;
use sv_flat::{FExpr, FNode, SigId};

// Adds the numbers of the signals that are named in an expression, in textual order.
#[cycle(add_names)]
fn add_names(expr: &FExpr, names: &mut BTreeSet<u32>) -> Result<(), AllocError>
    ensures { OnOk result (names.new.keys
        ≡ fold (insert_key nat_cmp) names.old.keys (names_in [] (typed_tree expr.now))) }
{
    match &expr.node {
        FNode::Number(_) => Ok(()),
        FNode::Signal(signal, _) => add_name(*signal, names),
        FNode::Bit(signal, _, index) => {
            add_name(*signal, names)?;
            add_names(index, names)
        }
        FNode::Part(signal, _, _, _) => add_name(*signal, names),
        FNode::Unary(_, operand) => add_names(operand, names),
        FNode::Binary(_, left, right) => {
            add_names(left, names)?;
            add_names(right, names)
        }
        FNode::Choice(_, cond, yes, no) => {
            add_names(cond, names)?;
            add_names(yes, names)?;
            add_names(no, names)
        }
        FNode::Join(parts) => add_all_names(parts, names),
        FNode::Repeat(_, parts) => add_all_names(parts, names),
        FNode::Held(_, value) => add_names(value, names),
        FNode::HeldBit(_, _, value, index) => {
            add_names(value, names)?;
            add_names(index, names)
        }
        FNode::HeldPart(_, _, value, _, _) => add_names(value, names),
        FNode::Mend(_, old, _, _, piece) => {
            add_names(old, names)?;
            add_names(piece, names)
        }
        FNode::Slice(value, _, _) => add_names(value, names),
    }
}

// Adds those of some expressions.
#[cycle(add_names)]
fn add_all_names(exprs: &[FExpr], names: &mut BTreeSet<u32>) -> Result<(), AllocError>
    ensures { OnOk result (names.new.keys ≡ fold (insert_key nat_cmp) names.old.keys
        (signals_of_reads (parts_reads [] (parts_of (typed_trees exprs.now))))) }
{
    for expr in exprs {
        add_names(expr, names)?;
    }
    Ok(())
}

fn add_name(signal: SigId, names: &mut BTreeSet<u32>) -> Result<(), AllocError>
    ensures { OnOk result (names.new.keys ≡ insert_key nat_cmp names.old.keys signal.0) }
{
    names.insert(signal.0)?;
    Ok(())
}

// Adds those of conditions.
fn add_of_steps(steps: &[StepRef], names: &mut BTreeSet<u32>) -> Result<(), AllocError>
    ensures { OnOk result (names.new.keys ≡ fold (insert_key nat_cmp) names.old.keys
        (flat_map (λ (step : StepForm). names_in [] step.condition)
        (map step_ref_form steps.now))) }
{
    for step in steps {
        add_names(step.cond, names)?;
    }
    Ok(())
}

// Adds those of a set.
fn add_of_set(set: &BTreeSet<u32>, names: &mut BTreeSet<u32>) -> Result<(), AllocError>
    ensures { OnOk result
        (names.new.keys ≡ fold (insert_key nat_cmp) names.old.keys set.now.keys) }
{
    for name in set {
        names.insert(*name)?;
    }
    Ok(())
}

// Adds the target where a register is held.
fn add_held(held: bool, target: SigId, names: &mut BTreeSet<u32>) -> Result<(), AllocError>
    ensures { OnOk result (names.new.keys ≡ fold (insert_key nat_cmp) names.old.keys
        (if held then target.0 ∷ [] else [])) }
{
    if held {
        add_name(target, names)?;
    }
    Ok(())
}

/// The numbers with those of the signals that are named in an expression, in ascending order, each
/// once; an error where memory runs out.
pub fn with_names(set: BTreeSet<u32>, expr: &FExpr) -> Result<BTreeSet<u32>, AllocError>
    ensures { IfOk result (λ all. all.keys ≡ with_names set.keys (typed_tree expr.now)) }
{
    let mut all = set;
    add_names(expr, &mut all)?;
    Ok(all)
}

/// The signals of a set; an error where memory runs out.
pub fn signals_of(alloc: Global, set: &BTreeSet<u32>) -> Result<Vec<SigId>, AllocError>
    ensures { IfOk result (λ signals. map number_of signals.items ≡ set.now.keys) }
{
    let mut signals = Vec::new(alloc);
    for number in set {
        signals.push(SigId(*number))?;
    }
    Ok(signals)
}

// Whether a register is held: its name is wanted at the beginning of the process.
fn is_held(is_register: bool, route: &Route) -> bool
    ensures { result ≡ (is_register && route.now.wants) }
{
    is_register && route.wants
}

// The numbers of the signals that a path of the target reads, in ascending order, each once.
fn names_of(
    alloc: Global,
    is_register: bool,
    target: SigId,
    route: &Route,
) -> Result<BTreeSet<u32>, AllocError>
    ensures { IfOk result (λ names. names.keys
        ≡ fold (insert_key nat_cmp) [] (names_on is_register target.0 (route_form route.now))) }
{
    let mut names = BTreeSet::new(alloc);
    add_of_steps(&route.steps, &mut names)?;
    add_of_set(&route.names, &mut names)?;
    add_held(is_held(is_register, route), target, &mut names)?;
    Ok(names)
}

/// The signals that a path of the target reads, in signal order; an error where memory runs out.
pub fn reads_of(
    alloc: Global,
    is_register: bool,
    target: SigId,
    route: &Route,
) -> Result<Vec<SigId>, AllocError>
    ensures { (n : ℕ) → All (λ t. t < n) (names_on is_register target.0 (route_form route.now))
        → IfOk result (λ reads. map number_of reads.items
        ≡ those n (holds (names_on is_register target.0 (route_form route.now)))) }
{
    let names = names_of(alloc, is_register, target, route)?;
    signals_of(alloc, &names)
}
