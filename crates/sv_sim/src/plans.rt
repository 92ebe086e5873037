// Plans: the order in which settling goes through the combinational signals. Each stands behind
// those that are read for it, and the signals of one process stand together where the design allows
// it, so that the process runs once for all of them.
ghost use Rattle.std.specs.Prelude.{◌≡◌, ◌<◌, ℕ, IsTrue, IsFalse, IfOk, Contains, length};
ghost use Rattle.sv_design.specs.Numbers.{numbers};
ghost use Rattle.sv_flat.specs.Reads.{is_combinational, reads_for};
ghost use Rattle.sv_flat.specs.Views.{design_of};
ghost use Rattle.sv_graph.specs.Marks.{is_marked};
ghost use Rattle.sv_sim.specs.Settling.{IsPlan};

use crate::drafts::draft_of;
use std::alloc::{AllocError, Global};
use sv_design::Design;
use sv_flat::SigId;
use sv_graph::has_mark;

/// A plan of the design. It fails where memory runs out.
pub fn plan_of(alloc: Global, design: &Design) -> Result<Vec<SigId>, AllocError>
    ensures { IfOk result (λ plan. IsPlan (design_of design.now) (numbers plan.items)) }
{
    let plan = draft_of(alloc, design)?;
    if is_plan(alloc, design, &plan)? {
        return Ok(plan);
    }
    design.order().to_vec(alloc)
}

// Whether a list is a plan with no signal twice: each of its signals is left until then, and
// nothing that is read for it is.
fn is_plan(alloc: Global, design: &Design, list: &[SigId]) -> Result<bool, AllocError>
    ensures { IfOk result (λ answer.
        IsTrue answer → IsPlan (design_of design.now) (numbers list.now)) }
{
    let mut left = combinational(alloc, design)?;
    for k in 0..list.len() {
        if !is_next(design, list[k], &left) {
            return Ok(false);
        }
        left[list[k].0 as usize] = false;
    }
    Ok(is_none_left(&left))
}

// A table in which all combinational signals are left.
fn combinational(alloc: Global, design: &Design) -> Result<Vec<bool>, AllocError>
    ensures size { IfOk result (λ left. length left.items ≡ length design.now.signals.items) }
    ensures only { IfOk result (λ left. (s : ℕ) → IsTrue (is_marked left.items s) →
        IsTrue (is_combinational (design_of design.now) s)) }
    ensures all { IfOk result (λ left. (s : ℕ) →
        IsTrue (is_combinational (design_of design.now) s) → IsTrue (is_marked left.items s)) }
{
    let mut left = vec![in alloc; false; design.signals().len()]?;
    let order = design.order();
    for k in 0..order.len() {
        left[order[k].0 as usize] = true;
    }
    Ok(left)
}

// Whether the signal is left, and nothing that is read for it is.
fn is_next(design: &Design, signal: SigId, left: &[bool]) -> bool
    requires { length left.now ≡ length design.now.signals.items }
    ensures within { IsTrue result → signal.0 < length left.now }
    ensures left { IsTrue result → IsTrue (is_marked left.now signal.0) }
    ensures reads { IsTrue result → (r : ℕ) →
        Contains (reads_for (design_of design.now) signal.0) r → IsFalse (is_marked left.now r) }
{
    let s = signal.0 as usize;
    s < left.len() && left[s] && are_taken(design.reads_for(signal), left)
}

// Whether none of the signals is left.
fn are_taken(signals: &[SigId], left: &[bool]) -> bool
    ensures { IsTrue result → (r : ℕ) → Contains (numbers signals.now) r →
        IsFalse (is_marked left.now r) }
{
    signals.iter().all(|signal| !has_mark(left, *signal))
}

// Whether no signal is left.
fn is_none_left(left: &[bool]) -> bool
    ensures { IsTrue result → (s : ℕ) → IsFalse (is_marked left.now s) }
{
    left.iter().all(|is_left| !*is_left)
}
