// Expressions that name no signal.
ghost use Rattle.std.specs.Prelude.{◌≡◌, ◌<◌, ◌^◌, ℕ, List, is_some, IsTrue, IfSome};
ghost use Rattle.sv_system.specs.System.{Environment};
ghost use Rattle.sv_flat.specs.Design.{SignalForm};
ghost use Rattle.sv_flat.specs.Readings.{is_constant, are_constant};
ghost use Rattle.sv_flat.specs.Soundness.{well_formed};
ghost use Rattle.sv_flat.specs.Values.{value};
ghost use Rattle.sv_flat.specs.Views.{typed_tree, typed_trees, parts_of};

use crate::expressions::{FExpr, FNode};
use crate::values::value_of;

/// Whether an expression names no signal.
#[cycle(is_constant)]
pub fn is_constant(expr: &FExpr) -> bool
    ensures { result ≡ is_constant (typed_tree expr.now) }
{
    match &expr.node {
        FNode::Number(_) => true,
        FNode::Unary(_, operand) => is_constant(operand),
        FNode::Binary(_, left, right) => is_constant(left) && is_constant(right),
        FNode::Choice(_, cond, yes, no) => {
            is_constant(cond) && is_constant(yes) && is_constant(no)
        }
        FNode::Join(parts) => are_constant(parts),
        FNode::Repeat(_, parts) => are_constant(parts),
        FNode::Slice(value, _, _) => is_constant(value),
        _ => false,
    }
}

#[cycle(is_constant)]
fn are_constant(exprs: &[FExpr]) -> bool
    ensures { result ≡ are_constant (parts_of (typed_trees exprs.now)) }
{
    for expr in exprs {
        if !is_constant(expr) {
            return false;
        }
    }
    true
}

/// The value of a well formed expression that names no signal, at its own length and read unsigned
/// (IEEE 1364-2005, clause 5): the same among all signals, whatever their values are. None where it
/// names a signal.
pub fn constant_value(expr: &FExpr) -> Option<u64>
    requires { (signals : List SignalForm) × IsTrue (well_formed signals (typed_tree expr.now)) }
    ensures constant { is_some result ≡ is_constant (typed_tree expr.now) }
    ensures value { IfSome result (λ number. (signals : List SignalForm) (values : Environment ℕ)
        → number ≡ value signals values (typed_tree expr.now)) }
    ensures range { IfSome result (λ number. number < 2 ^ expr.now.width) }
{
    if is_constant(expr) {
        Some(value_of(expr, &[], &[]))
    } else {
        None
    }
}
