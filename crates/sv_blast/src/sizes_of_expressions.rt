// How many gates expressions take, up to one over the most variables.
ghost use Rattle.std.specs.Prelude.{◌≡◌, ◌+◌, min, sum, map};
ghost use Rattle.sv_flat.specs.ByNumber.{signal_forms};
ghost use Rattle.sv_flat.specs.Values.{signal_width};
ghost use Rattle.sv_flat.specs.Views.{typed_tree, typed_trees, node_tree, parts_of};
ghost use Rattle.sv_num.specs.BinaryValues.{class_of};
ghost use Rattle.sv_obl.specs.Paths.{StepForm};
ghost use Rattle.sv_obl.specs.Views.{step_form};
ghost use Rattle.sv_encoding.specs.Sizes.{expression_size, node_size, parts_size, index_size};
ghost use Rattle.sv_encoding.specs.Sizes.{operand_size, truth_size};

use crate::sizes_of_operators::{
    binary_size, chain_size, operand_size, picked_size, sum, unary_size,
};
use sv_flat::{FExpr, FNode, SigId, Signal, is_constant};
use sv_num::BinOp;
use sv_obl::PathStep;

/// The width of a signal, and 0 where there is no such signal.
pub fn width_of(signals: &[Signal], signal: SigId) -> u8
    ensures { result ≡ signal_width (signal_forms signals.now) signal.0 }
{
    match signals.get(signal.0 as usize) {
        Some(known) => known.width,
        None => 0,
    }
}

/// The gates of an expression.
#[cycle(expression_sizes)]
pub fn expression_size(signals: &[Signal], expr: &FExpr) -> u32
    ensures { result ≡
        min (expression_size (signal_forms signals.now) (typed_tree expr.now)) 4194305 }
{
    node_size(signals, &expr.node)
}

#[cycle(expression_sizes)]
fn node_size(signals: &[Signal], node: &FNode) -> u32
    ensures { result ≡ min (node_size (signal_forms signals.now) (node_tree node.now)) 4194305 }
{
    match node {
        FNode::Number(_) => 0,
        FNode::Signal(_, _) => 0,
        FNode::Bit(signal, _, index) => index_size(signals, *signal, index),
        FNode::Part(_, _, _, _) => 0,
        FNode::Unary(op, operand) => sum(
            expression_size(signals, operand),
            unary_size(*op, operand.width),
        ),
        FNode::Binary(op, left, right) => sum(
            sum(
                side_size(signals, *op, left),
                side_size(signals, *op, right),
            ),
            binary_size(*op, left.width, right.width),
        ),
        FNode::Choice(_, cond, yes, no) => sum(
            sum(truth_size(signals, cond), expression_size(signals, yes)),
            sum(expression_size(signals, no), u32::from(yes.width)),
        ),
        FNode::Join(parts) => parts_size(signals, parts),
        FNode::Repeat(_, parts) => parts_size(signals, parts),
        FNode::Held(_, value) => expression_size(signals, value),
        FNode::HeldBit(signal, _, value, index) => sum(
            expression_size(signals, value),
            index_size(signals, *signal, index),
        ),
        FNode::HeldPart(_, _, value, _, _) => expression_size(signals, value),
        FNode::Mend(_, old, _, _, piece) => sum(
            expression_size(signals, old),
            expression_size(signals, piece),
        ),
        FNode::Slice(value, _, _) => expression_size(signals, value),
    }
}

// A bit of a signal's word by an index.
#[cycle(expression_sizes)]
fn index_size(signals: &[Signal], signal: SigId, index: &FExpr) -> u32
    ensures { result ≡ min (index_size (signal_width (signal_forms signals.now) signal.0)
        (typed_tree index.now) (expression_size (signal_forms signals.now) (typed_tree index.now)))
        4194305 }
{
    if is_constant(index) {
        return 0;
    }
    sum(
        expression_size(signals, index),
        picked_size(width_of(signals, signal), index.width, index.signed),
    )
}

// An operand of a binary operator.
#[cycle(expression_sizes)]
fn side_size(signals: &[Signal], op: BinOp, side: &FExpr) -> u32
    ensures { result ≡ min (expression_size (signal_forms signals.now) (typed_tree side.now)
        + operand_size (class_of op) side.now.width) 4194305 }
{
    sum(expression_size(signals, side), operand_size(op, side.width))
}

/// The gates of an expression and of whether it is not 0.
#[cycle(expression_sizes)]
pub fn truth_size(signals: &[Signal], expr: &FExpr) -> u32
    ensures { result ≡ min (truth_size (signal_forms signals.now) (typed_tree expr.now)) 4194305 }
{
    sum(
        expression_size(signals, expr),
        chain_size(u32::from(expr.width)),
    )
}

#[cycle(expression_sizes)]
fn parts_size(signals: &[Signal], parts: &[FExpr]) -> u32
    ensures { result ≡ min (parts_size (signal_forms signals.now)
        (parts_of (typed_trees parts.now))) 4194305 }
{
    let mut total = 0;
    for part in parts {
        total = sum(total, expression_size(signals, part));
    }
    total
}

/// The gates of whether each of some expressions is not 0.
pub fn truths_size(signals: &[Signal], exprs: &[FExpr]) -> u32
    ensures { result ≡
        min (sum (map (truth_size (signal_forms signals.now)) (typed_trees exprs.now))) 4194305 }
{
    let mut total = 0;
    for expr in exprs {
        total = sum(total, truth_size(signals, expr));
    }
    total
}

/// The gates of whether each condition of a path is not 0.
pub fn conditions_size(signals: &[Signal], path: &[PathStep]) -> u32
    ensures { result ≡ min (sum (map (truth_size (signal_forms signals.now))
        (map (λ (step : StepForm). step.condition) (map step_form path.now)))) 4194305 }
{
    let mut total = 0;
    for step in path {
        total = sum(total, truth_size(signals, &step.cond));
    }
    total
}
