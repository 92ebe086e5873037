// The names in an expression.
ghost use Rattle.std.specs.Prelude.{◌≡◌, ◌++◌, [], IfOk, OnOk};
ghost use Rattle.sv_flat.specs.Readings.{parts_reads};
ghost use Rattle.sv_flat.specs.Views.{typed_tree, typed_trees, parts_of};
ghost use Rattle.sv_obl.specs.Routes.{names_in, signals_of_reads};

use std::alloc::{AllocError, Global};
use sv_flat::{FExpr, FNode};

// Adds the names in an expression, in textual order.
#[cycle(push_names)]
fn push_names(expr: &FExpr, names: &mut Vec<u32>) -> Result<(), AllocError>
    ensures { OnOk result (names.new.items ≡ names.old.items ++ names_in [] (typed_tree expr.now)) }
{
    match &expr.node {
        FNode::Number(_) => Ok(()),
        FNode::Signal(signal, _) => {
            names.push(signal.0)?;
            Ok(())
        }
        FNode::Bit(signal, _, index) => {
            names.push(signal.0)?;
            push_names(index, names)
        }
        FNode::Part(signal, _, _, _) => {
            names.push(signal.0)?;
            Ok(())
        }
        FNode::Unary(_, operand) => push_names(operand, names),
        FNode::Binary(_, left, right) => {
            push_names(left, names)?;
            push_names(right, names)
        }
        FNode::Choice(_, cond, yes, no) => {
            push_names(cond, names)?;
            push_names(yes, names)?;
            push_names(no, names)
        }
        FNode::Join(parts) => push_all_names(parts, names),
        FNode::Repeat(_, parts) => push_all_names(parts, names),
        FNode::Held(_, value) => push_names(value, names),
        FNode::HeldBit(_, _, value, index) => {
            push_names(value, names)?;
            push_names(index, names)
        }
        FNode::HeldPart(_, _, value, _, _) => push_names(value, names),
        FNode::Mend(_, old, _, _, piece) => {
            push_names(old, names)?;
            push_names(piece, names)
        }
        FNode::Slice(value, _, _) => push_names(value, names),
    }
}

// Adds those in some expressions.
#[cycle(push_names)]
fn push_all_names(exprs: &[FExpr], names: &mut Vec<u32>) -> Result<(), AllocError>
    ensures { OnOk result (names.new.items ≡ names.old.items
        ++ signals_of_reads (parts_reads [] (parts_of (typed_trees exprs.now)))) }
{
    for expr in exprs {
        push_names(expr, names)?;
    }
    Ok(())
}

/// The names in an expression, in textual order; an error where memory runs out.
pub fn names_of(alloc: Global, expr: &FExpr) -> Result<Vec<u32>, AllocError>
    ensures { IfOk result (λ names. names.items ≡ names_in [] (typed_tree expr.now)) }
{
    let mut names = Vec::new(alloc);
    push_names(expr, &mut names)?;
    Ok(names)
}
