// Nodes of expressions in boxes of their own.
ghost use Rattle.std.specs.Prelude.{◌≡◌, IfOk};
ghost use Rattle.std.specs.Option.{option_map};
ghost use Rattle.sv_ast.specs.Tree as tree;
ghost use Rattle.sv_ast.specs.Views.{expression_tree, expression_trees, parts_of};
ghost use Rattle.sv_parse_expr.specs.Reading.{selected_tree};

use std::alloc::{AllocError, Global};
use sv_ast::Expr;
use sv_num::{BinOp, Name, Place, UnOp};

/// One bit of a signal, or the bits from the first bound down to the second.
pub fn selected(
    alloc: Global,
    name: Name,
    place: Place,
    high: Expr,
    low: Option<Expr>,
) -> Result<Expr, AllocError>
    ensures { IfOk result (λ e.
        expression_tree e ≡ selected_tree name place (expression_tree high)
        (option_map expression_tree low)) }
{
    let high = Box::new(alloc, high)?;
    match low {
        None => Ok(Expr::Bit(name, place, high)),
        Some(low) => Ok(Expr::Part(name, place, high, Box::new(alloc, low)?)),
    }
}

/// An operator before its operand.
pub fn unary(alloc: Global, op: UnOp, place: Place, operand: Expr) -> Result<Expr, AllocError>
    ensures { IfOk result (λ e. expression_tree e ≡ tree.unary op place (expression_tree operand)) }
{
    Ok(Expr::Unary(op, place, Box::new(alloc, operand)?))
}

/// An operator between its operands.
pub fn binary(
    alloc: Global,
    op: BinOp,
    place: Place,
    left: Expr,
    right: Expr,
) -> Result<Expr, AllocError>
    ensures { IfOk result (λ e.
        expression_tree e ≡ tree.binary op place (expression_tree left) (expression_tree right)) }
{
    let left = Box::new(alloc, left)?;
    Ok(Expr::Binary(op, place, left, Box::new(alloc, right)?))
}

/// The condition, the value where it is true, and the value where it is 0.
pub fn choice(
    alloc: Global,
    place: Place,
    cond: Expr,
    yes: Expr,
    no: Expr,
) -> Result<Expr, AllocError>
    ensures { IfOk result (λ e.
        expression_tree e ≡ tree.choice place (expression_tree cond) (expression_tree yes)
        (expression_tree no)) }
{
    let cond = Box::new(alloc, cond)?;
    let yes = Box::new(alloc, yes)?;
    Ok(Expr::Choice(place, cond, yes, Box::new(alloc, no)?))
}

/// A replication.
pub fn repeat(
    alloc: Global,
    place: Place,
    count: Expr,
    parts: Vec<Expr>,
) -> Result<Expr, AllocError>
    ensures { IfOk result (λ e.
        expression_tree e ≡ tree.replication place (expression_tree count)
        (parts_of (expression_trees parts.items))) }
{
    Ok(Expr::Repeat(place, Box::new(alloc, count)?, parts))
}

/// A join.
pub fn join(place: Place, parts: Vec<Expr>) -> Expr
    ensures { expression_tree result ≡ tree.join place (parts_of (expression_trees parts.items)) }
{
    Expr::Join(place, parts)
}
