// Typed expressions.
ghost use Rattle.std.specs.Prelude.{◌≡◌, IfOk};
ghost use Rattle.sv_flat.specs.Views.{typed_tree, typed_trees, node_tree};

use crate::signals::SigId;
use std::alloc::{AllocError, Global};
use sv_num::{BinOp, Place, UnOp};

/// An expression with the length in bits and the signedness that its context gives it (IEEE
/// 1364-2005, clauses 5.4 and 5.5).
#[derive(Debug, Drop)]
#[cycle(expressions)]
pub struct FExpr {
    pub width: u8,
    pub signed: bool,
    pub node: FNode,
}

/// What a typed expression is made of. The nodes from `Held` on stand in obligations alone, for a
/// value that was put in for a signal's name.
#[derive(Debug, Drop)]
#[cycle(expressions)]
pub enum FNode {
    /// A number, already at the expression's length.
    Number(u64),
    /// The value of a signal.
    Signal(SigId, Place),
    /// One bit of a signal, by an index.
    Bit(SigId, Place, Box<FExpr>),
    /// The bits of a signal from the first number down to the second.
    Part(SigId, Place, u8, u8),
    /// An operator before its operand.
    Unary(UnOp, Box<FExpr>),
    /// An operator between its operands.
    Binary(BinOp, Box<FExpr>, Box<FExpr>),
    /// The condition, the value where it is true, and the value where it is 0.
    Choice(Place, Box<FExpr>, Box<FExpr>, Box<FExpr>),
    /// A concatenation, the highest part first.
    Join(Vec<FExpr>),
    /// A concatenation repeated so many times.
    Repeat(u32, Vec<FExpr>),
    /// The expression's value cut to the signal's width and read with the signal's signedness.
    Held(SigId, Box<FExpr>),
    /// One bit of such a value; the index comes last.
    HeldBit(SigId, Place, Box<FExpr>, Box<FExpr>),
    /// The bits of such a value from the first number down to the second.
    HeldPart(SigId, Place, Box<FExpr>, u8, u8),
    /// The first expression at the signal's width, with the bits from the first number down to the
    /// second replaced by the low bits of the last expression.
    Mend(SigId, Box<FExpr>, u8, u8, Box<FExpr>),
    /// The bits of an expression's value from the first number down to the second.
    Slice(Box<FExpr>, u8, u8),
}

impl FExpr {
    /// A second expression that is equal. It fails where memory runs out.
    // The calls go as deep as the tree.
    #[cycle(expression_copy)]
    pub fn copy(&self, alloc: Global) -> Result<FExpr, AllocError>
        ensures { IfOk result (λ copy. typed_tree copy ≡ typed_tree self.now) }
    {
        Ok(FExpr {
            width: self.width,
            signed: self.signed,
            node: self.node.copy(alloc)?,
        })
    }
}

impl FNode {
    // A second node that is equal.
    #[cycle(expression_copy)]
    fn copy(&self, alloc: Global) -> Result<FNode, AllocError>
        ensures { IfOk result (λ copy. node_tree copy ≡ node_tree self.now) }
    {
        match self {
            FNode::Number(value) => Ok(FNode::Number(*value)),
            FNode::Signal(signal, place) => Ok(FNode::Signal(*signal, *place)),
            FNode::Bit(signal, place, index) => {
                Ok(FNode::Bit(*signal, *place, boxed(index, alloc)?))
            }
            FNode::Part(signal, place, high, low) => Ok(FNode::Part(*signal, *place, *high, *low)),
            FNode::Unary(op, operand) => Ok(FNode::Unary(*op, boxed(operand, alloc)?)),
            FNode::Binary(op, left, right) => Ok(FNode::Binary(
                *op,
                boxed(left, alloc)?,
                boxed(right, alloc)?,
            )),
            FNode::Choice(place, cond, yes, no) => Ok(FNode::Choice(
                *place,
                boxed(cond, alloc)?,
                boxed(yes, alloc)?,
                boxed(no, alloc)?,
            )),
            FNode::Join(parts) => Ok(FNode::Join(copies(parts, alloc)?)),
            FNode::Repeat(count, parts) => Ok(FNode::Repeat(*count, copies(parts, alloc)?)),
            FNode::Held(signal, value) => Ok(FNode::Held(*signal, boxed(value, alloc)?)),
            FNode::HeldBit(signal, place, value, index) => Ok(FNode::HeldBit(
                *signal,
                *place,
                boxed(value, alloc)?,
                boxed(index, alloc)?,
            )),
            FNode::HeldPart(signal, place, value, high, low) => Ok(FNode::HeldPart(
                *signal,
                *place,
                boxed(value, alloc)?,
                *high,
                *low,
            )),
            FNode::Mend(signal, old, high, low, piece) => Ok(FNode::Mend(
                *signal,
                boxed(old, alloc)?,
                *high,
                *low,
                boxed(piece, alloc)?,
            )),
            FNode::Slice(value, high, low) => Ok(FNode::Slice(boxed(value, alloc)?, *high, *low)),
        }
    }
}

// A copy in a box of its own.
#[cycle(expression_copy)]
fn boxed(expr: &FExpr, alloc: Global) -> Result<Box<FExpr>, AllocError>
    ensures { IfOk result (λ copy. typed_tree copy.value ≡ typed_tree expr.now) }
{
    Ok(Box::new(alloc, expr.copy(alloc)?)?)
}

// A copy of each expression, in order.
#[cycle(expression_copy)]
fn copies(exprs: &[FExpr], alloc: Global) -> Result<Vec<FExpr>, AllocError>
    ensures { IfOk result (λ copies. typed_trees copies.items ≡ typed_trees exprs.now) }
{
    let mut copies = Vec::with_capacity(alloc, exprs.len())?;
    for expr in exprs {
        copies.push(expr.copy(alloc)?)?;
    }
    Ok(copies)
}
