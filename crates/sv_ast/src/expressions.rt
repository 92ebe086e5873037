// Expressions.
ghost use Rattle.std.specs.Prelude.{◌≡◌, ◌&&◌, IfOk};
ghost use Rattle.std.specs.List.{list_all};
ghost use Rattle.sv_ast.specs.GrammarModules.{place_of};
ghost use Rattle.sv_ast.specs.Shape.{is_shaped_expression, has_part, are_shaped_parts, is_number};
ghost use Rattle.sv_ast.specs.Tree.{ExpressionTree};
ghost use Rattle.sv_ast.specs.Views.{expression_tree, expression_trees, parts_of};

use crate::shapes::Shaped;
use std::alloc::{AllocError, Global};
use sv_num::{BinOp, Copied, Name, Place, UnOp};
use sv_token::Lit;

/// An expression (IEEE 1364-2005, clause 5). Its place is that of its operator, of its `?`, of its
/// first brace, or else of its first token; parentheses leave no trace.
#[derive(Debug, Drop)]
pub enum Expr {
    /// A number.
    Number(Lit, Place),
    /// A signal or a parameter.
    Name(Name, Place),
    /// One bit of a signal, by an index.
    Bit(Name, Place, Box<Expr>),
    /// The bits of a signal from the first bound down to the second.
    Part(Name, Place, Box<Expr>, Box<Expr>),
    /// An operator before its operand.
    Unary(UnOp, Place, Box<Expr>),
    /// An operator between its operands.
    Binary(BinOp, Place, Box<Expr>, Box<Expr>),
    /// The condition, the value where it is true, and the value where it is 0.
    Choice(Place, Box<Expr>, Box<Expr>, Box<Expr>),
    /// A concatenation of at least one part, the highest first.
    Join(Place, Vec<Expr>),
    /// A replication: the count, and at least one part.
    Repeat(Place, Box<Expr>, Vec<Expr>),
}

impl Expr {
    /// A second tree that is equal. It fails where memory runs out.
    // The calls go some 600 deep at most in a tree of the grammar: 64 levels, and a row of
    // operators of 512.
    #[cycle(expression_copy)]
    pub fn copy(&self, alloc: Global) -> Result<Expr, AllocError>
        ensures { IfOk result (λ copy. expression_tree copy ≡ expression_tree self.now) }
    {
        match self {
            Expr::Number(number, place) => Ok(Expr::Number(*number, *place)),
            Expr::Name(name, place) => Ok(Expr::Name(name.copy(alloc)?, *place)),
            Expr::Bit(name, place, index) => {
                Ok(Expr::Bit(name.copy(alloc)?, *place, boxed(index, alloc)?))
            }
            Expr::Part(name, place, high, low) => Ok(Expr::Part(
                name.copy(alloc)?,
                *place,
                boxed(high, alloc)?,
                boxed(low, alloc)?,
            )),
            Expr::Unary(op, place, operand) => {
                Ok(Expr::Unary(*op, *place, boxed(operand, alloc)?))
            }
            Expr::Binary(op, place, left, right) => Ok(Expr::Binary(
                *op,
                *place,
                boxed(left, alloc)?,
                boxed(right, alloc)?,
            )),
            Expr::Choice(place, cond, yes, no) => Ok(Expr::Choice(
                *place,
                boxed(cond, alloc)?,
                boxed(yes, alloc)?,
                boxed(no, alloc)?,
            )),
            Expr::Join(place, parts) => Ok(Expr::Join(*place, copies(parts, alloc)?)),
            Expr::Repeat(place, count, parts) => Ok(Expr::Repeat(
                *place,
                boxed(count, alloc)?,
                copies(parts, alloc)?,
            )),
        }
    }
}

impl Expr {
    /// The place of its operator, its `?`, its first brace, or else its first token (this
    /// project's profile).
    pub fn place(&self) -> Place
        ensures { result ≡ place_of (expression_tree self.now) }
    {
        match self {
            Expr::Number(_, place)
            | Expr::Name(_, place)
            | Expr::Bit(_, place, _)
            | Expr::Part(_, place, _, _)
            | Expr::Unary(_, place, _)
            | Expr::Binary(_, place, _, _)
            | Expr::Choice(place, _, _, _)
            | Expr::Join(place, _)
            | Expr::Repeat(place, _, _) => *place,
        }
    }
}

impl Expr {
    /// Whether the grammar can give the tree: every join and replication in it has at least one
    /// part.
    #[cycle(expression_shape)]
    pub fn is_shaped(&self) -> bool
        ensures { result ≡ is_shaped_expression (expression_tree self.now) }
    {
        match self {
            Expr::Number(..) | Expr::Name(..) => true,
            Expr::Bit(_, _, index) => index.is_shaped(),
            Expr::Part(_, _, high, low) => high.is_shaped() && low.is_shaped(),
            Expr::Unary(_, _, operand) => operand.is_shaped(),
            Expr::Binary(_, _, left, right) => left.is_shaped() && right.is_shaped(),
            Expr::Choice(_, cond, yes, no) => {
                cond.is_shaped() && yes.is_shaped() && no.is_shaped()
            }
            Expr::Join(_, parts) => are_shaped_parts(parts),
            Expr::Repeat(_, count, parts) => count.is_shaped() && are_shaped_parts(parts),
        }
    }
}

// Whether they can be the parts of a join or replication.
#[cycle(expression_shape)]
fn are_shaped_parts(parts: &[Expr]) -> bool
    ensures { let trees = parts_of (expression_trees parts.now) in
        result ≡ (has_part trees && are_shaped_parts trees) }
{
    !parts.is_empty() && are_shaped(parts)
}

// Whether each of them is shaped.
#[cycle(expression_shape)]
fn are_shaped(exprs: &[Expr]) -> bool
    ensures { result ≡ list_all is_shaped_expression (expression_trees exprs.now) }
{
    for expr in exprs {
        if !expr.is_shaped() {
            return false;
        }
    }
    true
}

// A copy in a box of its own.
#[cycle(expression_copy)]
fn boxed(expr: &Expr, alloc: Global) -> Result<Box<Expr>, AllocError>
    ensures { IfOk result (λ copy. expression_tree copy.value ≡ expression_tree expr.now) }
{
    Ok(Box::new(alloc, expr.copy(alloc)?)?)
}

// A copy of each expression, in order.
#[cycle(expression_copy)]
fn copies(exprs: &[Expr], alloc: Global) -> Result<Vec<Expr>, AllocError>
    ensures { IfOk result (λ copies. expression_trees copies.items ≡ expression_trees exprs.now) }
{
    let mut copies = Vec::with_capacity(alloc, exprs.len())?;
    for expr in exprs {
        copies.push(expr.copy(alloc)?)?;
    }
    Ok(copies)
}

impl Copied for Expr {
    ghost Plain = { ExpressionTree };

    ghost plain = { expression_tree };

    fn copy(&self, alloc: Global) -> Result<Expr, AllocError> {
        Expr::copy(self, alloc)
    }
}

impl Shaped for Expr {
    ghost Form = { ExpressionTree };

    ghost form = { expression_tree };

    ghost shaped = { is_shaped_expression };

    fn is_shaped(&self) -> bool {
        Expr::is_shaped(self)
    }
}

impl Expr {
    /// Whether it is a number (IEEE 1364-2005, clause 3.5).
    pub(crate) fn is_number(&self) -> bool
        ensures { result ≡ is_number (expression_tree self.now) }
    {
        matches!(self, Expr::Number(..))
    }
}
