// Statements over typed expressions.
ghost use Rattle.std.specs.Prelude.{◌≡◌, IfOk, IsFalse};
ghost use Rattle.sv_flat.specs.ByNumber.{is_branch};
ghost use Rattle.sv_flat.specs.Branches.{branches_around};
ghost use Rattle.sv_flat.specs.Views.{flat_statement, flat_statements};

use crate::expressions::FExpr;
use crate::signals::SigId;
use std::alloc::{AllocError, Global};
use sv_num::Place;

/// What an assignment does to one target: the signal's bits from `high` down to `low` get the
/// value's bits from `from` up. The place is that of the target's name.
#[derive(Clone, Copy, Debug, PartialEq, Eq)]
pub struct Piece {
    pub signal: SigId,
    pub place: Place,
    pub high: u8,
    pub low: u8,
    pub from: u8,
}

/// A statement. A missing `else` is an empty block, and a `case` stands as a chain of `if`.
#[derive(Debug, Drop)]
pub enum FStmt {
    /// An assignment to its pieces in textual order, with the place of the first; the value is
    /// taken once, before.
    Assign {
        pieces: Vec<Piece>,
        place: Place,
        /// `=` where true, else `<=`.
        blocking: bool,
        value: FExpr,
    },
    /// Statements one after the other.
    Block(Vec<FStmt>),
    /// The place is that of the `if`, or of the arm of a `case`.
    If {
        place: Place,
        cond: FExpr,
        yes: Box<FStmt>,
        no: Box<FStmt>,
    },
}

impl FStmt {
    /// A second statement that is equal. It fails where memory runs out.
    // No call goes down a chain of branches: a `case` may have many arms.
    #[cycle(statement_copy)]
    pub fn copy(&self, alloc: Global) -> Result<FStmt, AllocError>
        ensures { IfOk result (λ copy. flat_statement copy ≡ flat_statement self.now) }
    {
        let mut arms = Vec::new(alloc);
        let mut rest = self;
        while let FStmt::If {
            place,
            cond,
            yes,
            no,
        } = rest
        {
            let cond = cond.copy(alloc)?;
            let yes = boxed(yes, alloc)?;
            arms.push(Arm {
                place: *place,
                cond,
                yes,
            })?;
            rest = no;
        }
        let last = plain_copy(rest, alloc)?;
        branches(alloc, arms, last)
    }
}

// A branch without its second arm.
#[derive(Drop)]
struct Arm {
    place: Place,
    cond: FExpr,
    yes: Box<FStmt>,
}

// The chain of branches with these arms, of which the last statement is the second arm of the last.
fn branches(alloc: Global, arms: Vec<Arm>, last: FStmt) -> Result<FStmt, AllocError>
    ensures { IfOk result (λ chain.
        flat_statement chain ≡ branches_around arms.items (flat_statement last)) }
{
    let mut arms = arms;
    let mut chain = last;
    while let Some(Arm { place, cond, yes }) = arms.pop() {
        let no = Box::new(alloc, chain)?;
        chain = FStmt::If {
            place,
            cond,
            yes,
            no,
        };
    }
    Ok(chain)
}

// A copy of a statement that is no branch.
#[cycle(statement_copy)]
fn plain_copy(stmt: &FStmt, alloc: Global) -> Result<FStmt, AllocError>
    requires plain { IsFalse (is_branch (flat_statement stmt.now)) }
    ensures { IfOk result (λ copy. flat_statement copy ≡ flat_statement stmt.now) }
{
    match stmt {
        FStmt::Assign {
            pieces,
            place,
            blocking,
            value,
        } => Ok(FStmt::Assign {
            pieces: pieces.as_slice().to_vec(alloc)?,
            place: *place,
            blocking: *blocking,
            value: value.copy(alloc)?,
        }),
        FStmt::Block(stmts) => Ok(FStmt::Block(copies(stmts, alloc)?)),
        FStmt::If { .. } => unreachable!(),
    }
}

// A copy in a box of its own.
#[cycle(statement_copy)]
fn boxed(stmt: &FStmt, alloc: Global) -> Result<Box<FStmt>, AllocError>
    ensures { IfOk result (λ copy. flat_statement copy.value ≡ flat_statement stmt.now) }
{
    Ok(Box::new(alloc, stmt.copy(alloc)?)?)
}

// A copy of each statement, in order.
#[cycle(statement_copy)]
fn copies(stmts: &[FStmt], alloc: Global) -> Result<Vec<FStmt>, AllocError>
    ensures { IfOk result (λ copies. flat_statements copies.items ≡ flat_statements stmts.now) }
{
    let mut copies = Vec::with_capacity(alloc, stmts.len())?;
    for stmt in stmts {
        copies.push(stmt.copy(alloc)?)?;
    }
    Ok(copies)
}
