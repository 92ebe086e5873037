// A case as a chain of `if`.
ghost use Rattle.std.specs.Prelude.{◌≡◌, ◌==◌, vec_len, false, Option, option_map, filter};
ghost use Rattle.std.specs.Prelude.{position, IfOk};
ghost use Rattle.sv_num.specs.declared.operators.BinOp.{BinOp};
ghost use Rattle.sv_flat.specs.Design.{TypedTree, typed, binary, nothing};
ghost use Rattle.sv_flat.specs.Views.{typed_tree, typed_trees, flat_statement};
ghost use Rattle.sv_elab_rules.specs.CaseChains.{equals, arm_branch, chain, case_chain, default_of};
ghost use Rattle.sv_elab_stmt.specs.Chains.{flat_arm, flat_arms, has_items, either, condition_of};
ghost use Rattle.sv_elab_stmt.specs.Chains.{otherwise_of};

use std::alloc::Global;
use sv_flat::{FExpr, FNode, FStmt};
use sv_num::{BinOp, OutOfMemory, Place};

/// An arm of a case with its items and its statement in typed form, at the place of the arm. The
/// arm without items is the default.
#[derive(Debug, Drop)]
pub struct FlatArm {
    pub place: Place,
    pub items: Vec<FExpr>,
    pub body: FStmt,
}

/// A statement that does nothing.
pub fn nothing(alloc: Global) -> FStmt
    ensures { flat_statement result ≡ nothing }
{
    FStmt::Block(Vec::new(alloc))
}

// An operator that gives one bit, with its operands.
fn test(alloc: Global, op: BinOp, left: FExpr, right: FExpr) -> Result<FExpr, OutOfMemory>
    ensures { IfOk result (λ e.
        typed_tree e ≡ typed 1 false (binary op (typed_tree left) (typed_tree right))) }
{
    let left = Box::new(alloc, left)?;
    let right = Box::new(alloc, right)?;
    Ok(FExpr {
        width: 1,
        signed: false,
        node: FNode::Binary(op, left, right),
    })
}

// One more test beside an earlier one.
fn either(alloc: Global, before: Option<FExpr>, next: FExpr) -> Result<FExpr, OutOfMemory>
    ensures { IfOk result (λ e.
        typed_tree e ≡ either (option_map typed_tree before) (typed_tree next)) }
{
    match before {
        None => Ok(next),
        Some(before) => test(alloc, BinOp::LogicOr, before, next),
    }
}

// Whether the selector equals one of the items, asked from left to right; None for no item.
fn condition(
    alloc: Global,
    selector: &FExpr,
    items: Vec<FExpr>,
) -> Result<Option<FExpr>, OutOfMemory>
    ensures { IfOk result (λ c. option_map typed_tree c
        ≡ condition_of (typed_tree selector.now) (typed_trees items.items)) }
{
    let mut condition = None;
    for item in items {
        let equal = test(alloc, BinOp::Eq, selector.copy(alloc)?, item)?;
        condition = Some(either(alloc, condition, equal)?);
    }
    Ok(condition)
}

// An arm before the rest of a chain. One without items leaves the rest as it is.
fn branch(alloc: Global, selector: &FExpr, arm: FlatArm, rest: FStmt) -> Result<FStmt, OutOfMemory>
    ensures { IfOk result (λ f. flat_statement f
        ≡ arm_branch (typed_tree selector.now) arm.place (typed_trees arm.items.items)
        (flat_statement arm.body) (flat_statement rest)) }
{
    let FlatArm { place, items, body } = arm;
    match condition(alloc, selector, items)? {
        None => Ok(rest),
        Some(cond) => Ok(FStmt::If {
            place,
            cond,
            yes: Box::new(alloc, body)?,
            no: Box::new(alloc, rest)?,
        }),
    }
}

// The arms one before the other, and what else is done.
fn chain(
    alloc: Global,
    selector: &FExpr,
    arms: Vec<FlatArm>,
    otherwise: FStmt,
) -> Result<FStmt, OutOfMemory>
    ensures { IfOk result (λ f. flat_statement f
        ≡ chain (typed_tree selector.now) (flat_arms arms.items) (flat_statement otherwise)) }
{
    let mut arms = arms;
    let mut rest = otherwise;
    while let Some(arm) = arms.pop() {
        rest = branch(alloc, selector, arm, rest)?;
    }
    Ok(rest)
}

// Where the default stands among the arms.
fn default_place(arms: &[FlatArm]) -> Option<usize>
    ensures { result ≡ position (λ arm. vec_len arm.items == 0) arms.now }
{
    arms.iter().position(|arm| arm.items.is_empty())
}

// Takes out of the arms the one that is taken where no other one is: the default, or the last arm
// of a complete case.
fn take_last_resort(complete: bool, arms: &mut Vec<FlatArm>) -> Option<FlatArm>
    ensures { (s : TypedTree)
        → chain s (flat_arms arms.new.items) (otherwise_of (option_map flat_arm result))
        ≡ case_chain s complete (filter has_items (flat_arms arms.old.items))
        (default_of (flat_arms arms.old.items)) }
{
    match default_place(arms) {
        Some(at) => Some(arms.remove(at)),
        None if complete => arms.pop(),
        None => None,
    }
}

/// The chain of a case, where `complete` says whether its items leave no value of the selector out.
pub fn case_chain(
    alloc: Global,
    selector: &FExpr,
    complete: bool,
    arms: Vec<FlatArm>,
) -> Result<FStmt, OutOfMemory>
    ensures { IfOk result (λ f. flat_statement f
        ≡ case_chain (typed_tree selector.now) complete (filter has_items (flat_arms arms.items))
        (default_of (flat_arms arms.items))) }
{
    let mut arms = arms;
    let otherwise = match take_last_resort(complete, &mut arms) {
        Some(arm) => arm.body,
        None => nothing(alloc),
    };
    chain(alloc, selector, arms, otherwise)
}
