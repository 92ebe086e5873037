// Statements.
ghost use Rattle.std.specs.Prelude.{◌≡◌, ◌≤◌, ℕ, Ok, map, List, IfOk, IfErr, IsTrue};
ghost use Rattle.std.specs.List.{list_all};
ghost use Rattle.sv_num.specs.declared.faults.Place.{Place};
ghost use Rattle.sv_ast.specs.Shape.{is_shaped_expression, is_shaped_statement};
ghost use Rattle.sv_ast.specs.Shape.{are_shaped_statements, are_shaped_arms};
ghost use Rattle.sv_ast.specs.Tree.{if_only, case_of};
ghost use Rattle.sv_ast.specs.Views.{expression_tree, expression_trees, statement_tree};
ghost use Rattle.sv_ast.specs.Views.{statement_trees, statements_of, arm_tree, arm_trees, arms_of};
ghost use Rattle.sv_flat.specs.Design.{SignalForm};
ghost use Rattle.sv_flat.specs.Soundness.{statement_sound};
ghost use Rattle.sv_flat.specs.Views.{flat_statement};
ghost use Rattle.sv_elab_rules.specs.CaseChains.{arm_items};
ghost use Rattle.sv_elab_rules.specs.Statements.{statement_walk, statements_walk, arms_walk};
ghost use Rattle.sv_width.specs.Agreement.{HaveSignals};
ghost use Rattle.sv_width.specs.Answers.{IsBreach};
ghost use Rattle.sv_width.specs.Scopes.{names_of};
ghost use Rattle.sv_elab_stmt.specs.Cases.{item_trees, AreItems, greatest};
ghost use Rattle.sv_elab_stmt.specs.Chains.{flat_arm, flat_arms, arm_walk};

use crate::cases::{CaseItem, CaseType, common_type, items_of, typed_items};
use crate::chains::{FlatArm, case_chain, nothing};
use crate::complete::is_complete;
use crate::targets::assignment;
use std::alloc::Global;
use sv_ast::{Arm, Expr, Stmt};
use sv_flat::FStmt;
use sv_num::{Fault, Place};
use sv_width::{Operand, Scope, typed};

/// The flat form of a statement (IEEE 1364-2005, clause 9): a missing `else` does nothing, and a
/// case stands as a chain of `if`. Else the first of the rules 401 to 408 that it breaks, in
/// textual order.
pub fn statement(alloc: Global, stmt: &Stmt, scope: &Scope) -> Result<FStmt, Fault>
    requires { IsTrue (is_shaped_statement (statement_tree stmt.now)) }
    ensures found { IfOk result (λ f.
        (statement_walk (names_of scope.now) (statement_tree stmt.now)).end ≡
        Ok (flat_statement f)) }
    ensures sound { IfOk result (λ f. (signals : List SignalForm)
        → HaveSignals (names_of scope.now) signals
        → IsTrue (statement_sound signals (flat_statement f))) }
    ensures broken { IfErr result
        (IsBreach (statement_walk (names_of scope.now) (statement_tree stmt.now)).end) }
{
    flat(alloc, stmt, scope)
}

// The same, one statement inside another.
#[cycle(statements)]
fn flat(alloc: Global, stmt: &Stmt, scope: &Scope) -> Result<FStmt, Fault>
    requires { IsTrue (is_shaped_statement (statement_tree stmt.now)) }
    ensures found { IfOk result (λ f.
        (statement_walk (names_of scope.now) (statement_tree stmt.now)).end ≡
        Ok (flat_statement f)) }
    ensures broken { IfErr result
        (IsBreach (statement_walk (names_of scope.now) (statement_tree stmt.now)).end) }
{
    match stmt {
        Stmt::Null => Ok(nothing(alloc)),
        Stmt::Assign {
            targets,
            place,
            blocking,
            value,
        } => assignment(alloc, targets, *place, *blocking, value, scope),
        Stmt::Block(stmts) => block(alloc, stmts, scope),
        Stmt::If {
            place,
            cond,
            yes,
            no,
        } => match no {
            None => without_else(alloc, *place, yes, cond, scope),
            Some(no) => {
                let cond = typed(alloc, cond, scope, 0)?;
                let yes = boxed(alloc, yes, scope)?;
                let no = boxed(alloc, no, scope)?;
                Ok(FStmt::If {
                    place: *place,
                    cond,
                    yes,
                    no,
                })
            }
        },
        Stmt::Case { selector, arms, .. } => case(alloc, arms, selector, scope),
    }
}

// An `if` without `else`, which does nothing where the condition is 0.
#[cycle(statements)]
fn without_else(
    alloc: Global,
    place: Place,
    yes: &Stmt,
    cond: &Expr,
    scope: &Scope,
) -> Result<FStmt, Fault>
    requires yes { IsTrue (is_shaped_statement (statement_tree yes.now)) }
    requires cond { IsTrue (is_shaped_expression (expression_tree cond.now)) }
    ensures found { IfOk result (λ f. (statement_walk (names_of scope.now)
        (if_only place (expression_tree cond.now) (statement_tree yes.now))).end ≡
        Ok (flat_statement f)) }
    ensures broken { IfErr result (IsBreach (statement_walk (names_of scope.now)
        (if_only place (expression_tree cond.now) (statement_tree yes.now))).end) }
{
    let cond = typed(alloc, cond, scope, 0)?;
    let yes = boxed(alloc, yes, scope)?;
    let no = Box::new(alloc, nothing(alloc))?;
    Ok(FStmt::If {
        place,
        cond,
        yes,
        no,
    })
}

#[cycle(statements)]
fn boxed(alloc: Global, stmt: &Stmt, scope: &Scope) -> Result<Box<FStmt>, Fault>
    requires { IsTrue (is_shaped_statement (statement_tree stmt.now)) }
    ensures found { IfOk result (λ f.
        (statement_walk (names_of scope.now) (statement_tree stmt.now)).end
        ≡ Ok (flat_statement f.value)) }
    ensures broken { IfErr result
        (IsBreach (statement_walk (names_of scope.now) (statement_tree stmt.now)).end) }
{
    Ok(Box::new(alloc, flat(alloc, stmt, scope)?)?)
}

// Statements one after the other.
#[cycle(statements)]
fn block(alloc: Global, stmts: &[Stmt], scope: &Scope) -> Result<FStmt, Fault>
    requires { IsTrue (are_shaped_statements (statements_of (statement_trees stmts.now))) }
    ensures found { IfOk result (λ f.
        (statements_walk (names_of scope.now) (statements_of (statement_trees stmts.now))).end
        ≡ Ok (flat_statement f)) }
    ensures broken { IfErr result (IsBreach
        (statements_walk (names_of scope.now) (statements_of (statement_trees stmts.now))).end) }
{
    let mut flats = Vec::with_capacity(alloc, stmts.len())?;
    for stmt in stmts {
        flats.push(flat(alloc, stmt, scope)?)?;
    }
    Ok(FStmt::Block(flats))
}

// A case, whose items are measured before its arms are walked.
#[cycle(statements)]
fn case(alloc: Global, arms: &[Arm], selector: &Expr, scope: &Scope) -> Result<FStmt, Fault>
    requires arms { IsTrue (are_shaped_arms (arms_of (arm_trees arms.now))) }
    requires selector { IsTrue (is_shaped_expression (expression_tree selector.now)) }
    ensures found { IfOk result (λ f. (p : Place) → (statement_walk (names_of scope.now)
        (case_of p (expression_tree selector.now) (arms_of (arm_trees arms.now)))).end
        ≡ Ok (flat_statement f)) }
    ensures broken { IfErr result (λ fault.
        (p : Place) → IsBreach (statement_walk (names_of scope.now)
        (case_of p (expression_tree selector.now) (arms_of (arm_trees arms.now)))).end fault) }
{
    let operand = Operand::of(alloc, selector, scope, false)?;
    let items = items_of(alloc, arms, scope)?;
    let to = common_type(&operand, &items);
    let typed_selector = operand.typed(alloc, to.width, to.signed)?;
    let flats = flat_arms(alloc, arms, &items, to, scope)?;
    let complete = is_complete(alloc, selector, operand.width(), &items, to)?;
    Ok(case_chain(alloc, &typed_selector, complete, flats)?)
}

// The arms of a case with their items, which stand in the order of the text.
#[cycle(statements)]
fn flat_arms(
    alloc: Global,
    arms: &[Arm],
    items: &[CaseItem],
    to: CaseType,
    scope: &Scope,
) -> Result<Vec<FlatArm>, Fault>
    requires shaped { IsTrue (are_shaped_arms (arms_of (arm_trees arms.now))) }
    requires all { item_trees items.now ≡ arm_items (arms_of (arm_trees arms.now)) }
    requires each { AreItems (names_of scope.now) items.now }
    requires wide { greatest items.now ≤ to.width }
    ensures found { IfOk result (λ fs. (arms_walk (names_of scope.now) to.width to.signed
        (arms_of (arm_trees arms.now))).end ≡ Ok (flat_arms fs.items)) }
    ensures broken { IfErr result (IsBreach (arms_walk (names_of scope.now) to.width to.signed
        (arms_of (arm_trees arms.now))).end) }
{
    let mut flats = Vec::with_capacity(alloc, arms.len())?;
    let mut next = 0;
    for arm in arms {
        let end = next + arm.items.len();
        flats.push(flat_arm(alloc, arm, &items[next..end], to, scope)?)?;
        next = end;
    }
    Ok(flats)
}

// An arm of a case with its own items.
#[cycle(statements)]
fn flat_arm(
    alloc: Global,
    arm: &Arm,
    items: &[CaseItem],
    to: CaseType,
    scope: &Scope,
) -> Result<FlatArm, Fault>
    requires shaped { IsTrue (list_all is_shaped_expression (arm_tree arm.now).items) }
    requires body { IsTrue (is_shaped_statement (arm_tree arm.now).body) }
    requires all { item_trees items.now ≡ (arm_tree arm.now).items }
    requires each { AreItems (names_of scope.now) items.now }
    requires wide { greatest items.now ≤ to.width }
    ensures found { IfOk result (λ f.
        (arm_walk (names_of scope.now) to.width to.signed (arm_tree arm.now)).end ≡
        Ok (flat_arm f)) }
    ensures broken { IfErr result
        (IsBreach (arm_walk (names_of scope.now) to.width to.signed (arm_tree arm.now)).end) }
{
    let items = typed_items(alloc, items, to, scope)?;
    let body = flat(alloc, &arm.body, scope)?;
    Ok(FlatArm {
        place: arm.place,
        items,
        body,
    })
}
