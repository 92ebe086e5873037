// Statements.
ghost use Rattle.std.specs.Prelude.{◌≡◌, ◌&&◌, nat_le, map, IfOk};
ghost use Rattle.std.specs.List.{list_all};
ghost use Rattle.sv_ast.specs.Shape.{is_whole, is_whole_target, is_shaped_selection};
ghost use Rattle.sv_ast.specs.Shape.{is_shaped_target, are_shaped_targets, are_whole_targets};
ghost use Rattle.sv_ast.specs.Shape.{is_shaped_statement, are_shaped_statements, has_arm};
ghost use Rattle.sv_ast.specs.Shape.{default_count, are_shaped_arms};
ghost use Rattle.sv_ast.specs.Tree.{Selection, TargetTree, assignment, if_only};
ghost use Rattle.sv_ast.specs.Tree.{if_else, case_of};
ghost use Rattle.sv_ast.specs.Views.{expression_tree, selection_of, target_tree, statement_tree};
ghost use Rattle.sv_ast.specs.Views.{statement_trees};
ghost use Rattle.sv_ast.specs.Views.{statements_of, arm_tree, arm_trees, arms_of};

use crate::expressions::Expr;
use crate::shapes::Shaped;
use std::alloc::{AllocError, Global};
use sv_num::{Copied, Name, Place};

/// Which bits of a signal an assignment changes.
#[derive(Debug, Drop)]
pub enum Select {
    /// All of them.
    Whole,
    /// The bit with this constant number.
    Bit(Expr),
    /// The bits from the first constant bound down to the second.
    Part(Expr, Expr),
}

/// A target of an assignment, with the place of its name.
#[derive(Debug, Drop)]
pub struct Target {
    pub name: Name,
    pub place: Place,
    pub select: Select,
}

/// An arm of a `case`, with the place of its first token. The arm without items is the default.
#[derive(Debug, Drop)]
#[cycle(statements)]
pub struct Arm {
    pub place: Place,
    pub items: Vec<Expr>,
    pub body: Stmt,
}

/// A statement (IEEE 1364-2005, clause 9).
#[derive(Debug, Drop)]
#[cycle(statements)]
pub enum Stmt {
    /// `;`
    Null,
    /// An assignment to at least one target, the last of which takes the lowest bits. It has the
    /// place of the first target.
    Assign {
        targets: Vec<Target>,
        place: Place,
        /// `=` where true, else `<=`.
        blocking: bool,
        value: Expr,
    },
    /// `begin` to `end`.
    Block(Vec<Stmt>),
    /// An `if`, with the place of the word.
    If {
        place: Place,
        cond: Expr,
        yes: Box<Stmt>,
        no: Option<Box<Stmt>>,
    },
    /// A `case` of at least one arm, with the place of the word.
    Case {
        place: Place,
        selector: Expr,
        arms: Vec<Arm>,
    },
}

impl Copied for Select {
    ghost Plain = { Selection };

    ghost plain = { selection_of };

    fn copy(&self, alloc: Global) -> Result<Select, AllocError> {
        match self {
            Select::Whole => Ok(Select::Whole),
            Select::Bit(index) => Ok(Select::Bit(index.copy(alloc)?)),
            Select::Part(high, low) => Ok(Select::Part(high.copy(alloc)?, low.copy(alloc)?)),
        }
    }
}

impl Copied for Target {
    ghost Plain = { TargetTree };

    ghost plain = { target_tree };

    fn copy(&self, alloc: Global) -> Result<Target, AllocError> {
        Ok(Target {
            name: self.name.copy(alloc)?,
            place: self.place,
            select: self.select.copy(alloc)?,
        })
    }
}

impl Stmt {
    /// A second tree that is equal. It fails where memory runs out.
    #[cycle(statement_copy)]
    pub fn copy(&self, alloc: Global) -> Result<Stmt, AllocError>
        ensures { IfOk result (λ copy. statement_tree copy ≡ statement_tree self.now) }
    {
        match self {
            Stmt::Null => Ok(Stmt::Null),
            Stmt::Assign {
                targets,
                place,
                blocking,
                value,
            } => assign_copy(targets, *place, *blocking, value, alloc),
            Stmt::Block(stmts) => Ok(Stmt::Block(copies(stmts, alloc)?)),
            Stmt::If {
                place,
                cond,
                yes,
                no: None,
            } => {
                let yes = boxed(yes, alloc)?;
                if_of(*place, cond, yes, alloc)
            }
            Stmt::If {
                place,
                cond,
                yes,
                no: Some(no),
            } => {
                let yes = boxed(yes, alloc)?;
                let no = boxed(no, alloc)?;
                if_else_of(*place, cond, yes, no, alloc)
            }
            Stmt::Case {
                place,
                selector,
                arms,
            } => {
                let arms = arm_copies(arms, alloc)?;
                case_of(*place, selector, arms, alloc)
            }
        }
    }
}

// A second assignment that is equal.
fn assign_copy(
    targets: &Vec<Target>,
    place: Place,
    blocking: bool,
    value: &Expr,
    alloc: Global,
) -> Result<Stmt, AllocError>
    ensures { IfOk result (λ copy.
        statement_tree copy ≡ assignment (map target_tree targets.now.items) place blocking
        (expression_tree value.now)) }
{
    Ok(Stmt::Assign {
        targets: targets.copy(alloc)?,
        place,
        blocking,
        value: value.copy(alloc)?,
    })
}

// An `if` without `else`, with a copy of its condition.
fn if_of(place: Place, cond: &Expr, yes: Box<Stmt>, alloc: Global) -> Result<Stmt, AllocError>
    ensures { IfOk result (λ stmt.
        statement_tree stmt ≡ if_only place (expression_tree cond.now) (statement_tree yes.value)) }
{
    Ok(Stmt::If {
        place,
        cond: cond.copy(alloc)?,
        yes,
        no: None,
    })
}

// An `if` with its `else`, with a copy of its condition.
fn if_else_of(
    place: Place,
    cond: &Expr,
    yes: Box<Stmt>,
    no: Box<Stmt>,
    alloc: Global,
) -> Result<Stmt, AllocError>
    ensures { IfOk result (λ stmt.
        statement_tree stmt ≡ if_else place (expression_tree cond.now) (statement_tree yes.value)
        (statement_tree no.value)) }
{
    Ok(Stmt::If {
        place,
        cond: cond.copy(alloc)?,
        yes,
        no: Some(no),
    })
}

// A `case`, with a copy of its selector.
fn case_of(place: Place, selector: &Expr, arms: Vec<Arm>, alloc: Global) -> Result<Stmt, AllocError>
    ensures { IfOk result (λ stmt.
        statement_tree stmt ≡ case_of place (expression_tree selector.now)
        (arms_of (arm_trees arms.items))) }
{
    Ok(Stmt::Case {
        place,
        selector: selector.copy(alloc)?,
        arms,
    })
}

// A copy in a box of its own.
#[cycle(statement_copy)]
fn boxed(stmt: &Stmt, alloc: Global) -> Result<Box<Stmt>, AllocError>
    ensures { IfOk result (λ copy. statement_tree copy.value ≡ statement_tree stmt.now) }
{
    Ok(Box::new(alloc, stmt.copy(alloc)?)?)
}

// A copy of each statement, in order.
#[cycle(statement_copy)]
fn copies(stmts: &[Stmt], alloc: Global) -> Result<Vec<Stmt>, AllocError>
    ensures { IfOk result (λ copies. statement_trees copies.items ≡ statement_trees stmts.now) }
{
    let mut copies = Vec::with_capacity(alloc, stmts.len())?;
    for stmt in stmts {
        copies.push(stmt.copy(alloc)?)?;
    }
    Ok(copies)
}

// A copy of each arm, in order.
#[cycle(statement_copy)]
fn arm_copies(arms: &[Arm], alloc: Global) -> Result<Vec<Arm>, AllocError>
    ensures { IfOk result (λ copies. arm_trees copies.items ≡ arm_trees arms.now) }
{
    let mut copies = Vec::with_capacity(alloc, arms.len())?;
    for arm in arms {
        copies.push(arm.copy(alloc)?)?;
    }
    Ok(copies)
}

impl Arm {
    // A second arm that is equal.
    #[cycle(statement_copy)]
    fn copy(&self, alloc: Global) -> Result<Arm, AllocError>
        ensures { IfOk result (λ copy. arm_tree copy ≡ arm_tree self.now) }
    {
        Ok(Arm {
            place: self.place,
            items: self.items.copy(alloc)?,
            body: self.body.copy(alloc)?,
        })
    }
}

impl Select {
    /// Whether it selects no bits: the target is the whole signal.
    pub(crate) fn is_whole(&self) -> bool
        ensures { result ≡ is_whole (selection_of self.now) }
    {
        matches!(self, Select::Whole)
    }
}

impl Shaped for Select {
    ghost Form = { Selection };

    ghost form = { selection_of };

    ghost shaped = { is_shaped_selection };

    fn is_shaped(&self) -> bool {
        match self {
            Select::Whole => true,
            Select::Bit(index) => index.is_shaped(),
            Select::Part(high, low) => high.is_shaped() && low.is_shaped(),
        }
    }
}

impl Shaped for Target {
    ghost Form = { TargetTree };

    ghost form = { target_tree };

    ghost shaped = { is_shaped_target };

    fn is_shaped(&self) -> bool {
        self.select.is_shaped()
    }
}

// Whether they can be the targets of an assignment.
fn are_shaped_targets(targets: &Vec<Target>) -> bool
    ensures { result ≡ are_shaped_targets (map target_tree targets.now.items) }
{
    !targets.is_empty() && targets.is_shaped()
}

/// Whether they can be the targets of an `assign`: there is one at least, and each is a whole
/// signal.
pub fn are_whole_targets(targets: &[Target]) -> bool
    ensures { result ≡ are_whole_targets (map target_tree targets.now) }
{
    !targets.is_empty() && are_whole(targets)
}

fn are_whole(targets: &[Target]) -> bool
    ensures { result ≡ list_all is_whole_target (map target_tree targets.now) }
{
    targets.iter().all(|target| target.select.is_whole())
}

impl Stmt {
    /// Whether the grammar can give the tree (IEEE 1364-2005, annex A and clause 9): each
    /// assignment has a target, and each `case` an arm and at most one default.
    #[cycle(statement_shape)]
    pub fn is_shaped(&self) -> bool
        ensures { result ≡ is_shaped_statement (statement_tree self.now) }
    {
        match self {
            Stmt::Null => true,
            Stmt::Assign { targets, value, .. } => are_shaped_targets(targets) && value.is_shaped(),
            Stmt::Block(stmts) => are_shaped_statements(stmts),
            Stmt::If {
                cond,
                yes,
                no: None,
                ..
            } => cond.is_shaped() && yes.is_shaped(),
            Stmt::If {
                cond,
                yes,
                no: Some(no),
                ..
            } => { cond.is_shaped() && yes.is_shaped() && no.is_shaped() }
            Stmt::Case { selector, arms, .. } => selector.is_shaped() && are_shaped_arms(arms),
        }
    }
}

#[cycle(statement_shape)]
fn are_shaped_statements(stmts: &[Stmt]) -> bool
    ensures { result ≡ are_shaped_statements (statements_of (statement_trees stmts.now)) }
{
    for stmt in stmts {
        if !stmt.is_shaped() {
            return false;
        }
    }
    true
}

// Whether they can be the arms of a case.
#[cycle(statement_shape)]
fn are_shaped_arms(arms: &[Arm]) -> bool
    ensures { let trees = arms_of (arm_trees arms.now) in
        result ≡ (has_arm trees && nat_le (default_count trees) 1 && are_shaped_arms trees) }
{
    if arms.is_empty() {
        return false;
    }
    have_one_default(arms) && is_each_shaped(arms)
}

#[cycle(statement_shape)]
fn is_each_shaped(arms: &[Arm]) -> bool
    ensures { result ≡ are_shaped_arms (arms_of (arm_trees arms.now)) }
{
    for arm in arms {
        if !arm.items.is_shaped() || !arm.body.is_shaped() {
            return false;
        }
    }
    true
}

// Whether at most one of them is a default.
fn have_one_default(arms: &[Arm]) -> bool
    ensures { result ≡ nat_le (default_count (arms_of (arm_trees arms.now))) 1 }
{
    let mut defaults: usize = 0;
    for arm in arms {
        if arm.items.is_empty() {
            defaults += 1;
        }
    }
    defaults <= 1
}
