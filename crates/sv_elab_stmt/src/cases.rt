// The items of a case, at the length and signedness that they have in common with its selector.
ghost use Rattle.std.specs.Prelude.{◌≡◌, ◌≤◌, ◌&&◌, ◌++◌, max, Ok, true, IfOk, IfErr, IsTrue};
ghost use Rattle.std.specs.Prelude.{MatchOption};
ghost use Rattle.std.specs.List.{list_all};
ghost use Rattle.sv_ast.specs.Shape.{is_shaped_expression, are_shaped_arms};
ghost use Rattle.sv_ast.specs.Views.{expression_tree, expression_trees, arm_trees, arms_of};
ghost use Rattle.sv_flat.specs.Views.{typed_tree, typed_trees};
ghost use Rattle.sv_elab_rules.specs.CaseChains.{arm_items};
ghost use Rattle.sv_elab_rules.specs.ExpressionSteps.{asked, divisors};
ghost use Rattle.sv_elab_rules.specs.Statements.{items_walk};
ghost use Rattle.sv_width.specs.Answers.{IsBreach};
ghost use Rattle.sv_width.specs.Operands.{own_width, own_signed, IsOperandOf, IsTypedAt};
ghost use Rattle.sv_width.specs.Scopes.{names_of};
ghost use Rattle.sv_elab_stmt.specs.Cases.{item_tree, item_trees, IsBroken, IsItem, AreItems};
ghost use Rattle.sv_elab_stmt.specs.Cases.{own_length, greatest, all_signed, item_steps, IsTypedItem};

use std::alloc::Global;
use sv_ast::{Arm, Expr};
use sv_flat::FExpr;
use sv_num::{Fault, OutOfMemory};
use sv_width::{Operand, Scope};

/// A length of 1 to 64 bits and a signedness, at which the selector and all items of a case stand.
#[derive(Clone, Copy, Debug)]
pub struct CaseType {
    pub width: u8,
    pub signed: bool,
    pub ghost in_range: { (1 ≤ width) × (width ≤ 64) },
}

/// An item of a case, with its operand unless it breaks a rule of the first walk.
#[derive(Debug, Drop)]
pub struct CaseItem<'a> {
    pub expr: &'a Expr,
    pub operand: Option<Operand>,
}

// The operand of an item, unless it breaks a rule.
fn measured(alloc: Global, expr: &Expr, scope: &Scope) -> Result<Option<Operand>, OutOfMemory>
    requires { IsTrue (is_shaped_expression (expression_tree expr.now)) }
    ensures { IfOk result (λ operand. MatchOption operand
        (IsBroken (asked (names_of scope.now) true (expression_tree expr.now)).end)
        (IsOperandOf (names_of scope.now) true (expression_tree expr.now))) }
{
    match Operand::of(alloc, expr, scope, true) {
        Ok(operand) => Ok(Some(operand)),
        Err(Fault::Rule(_)) => Ok(None),
        Err(Fault::OutOfMemory) => Err(OutOfMemory),
    }
}

// Puts the items of one arm behind those of earlier ones.
fn add_items<'a>(
    alloc: Global,
    items: &mut Vec<CaseItem<'a>>,
    exprs: &'a [Expr],
    scope: &Scope,
) -> Result<(), OutOfMemory>
    requires { IsTrue (list_all is_shaped_expression (expression_trees exprs.now)) }
    ensures added { IfOk result (λ _.
        item_trees items.new.items ≡ item_trees items.old.items ++ expression_trees exprs.now) }
    ensures each { IfOk result (λ _. AreItems (names_of scope.now) items.old.items
        → AreItems (names_of scope.now) items.new.items) }
{
    for expr in exprs {
        let operand = measured(alloc, expr, scope)?;
        items.push(CaseItem { expr, operand })?;
    }
    Ok(())
}

/// The items of all arms, in textual order.
pub fn items_of<'a>(
    alloc: Global,
    arms: &'a [Arm],
    scope: &Scope,
) -> Result<Vec<CaseItem<'a>>, OutOfMemory>
    requires { IsTrue (are_shaped_arms (arms_of (arm_trees arms.now))) }
    ensures all { IfOk result (λ items.
        item_trees items.items ≡ arm_items (arms_of (arm_trees arms.now))) }
    ensures each { IfOk result (λ items. AreItems (names_of scope.now) items.items) }
{
    let mut items = Vec::new(alloc);
    for arm in arms {
        add_items(alloc, &mut items, &arm.items, scope)?;
    }
    Ok(items)
}

impl CaseItem<'_> {
    ghost use Rattle.sv_elab_stmt.specs.Cases.{own_length, is_signed};

    // The own length of the item; 0 where it breaks a rule.
    fn width(&self) -> u8
        ensures width { result ≡ own_length self.now }
        ensures few { result ≤ 64 }
    {
        match &self.operand {
            Some(operand) => operand.width(),
            None => 0,
        }
    }

    // Whether the item is signed by itself, and also where it breaks a rule.
    fn signed(&self) -> bool
        ensures { result ≡ is_signed self.now }
    {
        match &self.operand {
            Some(operand) => operand.signed(),
            None => true,
        }
    }
}

/// The greatest of the lengths of a selector and of items, signed where all of them are.
pub fn common_type(selector: &Operand, items: &[CaseItem]) -> CaseType
    ensures width { result.width ≡ max (own_width selector.now) (greatest items.now) }
    ensures signed { result.signed ≡ (own_signed selector.now && all_signed items.now) }
{
    let mut width = selector.width();
    let mut signed = selector.signed();
    for item in items {
        width = width.max(item.width());
        signed = signed && item.signed();
    }
    CaseType { width, signed }
}

// The rule that an item breaks, which is asked again now that its turn has come: no more than one
// item of a text is.
fn broken(alloc: Global, expr: &Expr, scope: &Scope) -> Fault
    requires shaped { IsTrue (is_shaped_expression (expression_tree expr.now)) }
    requires broken { IsBroken (asked (names_of scope.now) true (expression_tree expr.now)).end }
    ensures { IsBreach (asked (names_of scope.now) true (expression_tree expr.now)).end result }
{
    match Operand::of(alloc, expr, scope, true) {
        Ok(_) => unreachable!(),
        Err(fault) => fault,
    }
}

// The typed form of an item.
fn typed_item(alloc: Global, item: &CaseItem, to: CaseType, scope: &Scope) -> Result<FExpr, Fault>
    requires shaped { IsTrue (is_shaped_expression (item_tree item.now)) }
    requires is { IsItem (names_of scope.now) item.now }
    requires wide { own_length item.now ≤ to.width }
    ensures found { IfOk result (λ f.
        IsTypedItem (names_of scope.now) to.width to.signed (item_tree item.now) (typed_tree f)) }
    ensures broken { IfErr result
        (IsBreach (item_steps (names_of scope.now) to.width to.signed (item_tree item.now)).end) }
{
    match &item.operand {
        Some(operand) => operand.typed(alloc, to.width, to.signed),
        None => Err(broken(alloc, item.expr, scope)),
    }
}

/// The typed forms of some items of an arm.
pub fn typed_items(
    alloc: Global,
    items: &[CaseItem],
    to: CaseType,
    scope: &Scope,
) -> Result<Vec<FExpr>, Fault>
    requires shaped { IsTrue (list_all is_shaped_expression (item_trees items.now)) }
    requires each { AreItems (names_of scope.now) items.now }
    requires wide { greatest items.now ≤ to.width }
    ensures found { IfOk result (λ fs.
        (items_walk (names_of scope.now) to.width to.signed (item_trees items.now)).end
        ≡ Ok (typed_trees fs.items)) }
    ensures broken { IfErr result
        (IsBreach (items_walk (names_of scope.now) to.width to.signed (item_trees items.now)).end) }
{
    let mut typed = Vec::with_capacity(alloc, items.len())?;
    for item in items {
        typed.push(typed_item(alloc, item, to, scope)?)?;
    }
    Ok(typed)
}
