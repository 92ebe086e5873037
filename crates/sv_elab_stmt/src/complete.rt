// Whether the items of a case leave no value of its selector out.
ghost use Rattle.std.specs.Prelude.{◌≡◌, ◌≤◌, ◌<◌, ◌^◌, ◌==◌, ◌&&◌, ◌||◌, ℕ, false, nat_le, length};
ghost use Rattle.std.specs.Prelude.{slice_index_or, List, OnOk, IfOk, IfErr, MatchOption};
ghost use Rattle.std.specs.List.{list_all};
ghost use Rattle.sv_num.specs.Parts.{extended};
ghost use Rattle.sv_num.specs.declared.faults.Fault.TheVariants.{OutOfMemory};
ghost use Rattle.sv_ast.specs.Values.{nowhere, length_of, value};
ghost use Rattle.sv_ast.specs.Views.{expression_tree};
ghost use Rattle.sv_elab_rules.specs.Names.{Names};
ghost use Rattle.sv_elab_rules.specs.CaseChains.{keeps_length, cover, is_complete};
ghost use Rattle.sv_elab_stmt.specs.Cases.{item_tree, item_trees, IsItem, AreItems, own_length};
ghost use Rattle.sv_elab_stmt.specs.Cases.{greatest, IsPassed, ArePassed, values_of, AreHeld};

use crate::cases::{CaseItem, CaseType};
use std::alloc::Global;
use sv_ast::Expr;
use sv_num::{BinOp, Bits, Fault, UnOp, extend};

// The most bits of a selector whose values are counted.
const MOST_BITS: u8 = 8;

// Whether an expression has only the values of its own bits, also at a greater length: no carry can
// pass them.
#[tactic(auto, unfolding(sv_elab_rules::specs::CaseChains::keeps_length))]
fn keeps_length(signed: bool, expr: &Expr) -> bool
    ensures { result ≡ keeps_length signed (expression_tree expr.now) }
{
    match expr {
        Expr::Number(..) | Expr::Name(..) | Expr::Bit(..) | Expr::Part(..) => true,
        Expr::Unary(op, _, operand) => match op {
            UnOp::Plus => keeps_length(signed, operand),
            UnOp::Minus | UnOp::Invert => false,
            UnOp::LogicNot => true,
            UnOp::And | UnOp::Nand | UnOp::Or | UnOp::Nor | UnOp::Xor | UnOp::Xnor => true,
        },
        Expr::Binary(op, _, left, right) => match op {
            BinOp::Mul | BinOp::Div | BinOp::Rem | BinOp::Add | BinOp::Sub => false,
            BinOp::Shl | BinOp::SignShl => false,
            BinOp::Shr | BinOp::SignShr => !signed && keeps_length(signed, left),
            BinOp::Lt | BinOp::Le | BinOp::Gt | BinOp::Ge | BinOp::Eq | BinOp::Ne => true,
            BinOp::And | BinOp::Xor | BinOp::Or => {
                keeps_length(signed, left) && keeps_length(signed, right)
            }
            BinOp::Xnor => false,
            BinOp::LogicAnd | BinOp::LogicOr => true,
        },
        Expr::Choice(_, _, yes, no) => keeps_length(signed, yes) && keeps_length(signed, no),
        Expr::Join(..) | Expr::Repeat(..) => true,
    }
}

// The value of so many bits that stands for a value at the type of the case, if one does.
fn held_value(own: u8, value: u64, to: CaseType) -> Option<usize>
    requires some { 1 ≤ own }
    requires few { own ≤ 8 }
    requires fits { own ≤ to.width }
    ensures { MatchOption result
        ((v : ℕ) → v < 2 ^ own → (value == extended to.signed own to.width v) ≡ false)
        (λ v. (v < 2 ^ own) × (extended to.signed own to.width v ≡ value)) }
{
    let low = value % (1 << own);
    let extended = extend(Bits::of_type(own, to.signed, low), to.width, to.signed);
    if extended.value() == value {
        Some(low as usize)
    } else {
        None
    }
}

// Marks the value of so many bits that stands for a value, if one does.
fn mark(held: &mut Vec<bool>, own: u8, value: u64, to: CaseType)
    requires size { length held.old.items ≡ 2 ^ own }
    requires some { 1 ≤ own }
    requires few { own ≤ 8 }
    requires fits { own ≤ to.width }
    ensures size { length held.new.items ≡ length held.old.items }
    ensures held { (v : ℕ) → v < 2 ^ own → slice_index_or held.new.items v false
        ≡ (slice_index_or held.old.items v false || (value == extended to.signed own to.width v)) }
{
    if let Some(place) = held_value(own, value, to) {
        held[place] = true;
    }
}

// Marks the value that an item has.
fn mark_item(
    alloc: Global,
    held: &mut Vec<bool>,
    own: u8,
    item: &CaseItem,
    to: CaseType,
) -> Result<(), Fault>
    requires size { length held.old.items ≡ 2 ^ own }
    requires some { 1 ≤ own }
    requires few { own ≤ 8 }
    requires fits { own ≤ to.width }
    requires wide { own_length item.now ≤ to.width }
    ensures size { OnOk result (length held.new.items ≡ length held.old.items) }
    ensures held { OnOk result ((names : Names) → IsItem names item.now
        → IsPassed names to.width to.signed (item_tree item.now) → (v : ℕ) → v < 2 ^ own
        → slice_index_or held.new.items v false ≡ (slice_index_or held.old.items v false
        || (value names.scope nowhere (item_tree item.now) to.width to.signed
        == extended to.signed own to.width v))) }
    ensures memory { IfErr result (λ fault. (names : Names) → IsItem names item.now
        → IsPassed names to.width to.signed (item_tree item.now) → fault ≡ OutOfMemory) }
{
    match &item.operand {
        None => Ok(()),
        Some(operand) => {
            let bits = operand.value(alloc, to.width, to.signed)?;
            mark(held, own, bits.value(), to);
            Ok(())
        }
    }
}

// For each value of so many bits, whether an item has it.
fn held_values(alloc: Global, own: u8, items: &[CaseItem], to: CaseType) -> Result<Vec<bool>, Fault>
    requires some { 1 ≤ own }
    requires few { own ≤ 8 }
    requires fits { own ≤ to.width }
    requires wide { greatest items.now ≤ to.width }
    ensures found { IfOk result (λ held. (names : Names) → AreItems names items.now
        → ArePassed names to.width to.signed (item_trees items.now)
        → AreHeld own to.width to.signed
        (values_of names to.width to.signed (item_trees items.now)) held.items) }
    ensures memory { IfErr result (λ fault. (names : Names) → AreItems names items.now
        → ArePassed names to.width to.signed (item_trees items.now) → fault ≡ OutOfMemory) }
{
    let mut held = vec![in alloc; false; 1 << own]?;
    for item in items {
        mark_item(alloc, &mut held, own, item, to)?;
    }
    Ok(held)
}

// Whether each value is held.
fn are_all(held: &[bool]) -> bool
    ensures { result ≡ list_all (λ has. has) held.now }
{
    held.iter().all(|has| *has)
}

// Whether a selector of so many bits has the values of at most 8 bits, also at the type of its
// case.
fn has_few_values(selector: &Expr, own: u8, to: CaseType) -> bool
    ensures { result ≡ (nat_le own 8
        && (nat_le to.width own || keeps_length to.signed (expression_tree selector.now))) }
{
    own <= MOST_BITS && (to.width <= own || keeps_length(to.signed, selector))
}

/// Whether the items of a case, which break no rule, leave no value of its selector of so many bits
/// out: it has few, and they hold each of them.
pub fn is_complete(
    alloc: Global,
    selector: &Expr,
    own: u8,
    items: &[CaseItem],
    to: CaseType,
) -> Result<bool, Fault>
    requires some { 1 ≤ own }
    requires fits { own ≤ to.width }
    requires wide { greatest items.now ≤ to.width }
    ensures found { IfOk result (λ complete. (names : Names) → AreItems names items.now
        → ArePassed names to.width to.signed (item_trees items.now)
        → length_of names.scope (expression_tree selector.now) ≡ own
        → complete ≡ is_complete names.scope (expression_tree selector.now) (item_trees items.now)
        to.width to.signed) }
    ensures memory { IfErr result (λ fault. (names : Names) → AreItems names items.now
        → ArePassed names to.width to.signed (item_trees items.now) → fault ≡ OutOfMemory) }
{
    if !has_few_values(selector, own, to) {
        return Ok(false);
    }
    let held = held_values(alloc, own, items, to)?;
    Ok(are_all(&held))
}
