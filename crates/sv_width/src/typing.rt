// The second walk over an expression: rule 405, and the typed form, at the lengths and signedness
// that are pushed down.
ghost use Rattle.std.specs.Prelude.{◌≡◌, ℕ, ◌≤◌, max, List, Ok, IfOk, OnOk, IfErr, IsTrue};
ghost use Rattle.sv_system.specs.System.{Environment};
ghost use Rattle.sv_ast.specs.Shape.{is_shaped_expression};
ghost use Rattle.sv_ast.specs.Values.{length_of, signed_of, value as source_value};
ghost use Rattle.sv_ast.specs.Views.{expression_tree};
ghost use Rattle.sv_flat.specs.Design.{SignalForm};
ghost use Rattle.sv_flat.specs.Soundness.{well_formed};
ghost use Rattle.sv_flat.specs.Values.{value};
ghost use Rattle.sv_flat.specs.Views.{typed_tree, typed_trees, node_tree, parts_of as typed_parts};
ghost use Rattle.sv_elab_rules.specs.ExpressionSteps.{expression_walk, constant_walk};
ghost use Rattle.sv_width.specs.Agreement.{HaveSignals, HaveValues};
ghost use Rattle.sv_width.specs.Answers.{IsBreach};
ghost use Rattle.sv_width.specs.Outcomes.{IsPushed, IsNode};
ghost use Rattle.sv_width.specs.Pushed.{divisors_of, divisors_in, nodes_in};
ghost use Rattle.sv_width.specs.Scopes.{number_of, names_of, names_ahead, bindings_of};
ghost use Rattle.sv_width.specs.Settings.{names_in};
ghost use Rattle.sv_width.specs.Views.{measured_tree, measured_trees, parts_of};

use crate::folding::{at_type, folded};
use crate::lookups::{Reach, Setting};
use crate::measured::Measured;
use crate::measuring::{measured, measured_constant};
use crate::scope::Scope;
use crate::types::{BitType, left_type, right_type};
use std::alloc::Global;
use sv_ast::Expr;
use sv_flat::{FExpr, FNode};
use sv_num::{Bits, Fault, gives_one_bit, is_division};

/// The typed form of an expression for targets of so many bits in all (IEEE 1364-2005, clause
/// 5.4.1), 0 for a place that gives no length.
pub fn typed(alloc: Global, expr: &Expr, scope: &Scope, target_width: u8) -> Result<FExpr, Fault>
    requires few { target_width ≤ 64 }
    requires shaped { IsTrue (is_shaped_expression (expression_tree expr.now)) }
    ensures found { IfOk result (λ f.
        (expression_walk (names_of scope.now) (expression_tree expr.now) target_width).end ≡
        Ok (typed_tree f)) }
    ensures formed { IfOk result (λ f.
        (signals : List SignalForm) → HaveSignals (names_of scope.now) signals
        → IsTrue (well_formed signals (typed_tree f))) }
    ensures means { IfOk result (λ f.
        (signals : List SignalForm) (by_name : Environment (List ℕ)) (by_number : Environment ℕ)
        → HaveSignals (names_of scope.now) signals
        → HaveValues (names_of scope.now) by_name by_number
        → value signals by_number (typed_tree f) ≡
        source_value (bindings_of scope.now) by_name (expression_tree expr.now)
        (max (length_of (bindings_of scope.now) (expression_tree expr.now)) target_width)
        (signed_of (bindings_of scope.now) (expression_tree expr.now))) }
    ensures broken { IfErr result
        (IsBreach (expression_walk (names_of scope.now) (expression_tree expr.now)
        target_width).end) }
{
    let reach = Reach {
        scope,
        setting: Setting::Open,
    };
    let operand = measured(alloc, expr, &reach)?;
    let own = operand.own_type();
    let to = BitType {
        width: own.width.max(target_width),
        signed: own.signed,
    };
    pushed(alloc, &operand, to)
}

/// The value of a constant at its own length and signedness, in a declaration: names of later ones
/// are known as signals.
pub fn constant(alloc: Global, expr: &Expr, scope: &Scope) -> Result<Bits, Fault>
    requires { IsTrue (is_shaped_expression (expression_tree expr.now)) }
    ensures found { IfOk result (λ bits.
        (constant_walk (names_ahead scope.now) (expression_tree expr.now)).end ≡
        Ok (number_of bits)) }
    ensures broken { IfErr result
        (IsBreach (constant_walk (names_ahead scope.now) (expression_tree expr.now)).end) }
{
    constant_at(alloc, expr, scope, Setting::Declaring)
}

/// The value of a constant at its own length and signedness, where all declarations are made.
pub fn constant_in_reach(alloc: Global, expr: &Expr, scope: &Scope) -> Result<Bits, Fault>
    requires { IsTrue (is_shaped_expression (expression_tree expr.now)) }
    ensures found { IfOk result (λ bits.
        (constant_walk (names_of scope.now) (expression_tree expr.now)).end ≡ Ok (number_of bits)) }
    ensures broken { IfErr result
        (IsBreach (constant_walk (names_of scope.now) (expression_tree expr.now)).end) }
{
    constant_at(alloc, expr, scope, Setting::Constant)
}

// The value of a constant at its own length and signedness, among the names of a setting.
fn constant_at(alloc: Global, expr: &Expr, scope: &Scope, setting: Setting) -> Result<Bits, Fault>
    requires { IsTrue (is_shaped_expression (expression_tree expr.now)) }
    ensures found { IfOk result (λ bits.
        (constant_walk (names_in setting scope.now) (expression_tree expr.now)).end ≡
        Ok (number_of bits)) }
    ensures broken { IfErr result
        (IsBreach (constant_walk (names_in setting scope.now) (expression_tree expr.now)).end) }
{
    let reach = Reach { scope, setting };
    measured_constant(alloc, expr, &reach)
}

/// The typed form at a type. Rule 405 refuses the first divisor that is 0.
#[cycle(typing)]
pub fn pushed(alloc: Global, expr: &Measured, to: BitType) -> Result<FExpr, Fault>
    ensures found { IfOk result (IsPushed (measured_tree expr.now) to.width to.signed) }
    ensures broken { IfErr result
        (IsBreach (divisors_of (measured_tree expr.now) to.width to.signed).end) }
{
    Ok(FExpr {
        width: to.width,
        signed: to.signed,
        node: node(alloc, expr, to)?,
    })
}

#[tactic(auto, unfolding(crate::specs::Pushed::node_of, crate::specs::Pushed::divisors_of))]
#[cycle(typing)]
fn node(alloc: Global, expr: &Measured, to: BitType) -> Result<FNode, Fault>
    ensures found { IfOk result (IsNode (measured_tree expr.now) to.width to.signed) }
    ensures broken { IfErr result
        (IsBreach (divisors_of (measured_tree expr.now) to.width to.signed).end) }
{
    match expr {
        Measured::Number(_, bits) => Ok(FNode::Number(at_type(*bits, to).value())),
        Measured::Signal(_, signal, place) => Ok(FNode::Signal(*signal, *place)),
        Measured::Bit(_, signal, place, index) => Ok(FNode::Bit(
            *signal,
            *place,
            boxed(alloc, index, index.own_type())?,
        )),
        Measured::Part(_, signal, place, high, low) => Ok(FNode::Part(
            *signal, *place, *high, *low,
        )),
        Measured::Unary(_, op, operand) => {
            if gives_one_bit(*op) {
                Ok(FNode::Unary(*op, boxed(alloc, operand, operand.own_type())?))
            } else {
                Ok(FNode::Unary(*op, boxed(alloc, operand, to)?))
            }
        }
        Measured::Binary(_, op, _, left, right) => {
            if is_division(*op) {
                Ok(FNode::Number(folded(alloc, expr, to)?.value()))
            } else {
                let a = left.own_type();
                let b = right.own_type();
                Ok(FNode::Binary(
                    *op,
                    boxed(alloc, left, left_type(*op, to, a, b))?,
                    boxed(alloc, right, right_type(*op, to, a, b))?,
                ))
            }
        }
        Measured::Choice(_, place, cond, yes, no) => Ok(FNode::Choice(
            *place,
            boxed(alloc, cond, cond.own_type())?,
            boxed(alloc, yes, to)?,
            boxed(alloc, no, to)?,
        )),
        Measured::Join(_, parts) => Ok(FNode::Join(pushed_parts(alloc, parts)?)),
        Measured::Repeat(_, count, parts) => Ok(FNode::Repeat(
            u32::from(*count),
            pushed_parts(alloc, parts)?,
        )),
    }
}

#[cycle(typing)]
fn boxed(alloc: Global, expr: &Measured, to: BitType) -> Result<Box<FExpr>, Fault>
    ensures found { IfOk result (λ b.
        IsPushed (measured_tree expr.now) to.width to.signed b.value) }
    ensures broken { IfErr result
        (IsBreach (divisors_of (measured_tree expr.now) to.width to.signed).end) }
{
    Ok(Box::new(alloc, pushed(alloc, expr, to)?)?)
}

#[tactic(auto, unfolding(crate::specs::Pushed::nodes_in, crate::specs::Pushed::divisors_in))]
#[cycle(typing)]
fn pushed_parts(alloc: Global, parts: &[Measured]) -> Result<Vec<FExpr>, Fault>
    ensures asked { OnOk result ((divisors_in (parts_of (measured_trees parts.now))).end ≡ Ok tt) }
    ensures found { IfOk result (λ fs.
        typed_parts (typed_trees fs.items) ≡ nodes_in (parts_of (measured_trees parts.now))) }
    ensures broken { IfErr result
        (IsBreach (divisors_in (parts_of (measured_trees parts.now))).end) }
{
    let mut typed = Vec::with_capacity(alloc, parts.len())?;
    for part in parts {
        typed.push(pushed(alloc, part, part.own_type())?)?;
    }
    Ok(typed)
}
