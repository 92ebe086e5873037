// The first walk over an expression: rules 401 to 404 and 406 to 408, and every own length and
// signedness.
ghost use Rattle.std.specs.Prelude.{◌≡◌, Ok, IfOk, OnOk, IfErr, IsTrue};
ghost use Rattle.sv_ast.specs.Shape.{is_shaped_expression, are_shaped_parts, has_part};
ghost use Rattle.sv_ast.specs.Tree as tree;
ghost use Rattle.sv_ast.specs.Views.{expression_tree, expression_trees, parts_of};
ghost use Rattle.sv_elab_rules.specs.ExpressionSteps.{asked, asked_parts};
ghost use Rattle.sv_width.specs.Answers.{IsBreach};
ghost use Rattle.sv_width.specs.Measured.{measured_of};
ghost use Rattle.sv_width.specs.Outcomes.{IsMeasure, AreMeasures, IsValue, constant_steps};
ghost use Rattle.sv_width.specs.Outcomes.{index_steps, constant_index_steps};
ghost use Rattle.sv_width.specs.Scopes.{names_of};
ghost use Rattle.sv_width.specs.Settings.{reach_names, is_constant};
ghost use Rattle.sv_width.specs.Views.{measured_tree};

use crate::building::{binary, bit, choice, inside, is_below, join, part, replication, unary};
use crate::folding::folded;
use crate::lookups::{Reach, Setting, named, names_signal, refusal, selected};
use crate::measured::{Measured, value};
use crate::scope::Scope;
use std::alloc::Global;
use sv_ast::Expr;
use sv_num::{BinOp, Bits, Fault, Name, Place, Rule, UnOp};

/// The expression with each own length and signedness, where it breaks none of these rules; else
/// its first broken one.
// As many calls stand inside each other as the expression has levels, so each kind of operator has
// a function of its own, to keep the frame of this one small.
#[cycle(measuring)]
pub fn measured(alloc: Global, expr: &Expr, reach: &Reach) -> Result<Measured, Fault>
    requires { IsTrue (is_shaped_expression (expression_tree expr.now)) }
    ensures found { IfOk result
        (IsMeasure (reach_names reach.now) (is_constant reach.now.setting)
        (expression_tree expr.now)) }
    ensures broken { IfErr result
        (IsBreach (asked (reach_names reach.now) (is_constant reach.now.setting)
        (expression_tree expr.now)).end) }
{
    match expr {
        Expr::Number(number, _) => Ok(value(number.bits)),
        Expr::Name(name, place) => named(alloc, name, *place, reach.scope, reach.setting),
        Expr::Bit(name, place, index) => measured_bit(alloc, name, *place, index, reach),
        Expr::Part(name, place, high, low) => measured_part(alloc, name, *place, high, low, reach),
        Expr::Unary(op, place, operand) => measured_unary(alloc, *op, *place, operand, reach),
        Expr::Binary(op, place, left, right) => {
            measured_binary(alloc, *op, *place, left, right, reach)
        }
        Expr::Choice(place, cond, yes, no) => measured_choice(alloc, *place, cond, yes, no, reach),
        Expr::Join(place, parts) => measured_join(alloc, *place, parts, reach),
        Expr::Repeat(place, count, parts) => {
            measured_replication(alloc, *place, count, parts, reach)
        }
    }
}

#[cycle(measuring)]
#[inline(never)]
fn measured_bit(
    alloc: Global,
    name: &Name,
    place: Place,
    index: &Expr,
    reach: &Reach,
) -> Result<Measured, Fault>
    requires { IsTrue (is_shaped_expression (expression_tree index.now)) }
    ensures found { IfOk result (IsMeasure (reach_names reach.now) (is_constant reach.now.setting)
        (tree.bit_of name.now place (expression_tree index.now))) }
    ensures broken { IfErr result
        (IsBreach (asked (reach_names reach.now) (is_constant reach.now.setting)
        (tree.bit_of name.now place (expression_tree index.now))).end) }
{
    let known = selected(alloc, name, place, reach.scope, reach.setting)?;
    let index = measured_index(alloc, index, known.width, reach.scope)?;
    Ok(bit(alloc, known, place, index)?)
}

#[cycle(measuring)]
#[inline(never)]
fn measured_part(
    alloc: Global,
    name: &Name,
    place: Place,
    high: &Expr,
    low: &Expr,
    reach: &Reach,
) -> Result<Measured, Fault>
    requires high { IsTrue (is_shaped_expression (expression_tree high.now)) }
    requires low { IsTrue (is_shaped_expression (expression_tree low.now)) }
    ensures found { IfOk result (IsMeasure (reach_names reach.now) (is_constant reach.now.setting)
        (tree.part_of name.now place (expression_tree high.now) (expression_tree low.now))) }
    ensures broken { IfErr result
        (IsBreach (asked (reach_names reach.now) (is_constant reach.now.setting)
        (tree.part_of name.now place (expression_tree high.now) (expression_tree low.now))).end) }
{
    let known = selected(alloc, name, place, reach.scope, reach.setting)?;
    let high = measured_constant(alloc, high, reach)?;
    let low = measured_constant(alloc, low, reach)?;
    part(alloc, known, place, high, low)
}

#[cycle(measuring)]
#[inline(never)]
fn measured_unary(
    alloc: Global,
    op: UnOp,
    place: Place,
    operand: &Expr,
    reach: &Reach,
) -> Result<Measured, Fault>
    requires { IsTrue (is_shaped_expression (expression_tree operand.now)) }
    ensures found { IfOk result (IsMeasure (reach_names reach.now) (is_constant reach.now.setting)
        (tree.unary op place (expression_tree operand.now))) }
    ensures broken { IfErr result
        (IsBreach (asked (reach_names reach.now) (is_constant reach.now.setting)
        (tree.unary op place (expression_tree operand.now))).end) }
{
    let operand = measured(alloc, operand, reach)?;
    Ok(unary(alloc, op, operand)?)
}

#[cycle(measuring)]
#[inline(never)]
fn measured_binary(
    alloc: Global,
    op: BinOp,
    place: Place,
    left: &Expr,
    right: &Expr,
    reach: &Reach,
) -> Result<Measured, Fault>
    requires left { IsTrue (is_shaped_expression (expression_tree left.now)) }
    requires right { IsTrue (is_shaped_expression (expression_tree right.now)) }
    ensures found { IfOk result (IsMeasure (reach_names reach.now) (is_constant reach.now.setting)
        (tree.binary op place (expression_tree left.now) (expression_tree right.now))) }
    ensures broken { IfErr result
        (IsBreach (asked (reach_names reach.now) (is_constant reach.now.setting)
        (tree.binary op place (expression_tree left.now) (expression_tree right.now))).end) }
{
    let after = right.place();
    let left = measured(alloc, left, reach)?;
    let right = measured(alloc, right, reach)?;
    binary(alloc, op, place, after, left, right)
}

#[cycle(measuring)]
#[inline(never)]
fn measured_choice(
    alloc: Global,
    place: Place,
    cond: &Expr,
    yes: &Expr,
    no: &Expr,
    reach: &Reach,
) -> Result<Measured, Fault>
    requires cond { IsTrue (is_shaped_expression (expression_tree cond.now)) }
    requires yes { IsTrue (is_shaped_expression (expression_tree yes.now)) }
    requires no { IsTrue (is_shaped_expression (expression_tree no.now)) }
    ensures found { IfOk result (IsMeasure (reach_names reach.now) (is_constant reach.now.setting)
        (tree.choice place (expression_tree cond.now) (expression_tree yes.now)
        (expression_tree no.now))) }
    ensures broken { IfErr result
        (IsBreach (asked (reach_names reach.now) (is_constant reach.now.setting)
        (tree.choice place (expression_tree cond.now) (expression_tree yes.now)
        (expression_tree no.now))).end) }
{
    let cond = measured(alloc, cond, reach)?;
    let yes = measured(alloc, yes, reach)?;
    let no = measured(alloc, no, reach)?;
    Ok(choice(alloc, place, cond, yes, no)?)
}

#[cycle(measuring)]
#[inline(never)]
fn measured_join(
    alloc: Global,
    place: Place,
    parts: &[Expr],
    reach: &Reach,
) -> Result<Measured, Fault>
    requires some { IsTrue (has_part (parts_of (expression_trees parts.now))) }
    requires shaped { IsTrue (are_shaped_parts (parts_of (expression_trees parts.now))) }
    ensures found { IfOk result (IsMeasure (reach_names reach.now) (is_constant reach.now.setting)
        (tree.join place (parts_of (expression_trees parts.now)))) }
    ensures broken { IfErr result
        (IsBreach (asked (reach_names reach.now) (is_constant reach.now.setting)
        (tree.join place (parts_of (expression_trees parts.now)))).end) }
{
    let operands = measured_parts(alloc, parts, reach)?;
    join(alloc, place, parts, operands)
}

#[cycle(measuring)]
#[inline(never)]
fn measured_replication(
    alloc: Global,
    place: Place,
    count: &Expr,
    parts: &[Expr],
    reach: &Reach,
) -> Result<Measured, Fault>
    requires count { IsTrue (is_shaped_expression (expression_tree count.now)) }
    requires some { IsTrue (has_part (parts_of (expression_trees parts.now))) }
    requires shaped { IsTrue (are_shaped_parts (parts_of (expression_trees parts.now))) }
    ensures found { IfOk result (IsMeasure (reach_names reach.now) (is_constant reach.now.setting)
        (tree.replication place (expression_tree count.now)
        (parts_of (expression_trees parts.now)))) }
    ensures broken { IfErr result
        (IsBreach (asked (reach_names reach.now) (is_constant reach.now.setting)
        (tree.replication place (expression_tree count.now)
        (parts_of (expression_trees parts.now)))).end) }
{
    let at = count.place();
    let count = measured_constant(alloc, count, reach)?;
    let operands = measured_parts(alloc, parts, reach)?;
    replication(alloc, place, at, count, parts, operands)
}

/// A constant at its own length and signedness: a bound, an index or a count of an expression, or a
/// whole constant.
#[cycle(measuring)]
pub fn measured_constant(alloc: Global, expr: &Expr, reach: &Reach) -> Result<Bits, Fault>
    requires { IsTrue (is_shaped_expression (expression_tree expr.now)) }
    ensures found { IfOk result (IsValue (reach_names reach.now) (expression_tree expr.now)) }
    ensures broken { IfErr result
        (IsBreach (constant_steps (reach_names reach.now) (expression_tree expr.now)).end) }
{
    let within = Reach {
        scope: reach.scope,
        setting: inside(reach.setting),
    };
    let operand = measured(alloc, expr, &within)?;
    folded(alloc, &operand, operand.own_type())
}

// An index, which lies inside the signal where it is constant.
#[cycle(measuring)]
fn measured_index(alloc: Global, index: &Expr, width: u8, scope: &Scope) -> Result<Measured, Fault>
    requires { IsTrue (is_shaped_expression (expression_tree index.now)) }
    ensures asked { OnOk result
        ((index_steps (names_of scope.now) width (expression_tree index.now)).end ≡ Ok tt) }
    ensures found { IfOk result (λ m.
        measured_tree m ≡ measured_of (names_of scope.now) (expression_tree index.now)) }
    ensures broken { IfErr result
        (IsBreach (index_steps (names_of scope.now) width (expression_tree index.now)).end) }
{
    if names_signal(index, scope) {
        let reach = Reach {
            scope,
            setting: Setting::Open,
        };
        measured(alloc, index, &reach)
    } else {
        constant_index(alloc, index, width, scope)
    }
}

// An index that names no signal.
#[cycle(measuring)]
fn constant_index(alloc: Global, index: &Expr, width: u8, scope: &Scope) -> Result<Measured, Fault>
    requires { IsTrue (is_shaped_expression (expression_tree index.now)) }
    ensures asked { OnOk result
        ((constant_index_steps (names_of scope.now) width (expression_tree index.now)).end ≡
        Ok tt) }
    ensures found { IfOk result (λ m.
        measured_tree m ≡ measured_of (names_of scope.now) (expression_tree index.now)) }
    ensures broken { IfErr result
        (IsBreach (constant_index_steps (names_of scope.now) width
        (expression_tree index.now)).end) }
{
    let reach = Reach {
        scope,
        setting: Setting::Constant,
    };
    let operand = measured(alloc, index, &reach)?;
    let bits = folded(alloc, &operand, operand.own_type())?;
    if is_below(bits, width) {
        Ok(operand)
    } else {
        Err(refusal(alloc, Rule::BadSelect, index.place()))
    }
}

#[cycle(measuring)]
fn measured_parts(alloc: Global, exprs: &[Expr], reach: &Reach) -> Result<Vec<Measured>, Fault>
    requires { IsTrue (are_shaped_parts (parts_of (expression_trees exprs.now))) }
    ensures found { IfOk result (λ ms.
        AreMeasures (reach_names reach.now) (is_constant reach.now.setting)
        (parts_of (expression_trees exprs.now)) ms.items) }
    ensures broken { IfErr result
        (IsBreach (asked_parts (reach_names reach.now) (is_constant reach.now.setting)
        (parts_of (expression_trees exprs.now))).end) }
{
    let mut operands = Vec::with_capacity(alloc, exprs.len())?;
    for expr in exprs {
        operands.push(measured(alloc, expr, reach)?)?;
    }
    Ok(operands)
}
