// Values of constants.
ghost use Rattle.std.specs.Prelude.{◌≡◌, ◌+◌, ◌*◌, ◌%◌, ◌^◌, ◌<◌, ◌≤◌, min, Ok, IfOk, OnOk, IfErr};
ghost use Rattle.sv_num.specs.Vectors.{width_of, is_signed, value_of, as_number, reduced};
ghost use Rattle.sv_width.specs.Answers.{IsBreach};
ghost use Rattle.sv_num.specs.BinaryValues.{class_of, binary_value};
ghost use Rattle.sv_elab_rules.specs.TypedExpressions.{left_length, left_signed, right_length};
ghost use Rattle.sv_elab_rules.specs.TypedExpressions.{right_signed};
ghost use Rattle.sv_width.specs.Outcomes.{IsFolded, zero_steps};
ghost use Rattle.sv_width.specs.Pushed.{behind, behind_times, joined_width, joined_from};
ghost use Rattle.sv_width.specs.Pushed.{divisors_of, divisors_in};
ghost use Rattle.sv_width.specs.Views.{measured_tree, measured_trees, parts_of};

use crate::lookups::refusal;
use crate::measured::Measured;
use crate::types::{BitType, left_type, right_type};
use std::alloc::Global;
use sv_num::{
    BinOp, Bits, Fault, Place, Rule, apply_binary, apply_unary, extend, gives_one_bit, is_division,
};

/// The value at another length: cut, or extended as the type's signedness says.
pub fn at_type(bits: Bits, to: BitType) -> Bits
    ensures width { width_of result ≡ to.width }
    ensures signed { is_signed result ≡ to.signed }
    ensures value { value_of result ≡
        reduced to.width (as_number (width_of bits) to.signed (value_of bits)) }
{
    if to.width < bits.width() {
        Bits::of_type(to.width, to.signed, low_bits(bits.value(), to.width))
    } else {
        extend(bits, to.width, to.signed)
    }
}

// The lowest bits of a number.
fn low_bits(number: u64, width: u8) -> u64
    requires some { 1 ≤ width }
    requires few { width ≤ 64 }
    ensures { result ≡ number % 2 ^ width }
{
    number & (u64::MAX >> (64 - width))
}

/// The value of a measured expression at a type, where each signal is 0. Rule 405 refuses the first
/// divisor that is 0.
#[tactic(auto, unfolding(crate::specs::Pushed::folded_of, crate::specs::Pushed::divisors_of))]
#[cycle(folding)]
pub fn folded(alloc: Global, expr: &Measured, to: BitType) -> Result<Bits, Fault>
    ensures found { IfOk result (IsFolded (measured_tree expr.now) to.width to.signed) }
    ensures broken { IfErr result
        (IsBreach (divisors_of (measured_tree expr.now) to.width to.signed).end) }
{
    match expr {
        Measured::Number(_, bits) => Ok(at_type(*bits, to)),
        Measured::Signal(..) | Measured::Part(..) => Ok(Bits::of_type(to.width, to.signed, 0)),
        Measured::Bit(_, _, _, index) => {
            folded(alloc, index, index.own_type())?;
            Ok(Bits::of_type(to.width, to.signed, 0))
        }
        Measured::Unary(_, op, operand) => {
            if gives_one_bit(*op) {
                let bits = folded(alloc, operand, operand.own_type())?;
                Ok(Bits::of_type(to.width, to.signed, apply_unary(*op, bits).value()))
            } else {
                Ok(apply_unary(*op, folded(alloc, operand, to)?))
            }
        }
        Measured::Binary(_, op, place, left, right) => {
            let a = left.own_type();
            let b = right.own_type();
            let left_bits = folded(alloc, left, left_type(*op, to, a, b))?;
            let right_bits = folded(alloc, right, right_type(*op, to, a, b))?;
            let types = Types { to, a, b };
            binary(alloc, *op, *place, left_bits, right_bits, types)
        }
        Measured::Choice(_, _, cond, yes, no) => {
            let cond = folded(alloc, cond, cond.own_type())?;
            let yes = folded(alloc, yes, to)?;
            let no = folded(alloc, no, to)?;
            Ok(if cond.value() != 0 { yes } else { no })
        }
        Measured::Join(_, parts) => {
            let value = joined(alloc, parts, to.width)?;
            Ok(Bits::of_type(to.width, to.signed, value))
        }
        Measured::Repeat(_, count, parts) => {
            let value = joined(alloc, parts, to.width)?;
            let whole = repeated(*count, value, joined_width(parts), to.width);
            Ok(Bits::of_type(to.width, to.signed, whole))
        }
    }
}

// The types of a binary operator: the pushed one, and its operands' own ones.
#[derive(Clone, Copy, Debug, PartialEq, Eq)]
struct Types {
    to: BitType,
    a: BitType,
    b: BitType,
}

// The value of a binary operator, from its operands at the types that it gives them.
fn binary(
    alloc: Global,
    op: BinOp,
    place: Place,
    left: Bits,
    right: Bits,
    types: Types,
) -> Result<Bits, Fault>
    requires left { width_of left ≡
        left_length (class_of op) types.to.width types.a.width types.b.width }
    requires left_signed { is_signed left ≡
        left_signed (class_of op) types.to.signed types.a.signed types.b.signed }
    requires right { width_of right ≡
        right_length (class_of op) types.to.width types.a.width types.b.width }
    requires right_signed { is_signed right ≡
        right_signed (class_of op) types.to.signed types.a.signed types.b.signed }
    ensures asked { OnOk result ((zero_steps op place (value_of right)).end ≡ Ok tt) }
    ensures width { IfOk result (λ bits. width_of bits ≡ types.to.width) }
    ensures signed { IfOk result (λ bits. is_signed bits ≡ types.to.signed) }
    ensures value { IfOk result (λ bits.
        value_of bits ≡ binary_value op (width_of left) (is_signed left) (value_of left)
        (value_of right)) }
    ensures broken { IfErr result (IsBreach (zero_steps op place (value_of right)).end) }
{
    if is_division(op) && right.value() == 0 {
        return Err(refusal(alloc, Rule::ZeroDivisor, place));
    }
    let value = apply_binary(op, left, right).value();
    Ok(Bits::of_type(types.to.width, types.to.signed, value))
}

// The parts one behind the other, modulo 2 to the width.
#[tactic(auto, unfolding(crate::specs::Pushed::joined_from, crate::specs::Pushed::divisors_in))]
#[cycle(folding)]
fn joined(alloc: Global, parts: &[Measured], width: u8) -> Result<u64, Fault>
    requires some { 1 ≤ width }
    requires few { width ≤ 64 }
    ensures asked { OnOk result ((divisors_in (parts_of (measured_trees parts.now))).end ≡ Ok tt) }
    ensures value { IfOk result (λ value.
        value ≡ joined_from (parts_of (measured_trees parts.now)) width 0) }
    ensures low { IfOk result (λ value. value < 2 ^ width) }
    ensures broken { IfErr result
        (IsBreach (divisors_in (parts_of (measured_trees parts.now))).end) }
{
    let mut value: u64 = 0;
    for part in parts {
        let bits = folded(alloc, part, part.own_type())?;
        value = behind(value, bits.value(), bits.width(), width);
    }
    Ok(value)
}

// One value and behind it another one of some bits, modulo 2 to the width.
fn behind(value: u64, next: u64, next_width: u8, width: u8) -> u64
    requires some { 1 ≤ width }
    requires few { width ≤ 64 }
    ensures value { result ≡ behind width value next_width next }
    ensures low { result < 2 ^ width }
{
    let high = if next_width < 64 {
        value << next_width
    } else {
        0
    };
    low_bits(high.wrapping_add(next), width)
}

// A value of some bits written so many times, modulo 2 to the width.
fn repeated(count: u8, value: u64, value_width: u8, width: u8) -> u64
    requires some { 1 ≤ width }
    requires few { width ≤ 64 }
    ensures value { result ≡ behind_times width count value_width value }
    ensures low { result < 2 ^ width }
{
    let mut whole: u64 = 0;
    for time in 0..count {
        whole = behind(whole, value, value_width, width);
    }
    whole
}

/// The sum of the own lengths; 65 stands for every greater one.
pub fn joined_width(parts: &[Measured]) -> u8
    ensures { result ≡ min (joined_width (parts_of (measured_trees parts.now))) 65 }
{
    let mut width: u8 = 0;
    for part in parts {
        width = (width + part.own_type().width).min(65);
    }
    width
}
