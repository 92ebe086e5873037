// Unary operators.
ghost use Rattle.std.specs.Prelude.{◌≡◌, ◌-◌, ◌%◌, ◌^◌, ◌<◌, Bool, false, if◌then◌else◌, ◌==◌};
ghost use Rattle.sv_num.specs.Vectors.{width_of, is_signed, value_of, is_true};
ghost use Rattle.sv_num.specs.UnaryValues.{gives_one_bit, unary_value};

use crate::low_bits::{inverted, low_bits, negated};
use crate::operators::UnOp;
use crate::vectors::Bits;

/// The value that a unary operator gives. `!` and the reductions give one unsigned bit, the
/// other operators a value of the operand's type.
pub fn apply_unary(op: UnOp, a: Bits) -> Bits
    ensures width { width_of result ≡ (if gives_one_bit op then 1 else width_of a) }
    ensures signed { is_signed result ≡ (if gives_one_bit op then false else is_signed a) }
    ensures value { value_of result ≡ unary_value op (width_of a) (is_signed a) (value_of a) }
{
    match op {
        UnOp::Plus => a,
        UnOp::Minus => a.with_value(negated(a.value(), a.width())),
        UnOp::LogicNot => Bits::flag(a.value() == 0),
        UnOp::Invert => a.with_value(inverted(a.value(), a.width())),
        UnOp::And => Bits::flag(has_all_bits(a)),
        UnOp::Nand => Bits::flag(!has_all_bits(a)),
        UnOp::Or => Bits::flag(a.value() != 0),
        UnOp::Nor => Bits::flag(a.value() == 0),
        UnOp::Xor => Bits::flag(a.value().count_ones() % 2 == 1),
        UnOp::Xnor => Bits::flag(a.value().count_ones() % 2 == 0),
    }
}

fn has_all_bits(a: Bits) -> bool
    ensures { result ≡ (value_of a == 2 ^ width_of a - 1) }
{
    a.value() == low_bits(u64::MAX, a.width())
}
