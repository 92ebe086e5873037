// Binary operators.
ghost use Rattle.std.specs.Prelude.{◌≡◌, ◌≢◌, ◌-◌, ◌*◌, ◌/◌, ◌%◌, ◌^◌, ◌<◌, ◌+ℤ◌, ◌-ℤ◌, ◌*ℤ◌};
ghost use Rattle.std.specs.Prelude.{int_div, int_rem, int_lt, bit_and, bit_or, bit_xor};
ghost use Rattle.std.specs.Int.{int_shr};
ghost use Rattle.sv_num.specs.declared.operators.OpClass.TheVariants.{Compare, Context};
ghost use Rattle.sv_num.specs.Vectors.{width_of, is_signed, value_of, number_of, reduced};
ghost use Rattle.sv_num.specs.BinaryValues.{class_of, HaveOneType, HasDivisor, result_width};
ghost use Rattle.sv_num.specs.BinaryValues.{result_signed, binary_value};

use crate::low_bits::{inverted, low_bits, negated, shifted_right};
use crate::operators::BinOp;
use crate::vectors::Bits;

/// The value that a binary operator gives. Both operands of an operator other than a shift, `&&`
/// and `||` have one width and signedness, and a divisor is not 0.
pub fn apply_binary(op: BinOp, a: Bits, b: Bits) -> Bits
    requires types { HaveOneType (class_of op) a b }
    requires divisor { HasDivisor op b }
    ensures width { width_of result ≡ result_width (class_of op) (width_of a) }
    ensures signed { is_signed result ≡ result_signed (class_of op) (is_signed a) }
    ensures value { value_of result ≡
        binary_value op (width_of a) (is_signed a) (value_of a) (value_of b) }
{
    macro_rules! arms {
        ($($name:ident => $value:expr),* $(,)?) => {
            match op {
                $(BinOp::$name => $value,)*
            }
        };
    }
    arms!(
        Mul => a.with_value(product(a, b)),
        Div => a.with_value(quotient(a, b)),
        Rem => a.with_value(remainder(a, b)),
        Add => a.with_value(sum(a, b)),
        Sub => a.with_value(difference(a, b)),
        Shl => a.with_value(shifted_left(a, b.value())),
        Shr => a.with_value(shifted_right(a.value(), b.value())),
        SignShl => a.with_value(shifted_left(a, b.value())),
        SignShr => a.with_value(shifted_with_sign(a, b.value())),
        Lt => Bits::flag(is_less(a, b)),
        Le => Bits::flag(!is_less(b, a)),
        Gt => Bits::flag(is_less(b, a)),
        Ge => Bits::flag(!is_less(a, b)),
        Eq => Bits::flag(a.value() == b.value()),
        Ne => Bits::flag(a.value() != b.value()),
        And => a.with_value(a.value() & b.value()),
        Xor => a.with_value(a.value() ^ b.value()),
        Xnor => a.with_value(inverted(a.value() ^ b.value(), a.width())),
        Or => a.with_value(a.value() | b.value()),
        LogicAnd => Bits::flag(a.value() != 0 && b.value() != 0),
        LogicOr => Bits::flag(a.value() != 0 || b.value() != 0),
    )
}

fn product(a: Bits, b: Bits) -> u64
    requires types { HaveOneType Context a b }
    ensures value { result ≡ reduced (width_of a) (number_of a *ℤ number_of b) }
    ensures low { result < 2 ^ width_of a }
{
    low_bits(a.value().wrapping_mul(b.value()), a.width())
}

fn sum(a: Bits, b: Bits) -> u64
    requires types { HaveOneType Context a b }
    ensures value { result ≡ reduced (width_of a) (number_of a +ℤ number_of b) }
    ensures low { result < 2 ^ width_of a }
{
    low_bits(a.value().wrapping_add(b.value()), a.width())
}

fn difference(a: Bits, b: Bits) -> u64
    requires types { HaveOneType Context a b }
    ensures value { result ≡ reduced (width_of a) (number_of a -ℤ number_of b) }
    ensures low { result < 2 ^ width_of a }
{
    low_bits(a.value().wrapping_sub(b.value()), a.width())
}

fn quotient(a: Bits, b: Bits) -> u64
    requires types { HaveOneType Context a b }
    requires divisor { value_of b ≢ 0 }
    ensures value { result ≡ reduced (width_of a) (int_div (number_of a) (number_of b)) }
    ensures low { result < 2 ^ width_of a }
{
    let size = a.magnitude() / b.magnitude();
    if a.is_negative() != b.is_negative() {
        negated(size, a.width())
    } else {
        size
    }
}

fn remainder(a: Bits, b: Bits) -> u64
    requires types { HaveOneType Context a b }
    requires divisor { value_of b ≢ 0 }
    ensures value { result ≡ reduced (width_of a) (int_rem (number_of a) (number_of b)) }
    ensures low { result < 2 ^ width_of a }
{
    let size = a.magnitude() % b.magnitude();
    if a.is_negative() {
        negated(size, a.width())
    } else {
        size
    }
}

fn shifted_left(a: Bits, amount: u64) -> u64
    ensures { result ≡ value_of a * 2 ^ amount % 2 ^ width_of a }
{
    if amount < 64 {
        low_bits(a.value() << amount, a.width())
    } else {
        0
    }
}

// The bits that come in are copies of the top bit: those of a negative number are shifted while
// they are inverted.
fn shifted_with_sign(a: Bits, amount: u64) -> u64
    ensures value { result ≡ reduced (width_of a) (int_shr (number_of a) amount) }
    ensures low { result < 2 ^ width_of a }
{
    if a.is_negative() {
        let shifted = shifted_right(inverted(a.value(), a.width()), amount);
        inverted(shifted, a.width())
    } else {
        shifted_right(a.value(), amount)
    }
}

fn is_less(a: Bits, b: Bits) -> bool
    requires types { HaveOneType Compare a b }
    ensures { result ≡ int_lt (number_of a) (number_of b) }
{
    if a.is_negative() == b.is_negative() {
        a.value() < b.value()
    } else {
        a.is_negative()
    }
}
