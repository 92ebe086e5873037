// Wider values, parts of values and joins.
ghost use Rattle.std.specs.Prelude.{◌≡◌, ◌+◌, ◌-◌, ◌*◌, ◌/◌, ◌%◌, ◌^◌, ◌<◌, ◌≤◌, false};
ghost use Rattle.sv_num.specs.Vectors.{width_of, is_signed, value_of, as_number, number_of};
ghost use Rattle.sv_num.specs.Vectors.{reduced};

use crate::low_bits::{inverted, low_bits};
use crate::vectors::Bits;

/// The value in a wider type: the new bits are copies of the highest bit where the new type is
/// signed, and else 0.
pub fn extend(a: Bits, width: u8, signed: bool) -> Bits
    requires wider { width_of a ≤ width }
    requires few { width ≤ 64 }
    ensures width { width_of result ≡ width }
    ensures signed { is_signed result ≡ signed }
    ensures value { value_of result ≡ reduced width (as_number (width_of a) signed (value_of a)) }
{
    let read = Bits::of_type(a.width(), signed, a.value());
    Bits::of_type(width, signed, widened(read, width))
}

// The bits of a number at a greater width. Those of a negative number are read while they are
// inverted.
fn widened(a: Bits, width: u8) -> u64
    requires wider { width_of a ≤ width }
    requires few { width ≤ 64 }
    ensures value { result ≡ reduced width (number_of a) }
    ensures low { result < 2 ^ width }
{
    if a.is_negative() {
        inverted(inverted(a.value(), a.width()), width)
    } else {
        a.value()
    }
}

/// The bits from `low` to `high`, both counted from 0 and both in it, unsigned.
pub fn slice(a: Bits, high: u8, low: u8) -> Bits
    requires order { low ≤ high }
    requires inside { high < width_of a }
    ensures width { width_of result ≡ high - low + 1 }
    ensures signed { is_signed result ≡ false }
    ensures value { value_of result ≡ value_of a / 2 ^ low % 2 ^ (high - low + 1) }
{
    let width = high - low + 1;
    Bits::of_type(width, false, low_bits(a.value() >> low, width))
}

/// The bits of `a` above those of `b`, unsigned.
pub fn concat(a: Bits, b: Bits) -> Bits
    requires { width_of a + width_of b ≤ 64 }
    ensures width { width_of result ≡ width_of a + width_of b }
    ensures signed { is_signed result ≡ false }
    ensures value { value_of result ≡ value_of a * 2 ^ width_of b + value_of b }
{
    let high = a.value() << b.width();
    Bits::of_type(a.width() + b.width(), false, high + b.value())
}
