// Bits of values, at the width of any signal.
ghost use Rattle.std.specs.Prelude.{◌≡◌, ◌+◌, ◌-◌, ◌*◌, ◌/◌, ◌%◌, ◌^◌, ◌<◌, ◌≤◌};
ghost use Rattle.sv_num.specs.Vectors.{as_number, is_negative};
ghost use Rattle.sv_num.specs.Parts.{extended, bits_between, bit_or_zero, replaced_bits, repeated};

use sv_num::{Bits, extend};

/// A value shifted down; 0 where the amount is 64 or more.
pub fn shifted(value: u64, amount: u64) -> u64
    ensures { result ≡ value / 2 ^ amount }
{
    if amount < 64 { value >> amount } else { 0 }
}

/// The lowest bits of a value.
pub fn low_bits(value: u64, width: u8) -> u64
    ensures { result ≡ value % 2 ^ width }
{
    if width < 64 {
        value & ((1 << width) - 1)
    } else {
        value
    }
}

/// The bits of a value from `high` down to `low`.
pub fn bits_between(value: u64, high: u8, low: u8) -> u64
    requires order { low ≤ high }
    requires few { high + 1 - low ≤ 64 }
    ensures { result ≡ bits_between high low value }
{
    low_bits(shifted(value, u64::from(low)), high - low + 1)
}

// Whether a value of a length and signedness is below 0.
fn is_negative(value: u64, length: u8, signed: bool) -> bool
    requires some { 1 ≤ length }
    requires few { length ≤ 64 }
    requires low { value < 2 ^ length }
    ensures { result ≡ is_negative length signed value }
{
    signed && value >> (length - 1) == 1
}

/// The bit of a value of some width that an index of a length and signedness names, and 0 outside
/// of it.
pub fn bit_by_index(value: u64, width: u8, index: u64, length: u8, signed: bool) -> u64
    requires some { 1 ≤ length }
    requires few { length ≤ 64 }
    requires low { index < 2 ^ length }
    ensures value { result ≡ bit_or_zero width value (as_number length signed index) }
    ensures range { result < 2 }
{
    if is_negative(index, length, signed) || index >= u64::from(width) {
        0
    } else {
        shifted(value, index) & 1
    }
}

/// A value of some width in which the bits from `high` down to `low` are the low bits of a piece.
pub fn replaced_bits(value: u64, width: u8, high: u8, low: u8, piece: u64) -> u64
    requires order { low ≤ high }
    requires inside { high < width }
    requires few { width ≤ 64 }
    ensures value { result ≡ replaced_bits width high low value piece }
    ensures range { result < 2 ^ width }
{
    let above = shifted(low_bits(value, width), u64::from(high + 1));
    beside(above, lower_bits(value, high, low, piece), high + 1)
}

// The bits of a value up to `high`, of which those from `low` up are the low bits of a piece.
fn lower_bits(value: u64, high: u8, low: u8, piece: u64) -> u64
    requires order { low ≤ high }
    requires inside { high < 64 }
    ensures { result ≡ piece % 2 ^ (high - low + 1) * 2 ^ low + value % 2 ^ low }
{
    beside(low_bits(piece, high - low + 1), low_bits(value, low), low)
}

/// A value, given after its width, at another, no smaller one: the new bits are copies of the
/// highest bit where the type is signed, and else 0.
pub fn extended(read: (u8, u64), to: u8, signed: bool) -> u64
    requires wider { read.0 ≤ to }
    requires few { to ≤ 64 }
    requires low { read.1 < 2 ^ read.0 }
    ensures value { result ≡ extended signed read.0 to read.1 }
    ensures range { result < 2 ^ to }
{
    let (from, value) = read;
    if from == 0 || !signed {
        return value;
    }
    extend(Bits::of_type(from, true, value), to, true).value()
}

/// One value above another of some width.
pub fn beside(high: u64, low: u64, width: u8) -> u64
    requires { high * 2 ^ width + low < 2 ^ 64 }
    ensures { result ≡ high * 2 ^ width + low }
{
    if width < 64 {
        (high << width) + low
    } else {
        low
    }
}

/// A value, given after its width, so many times one beside the other.
pub fn repeated(count: u32, part: (u8, u64)) -> u64
    requires few { count * part.0 ≤ 64 }
    requires low { part.1 < 2 ^ part.0 }
    ensures value { result ≡ repeated count part.0 part.1 }
    ensures range { result < 2 ^ (count * part.0) }
{
    let (width, value) = part;
    let mut all = 0;
    for _ in 0..count {
        all = beside(all, value, width);
    }
    all
}
