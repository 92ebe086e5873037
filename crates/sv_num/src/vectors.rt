// Values of a length and signedness.
ghost use Rattle.std.specs.Prelude.{◌≡◌, ◌↔◌, ◌^◌, ◌<◌, ◌≤◌, IsSome, IfSome, unsigned_abs, false};

use crate::low_bits::{low_bits, negated};

/// A value of 1 to 64 bits, signed or unsigned. It is kept as its bits read unsigned, below 2 to
/// the width.
#[derive(Clone, Copy, Debug, PartialEq, Eq)]
pub struct Bits {
    width: u8,
    signed: bool,
    value: u64,
    pub ghost in_range: { (1 ≤ width) × (width ≤ 64) × (value < 2 ^ width) },
}

impl Bits {
    ghost use Rattle.sv_num.specs.Vectors.{width_of, is_signed, value_of, is_negative, number_of};
    ghost use Rattle.sv_num.specs.Vectors.{truth};

    /// The value of a width, signed or unsigned. None unless the width is 1 to 64 and the value is
    /// below 2 to the width.
    pub fn new(width: u8, signed: bool, value: u64) -> Option<Bits>
        ensures fits { IsSome result ↔ ((1 ≤ width) × (width ≤ 64) × (value < 2 ^ width)) }
        ensures width { IfSome result (λ bits. width_of bits ≡ width) }
        ensures signed { IfSome result (λ bits. is_signed bits ≡ signed) }
        ensures value { IfSome result (λ bits. value_of bits ≡ value) }
    {
        if width == 0 || width > 64 || low_bits(value, width) != value {
            return None;
        }
        Some(Bits {
            width,
            signed,
            value,
        })
    }

    /// How many bits there are.
    pub fn width(&self) -> u8
        ensures width { result ≡ width_of self.now }
        ensures range { (1 ≤ result) × (result ≤ 64) }
    {
        self.width
    }

    /// Whether the type is signed.
    pub fn signed(&self) -> bool
        ensures { result ≡ is_signed self.now }
    {
        self.signed
    }

    /// The value, read unsigned.
    pub fn value(&self) -> u64
        ensures value { result ≡ value_of self.now }
        ensures range { result < 2 ^ width_of self.now }
    {
        self.value
    }

    /// The value of a width, signed or unsigned, where the caller knows that it fits.
    pub fn of_type(width: u8, signed: bool, value: u64) -> Bits
        requires some { 1 ≤ width }
        requires few { width ≤ 64 }
        requires low { value < 2 ^ width }
        ensures width { width_of result ≡ width }
        ensures signed { is_signed result ≡ signed }
        ensures value { value_of result ≡ value }
    {
        Bits {
            width,
            signed,
            value,
        }
    }

    /// Another value of this type.
    pub(crate) fn with_value(self, value: u64) -> Bits
        requires { value < 2 ^ width_of self }
        ensures width { width_of result ≡ width_of self }
        ensures signed { is_signed result ≡ is_signed self }
        ensures value { value_of result ≡ value }
    {
        Bits::of_type(self.width, self.signed, value)
    }

    /// One unsigned bit.
    pub(crate) fn flag(test: bool) -> Bits
        ensures width { width_of result ≡ 1 }
        ensures signed { is_signed result ≡ false }
        ensures value { value_of result ≡ truth test }
    {
        Bits::of_type(1, false, test as u64)
    }

    /// Whether the number is below 0.
    pub(crate) fn is_negative(self) -> bool
        ensures { result ≡ is_negative (width_of self) (is_signed self) (value_of self) }
    {
        self.signed && self.value >> (self.width - 1) == 1
    }

    /// The magnitude of the number.
    pub(crate) fn magnitude(self) -> u64
        ensures size { result ≡ unsigned_abs (number_of self) }
        ensures range { result < 2 ^ width_of self }
    {
        if self.is_negative() {
            negated(self.value, self.width)
        } else {
            self.value
        }
    }
}
