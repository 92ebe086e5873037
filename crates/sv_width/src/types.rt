// Lengths and signedness.
ghost use Rattle.std.specs.Prelude.{◌≡◌, ◌≤◌, ◌&&◌, false, max};
ghost use Rattle.sv_num.specs.Vectors.{width_of, is_signed, value_of};
ghost use Rattle.sv_num.specs.BinaryValues.{class_of};
ghost use Rattle.sv_elab_rules.specs.TypedExpressions.{left_length, left_signed, right_length};
ghost use Rattle.sv_elab_rules.specs.TypedExpressions.{right_signed};
ghost use Rattle.sv_ast.specs.Values.{binary_length, binary_signed};

use sv_num::{BinOp, Bits, OpClass, class_of};

/// A length of 1 to 64 bits, and a signedness.
#[derive(Clone, Copy, Debug, PartialEq, Eq)]
pub struct BitType {
    pub width: u8,
    pub signed: bool,
    pub ghost in_range: { (1 ≤ width) × (width ≤ 64) },
}

/// One unsigned bit.
pub fn one_bit() -> BitType
    ensures width { result.width ≡ 1 }
    ensures signed { result.signed ≡ false }
{
    BitType {
        width: 1,
        signed: false,
    }
}

/// The type of a value.
pub fn type_of(bits: Bits) -> BitType
    ensures width { result.width ≡ width_of bits }
    ensures signed { result.signed ≡ is_signed bits }
{
    BitType {
        width: bits.width(),
        signed: bits.signed(),
    }
}

/// The greater length, signed where both are.
pub fn common(a: BitType, b: BitType) -> BitType
    ensures width { result.width ≡ max a.width b.width }
    ensures signed { result.signed ≡ (a.signed && b.signed) }
{
    BitType {
        width: a.width.max(b.width),
        signed: a.signed && b.signed,
    }
}

/// The own type of a binary operator's result, from those of its operands.
pub fn result_type(op: BinOp, a: BitType, b: BitType) -> BitType
    ensures width { result.width ≡ binary_length (class_of op) a.width b.width }
    ensures signed { result.signed ≡ binary_signed (class_of op) a.signed b.signed }
{
    match class_of(op) {
        OpClass::Context => common(a, b),
        OpClass::Compare | OpClass::Logical => one_bit(),
        OpClass::Shift => a,
    }
}

/// The type at which a binary operator's left operand stands, from the pushed type and both own
/// ones.
pub fn left_type(op: BinOp, pushed: BitType, a: BitType, b: BitType) -> BitType
    ensures width { result.width ≡ left_length (class_of op) pushed.width a.width b.width }
    ensures signed { result.signed ≡ left_signed (class_of op) pushed.signed a.signed b.signed }
{
    match class_of(op) {
        OpClass::Context | OpClass::Shift => pushed,
        OpClass::Compare => common(a, b),
        OpClass::Logical => a,
    }
}

/// Likewise of its right operand.
pub fn right_type(op: BinOp, pushed: BitType, a: BitType, b: BitType) -> BitType
    ensures width { result.width ≡ right_length (class_of op) pushed.width a.width b.width }
    ensures signed { result.signed ≡ right_signed (class_of op) pushed.signed a.signed b.signed }
{
    match class_of(op) {
        OpClass::Context => pushed,
        OpClass::Compare => common(a, b),
        OpClass::Logical | OpClass::Shift => b,
    }
}
