// How many gates operators take, by the lengths of their operands.
ghost use Rattle.std.specs.Prelude.{◌≡◌, ◌+◌, ◌^◌, min};
ghost use Rattle.sv_circuits.specs.Operators.{number_count};
ghost use Rattle.sv_encoding.specs.Sizes.{chain_size, gate_chain_size, sum_size, product_size};
ghost use Rattle.sv_encoding.specs.Sizes.{less_size, picked_size, unary_size, binary_size};
ghost use Rattle.sv_encoding.specs.Sizes.{operand_size};
ghost use Rattle.sv_num.specs.BinaryValues.{class_of};

use sv_gates::MOST_VARIABLES;
use sv_num::{BinOp, OpClass, UnOp, class_of};

/// The sum of two sizes, up to one over the most variables.
pub fn sum(first: u32, second: u32) -> u32
    ensures { result ≡ min (first + second) 4194305 }
{
    first.saturating_add(second).min(MOST_VARIABLES + 1)
}

/// The gates of a chain of so many members.
pub fn chain_size(members: u32) -> u32
    ensures { result ≡ chain_size members }
{
    members.saturating_sub(1)
}

/// Those of a chain whose members are a gate each, up to one over the most variables.
pub fn gate_chain_size(members: u32) -> u32
    ensures { result ≡ min (gate_chain_size members) 4194305 }
{
    sum(members, chain_size(members))
}

fn sum_size(width: u8) -> u32
    ensures { result ≡ sum_size width }
{
    5 * u32::from(width)
}

fn product_size(width: u8) -> u32
    ensures { result ≡ product_size width }
{
    let bits = u32::from(width);
    bits * (bits + 1) / 2 + chain_size(bits) * sum_size(width)
}

fn less_size(width: u8) -> u32
    ensures { result ≡ less_size width }
{
    2 * u32::from(width)
}

/// The gates of a unary operator.
pub fn unary_size(op: UnOp, width: u8) -> u32
    ensures { result ≡ unary_size op width }
{
    match op {
        UnOp::Plus | UnOp::Invert => 0,
        UnOp::Minus => sum_size(width),
        UnOp::LogicNot => chain_size(u32::from(width)),
        UnOp::And | UnOp::Nand | UnOp::Or | UnOp::Nor | UnOp::Xor | UnOp::Xnor => {
            chain_size(u32::from(width))
        }
    }
}

/// The gates of a binary operator, by the lengths of its left and right operands.
pub fn binary_size(op: BinOp, left: u8, right: u8) -> u32
    ensures { result ≡ min (binary_size op left right) 4194305 }
{
    match op {
        BinOp::Mul => product_size(left),
        BinOp::Div | BinOp::Rem => 0,
        BinOp::Add | BinOp::Sub => sum_size(left),
        BinOp::Shl | BinOp::Shr | BinOp::SignShl | BinOp::SignShr => {
            u32::from(left) * u32::from(right)
        }
        BinOp::Lt | BinOp::Le | BinOp::Gt | BinOp::Ge => less_size(left),
        BinOp::Eq | BinOp::Ne => gate_chain_size(u32::from(left)),
        BinOp::And | BinOp::Xor | BinOp::Xnor | BinOp::Or => u32::from(left),
        BinOp::LogicAnd | BinOp::LogicOr => 1,
    }
}

/// The gates that tell whether an operand of a binary operator is not 0, where the operator asks.
pub fn operand_size(op: BinOp, width: u8) -> u32
    ensures { result ≡ operand_size (class_of op) width }
{
    match class_of(op) {
        OpClass::Logical => chain_size(u32::from(width)),
        OpClass::Context | OpClass::Compare | OpClass::Shift => 0,
    }
}

// A power of 2, or the most where it is more.
fn power_within(bits: u8, most: u8) -> u32
    ensures { result ≡ min most (2 ^ bits) }
{
    if bits < 8 {
        u32::from(most).min(1 << bits)
    } else {
        u32::from(most)
    }
}

// How many bits of a word an index can reach.
fn reached(width: u8, index_width: u8, index_signed: bool) -> u32
    ensures { result ≡ min width (number_count index_width index_signed) }
{
    if index_signed {
        power_within(index_width.saturating_sub(1), width)
    } else {
        power_within(index_width, width)
    }
}

/// The gates of a bit of a word by an index, by their lengths and the signedness of the index.
pub fn picked_size(width: u8, index_width: u8, index_signed: bool) -> u32
    ensures { result ≡ picked_size width index_width index_signed }
{
    reached(width, index_width, index_signed) * (chain_size(u32::from(index_width)) + 1)
}
