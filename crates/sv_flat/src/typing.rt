// The forms that typed expressions have: lengths and signedness as IEEE 1364-2005, clauses 5.4
// and 5.5, give them.
ghost use Rattle.std.specs.Prelude.{◌≡◌, ◌*◌, ◌^◌, ◌<◌, ◌≤◌, ◌&&◌, nat_le, nat_lt, length};
ghost use Rattle.std.specs.Prelude.{MatchOption};
ghost use Rattle.sv_flat.specs.ByNumber.{signal_forms};
ghost use Rattle.sv_flat.specs.Soundness.{is_one_to, is_signal, is_part_of, has_type, unary_typed};
ghost use Rattle.sv_flat.specs.Soundness.{binary_typed};
ghost use Rattle.sv_flat.specs.Soundness.{well_formed, node_well_formed, parts_well_formed};
ghost use Rattle.sv_flat.specs.Values.{parts_width, signal_width};
ghost use Rattle.sv_flat.specs.Views.{typed_tree, typed_trees, node_tree, parts_of};

use crate::bits::low_bits;
use crate::expressions::{FExpr, FNode};
use crate::signals::{SigId, Signal};
use crate::values::width_of_signal;
use sv_num::{OpClass, UnOp, class_of, gives_one_bit, is_division};

/// Whether the expression has a value: every length is 1 to 64, every operand has the length and
/// signedness that its operator gives it, every signal is one of these, every part lies inside its
/// signal, every number, name, select and concatenation has room in its length, every count is 1 to
/// 64, and nothing is divided.
// The calls go as deep as the tree.
#[cycle(expression_typing)]
pub fn well_formed(expr: &FExpr, signals: &[Signal]) -> bool
    ensures { result ≡ well_formed (signal_forms signals.now) (typed_tree expr.now) }
{
    1 <= expr.width
        && expr.width <= 64
        && node_well_formed(&expr.node, expr.width, expr.signed, signals)
}

#[cycle(expression_typing)]
fn node_well_formed(node: &FNode, width: u8, signed: bool, signals: &[Signal]) -> bool
    requires some { 1 ≤ width }
    requires few { width ≤ 64 }
    ensures { result ≡ node_well_formed (signal_forms signals.now) width signed
        (node_tree node.now) }
{
    match node {
        FNode::Number(number) => fits(*number, width),
        FNode::Signal(signal, _) => reads_within(*signal, width, signals),
        FNode::Bit(signal, _, index) => is_signal(*signal, signals) && well_formed(index, signals),
        FNode::Part(signal, _, high, low) => reads_part(*signal, width, *high, *low, signals),
        FNode::Unary(op, operand) => {
            unary_typed(*op, width, signed, operand) && well_formed(operand, signals)
        }
        FNode::Binary(op, left, right) => {
            !is_division(*op)
                && binary_typed(class_of(*op), width, signed, left, right)
                && well_formed(left, signals)
                && well_formed(right, signals)
        }
        FNode::Choice(_, cond, yes, no) => {
            has_type(yes, width, signed)
                && has_type(no, width, signed)
                && well_formed(cond, signals)
                && well_formed(yes, signals)
                && well_formed(no, signals)
        }
        FNode::Join(parts) => join_well_formed(parts, width, signals),
        FNode::Repeat(count, parts) => copies_well_formed(*count, parts, width, signals),
        FNode::Held(signal, held) => {
            reads_within(*signal, width, signals) && well_formed(held, signals)
        }
        FNode::HeldBit(signal, _, held, index) => {
            is_signal(*signal, signals) && well_formed(held, signals) && well_formed(index, signals)
        }
        FNode::HeldPart(signal, _, held, high, low) => {
            reads_part(*signal, width, *high, *low, signals) && well_formed(held, signals)
        }
        FNode::Mend(signal, old, high, low, piece) => {
            reads_within(*signal, width, signals)
                && is_part_of(width_of_signal(*signal, signals), piece.width, *high, *low)
                && well_formed(old, signals)
                && well_formed(piece, signals)
        }
        FNode::Slice(whole, high, low) => {
            is_part_of(whole.width, width, *high, *low) && well_formed(whole, signals)
        }
    }
}

#[cycle(expression_typing)]
fn join_well_formed(parts: &[FExpr], width: u8, signals: &[Signal]) -> bool
    ensures { let trees = parts_of (typed_trees parts.now) in
        result ≡ (nat_le (parts_width trees) width
        && parts_well_formed (signal_forms signals.now) trees) }
{
    is_join_within(parts, width) && parts_well_formed(parts, signals)
}

#[cycle(expression_typing)]
fn copies_well_formed(count: u32, parts: &[FExpr], width: u8, signals: &[Signal]) -> bool
    ensures { let trees = parts_of (typed_trees parts.now) in
        result ≡ (is_one_to 64 count && nat_le (count * parts_width trees) width
        && parts_well_formed (signal_forms signals.now) trees) }
{
    are_copies_within(count, parts, width) && parts_well_formed(parts, signals)
}

// Whether each part of a join or replication is well formed.
#[cycle(expression_typing)]
fn parts_well_formed(parts: &[FExpr], signals: &[Signal]) -> bool
    ensures { result ≡ parts_well_formed (signal_forms signals.now)
        (parts_of (typed_trees parts.now)) }
{
    for part in parts {
        if !well_formed(part, signals) {
            return false;
        }
    }
    true
}

fn fits(number: u64, width: u8) -> bool
    ensures { result ≡ nat_lt number (2 ^ width) }
{
    low_bits(number, width) == number
}

/// Whether the number is that of one of the signals.
pub fn is_signal(signal: SigId, signals: &[Signal]) -> bool
    ensures { result ≡ is_signal (signal_forms signals.now) signal.0 }
{
    (signal.0 as usize) < signals.len()
}

// Whether it is the number of a signal that is no wider than the node.
fn reads_within(signal: SigId, width: u8, signals: &[Signal]) -> bool
    ensures { let forms = signal_forms signals.now in
        result ≡ (is_signal forms signal.0 && nat_le (signal_width forms signal.0) width) }
{
    is_signal(signal, signals) && width_of_signal(signal, signals) <= width
}

// Whether it is the number of a signal that has these bits, and the node has room for them.
fn reads_part(signal: SigId, width: u8, high: u8, low: u8, signals: &[Signal]) -> bool
    ensures { let forms = signal_forms signals.now in
        result ≡ (is_signal forms signal.0
        && is_part_of (signal_width forms signal.0) width high low) }
{
    is_signal(signal, signals) && is_part_of(width_of_signal(signal, signals), width, high, low)
}

/// Whether the bits from `high` down to `low` lie in a value of `length` bits and are at most as
/// many as the width.
pub fn is_part_of(length: u8, width: u8, high: u8, low: u8) -> bool
    ensures { result ≡ is_part_of length width high low }
{
    low <= high && high < length && high + 1 - low <= width
}

fn has_type(expr: &FExpr, width: u8, signed: bool) -> bool
    ensures { result ≡ has_type width signed (typed_tree expr.now) }
{
    expr.width == width && expr.signed == signed
}

fn unary_typed(op: UnOp, width: u8, signed: bool, operand: &FExpr) -> bool
    ensures { result ≡ unary_typed op width signed (typed_tree operand.now) }
{
    gives_one_bit(op) || has_type(operand, width, signed)
}

fn binary_typed(class: OpClass, width: u8, signed: bool, left: &FExpr, right: &FExpr) -> bool
    ensures { result ≡ binary_typed class width signed (typed_tree left.now)
        (typed_tree right.now) }
{
    match class {
        OpClass::Context => has_type(left, width, signed) && has_type(right, width, signed),
        OpClass::Compare => has_type(right, left.width, left.signed),
        OpClass::Logical => true,
        OpClass::Shift => has_type(left, width, signed),
    }
}

// The width of a concatenation, where it is no more than so many bits.
fn width_within(parts: &[FExpr], most: u8) -> Option<u8>
    ensures { let all = parts_width (parts_of (typed_trees parts.now)) in
        MatchOption result (most < all) (λ width. (width ≡ all) × (width ≤ most)) }
{
    let mut width = 0;
    for part in parts {
        if part.width > most - width {
            return None;
        }
        width += part.width;
    }
    Some(width)
}

fn is_join_within(parts: &[FExpr], width: u8) -> bool
    ensures { result ≡ nat_le (parts_width (parts_of (typed_trees parts.now))) width }
{
    width_within(parts, width).is_some()
}

// Whether the count is 1 to 64, and so many copies of the concatenation have room in the width.
fn are_copies_within(count: u32, parts: &[FExpr], width: u8) -> bool
    ensures { let all = parts_width (parts_of (typed_trees parts.now)) in
        result ≡ (is_one_to 64 count && nat_le (count * all) width) }
{
    if count < 1 || count > 64 {
        return false;
    }
    match width_within(parts, width) {
        Some(all) => count * u32::from(all) <= u32::from(width),
        None => false,
    }
}
