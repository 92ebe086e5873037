// Values of typed expressions.
ghost use Rattle.std.specs.Prelude.{◌≡◌, ℕ, ◌+◌, ◌*◌, ◌^◌, ◌<◌, ◌≤◌, Bool, length, IsTrue};
ghost use Rattle.sv_flat.specs.ByNumber.{signal_forms, by_number, FitSignals};
ghost use Rattle.sv_flat.specs.Soundness.{well_formed, node_well_formed, parts_well_formed};
ghost use Rattle.sv_num.specs.Parts.{bit_or_zero, replaced_bits};
ghost use Rattle.sv_flat.specs.Values.{value, node_value, joined, parts_width, number_of};
ghost use Rattle.sv_flat.specs.Values.{cut_value, signal_width};
ghost use Rattle.sv_flat.specs.Views.{typed_tree, typed_trees, node_tree, parts_of};
ghost use Rattle.sv_num.specs.Vectors.{width_of, is_signed, value_of};

use crate::bits;
use crate::expressions::{FExpr, FNode};
use crate::signals::{SigId, Signal};
use sv_num::{Bits, apply_binary, apply_unary};

/// The value of a well formed expression, at its own length and read unsigned (IEEE 1364-2005,
/// clause 5), where each signal has the value of its number.
pub fn value_of(expr: &FExpr, signals: &[Signal], values: &[u64]) -> u64
    requires formed { IsTrue (well_formed (signal_forms signals.now) (typed_tree expr.now)) }
    requires fit { FitSignals (signal_forms signals.now) values.now }
    ensures value { result ≡
        value (signal_forms signals.now) (by_number values.now) (typed_tree expr.now) }
    ensures range { result < 2 ^ expr.now.width }
{
    Environment { signals, values }.value_of(expr)
}

// What gives each signal a value.
#[derive(Clone, Copy)]
struct Environment<'a> {
    signals: &'a [Signal],
    values: &'a [u64],
}

impl Environment<'_> {
    // The value of an expression. The calls go as deep as the tree.
    #[cycle(expression_values)]
    fn value_of(&self, expr: &FExpr) -> u64
        requires formed { IsTrue
            (well_formed (signal_forms self.now.signals.now) (typed_tree expr.now)) }
        requires fit { FitSignals (signal_forms self.now.signals.now) self.now.values.now }
        ensures value { result
            ≡ value (signal_forms self.now.signals.now) (by_number self.now.values.now)
            (typed_tree expr.now) }
        ensures range { result < 2 ^ expr.now.width }
    {
        self.node_value(&expr.node, expr.width, expr.signed)
    }

    #[cycle(expression_values)]
    fn node_value(&self, node: &FNode, width: u8, signed: bool) -> u64
        requires some { 1 ≤ width }
        requires few { width ≤ 64 }
        requires formed { IsTrue
            (node_well_formed (signal_forms self.now.signals.now) width signed
            (node_tree node.now)) }
        requires fit { FitSignals (signal_forms self.now.signals.now) self.now.values.now }
        ensures value { result
            ≡ node_value (signal_forms self.now.signals.now) (by_number self.now.values.now)
            width signed (node_tree node.now) }
        ensures range { result < 2 ^ width }
    {
        match node {
            FNode::Number(number) => *number,
            FNode::Signal(signal, _) => bits::extended(self.read(*signal), width, signed),
            FNode::Bit(signal, _, index) => self.indexed(self.read(*signal), index),
            FNode::Part(signal, _, high, low) => {
                bits::bits_between(self.read(*signal).1, *high, *low)
            }
            FNode::Unary(op, operand) => apply_unary(*op, self.typed_value(operand)).value(),
            FNode::Binary(op, left, right) => {
                let left = self.typed_value(left);
                apply_binary(*op, left, self.typed_value(right)).value()
            }
            FNode::Choice(_, cond, yes, no) => {
                if self.value_of(cond) != 0 {
                    self.value_of(yes)
                } else {
                    self.value_of(no)
                }
            }
            FNode::Join(parts) => self.joined(parts).1,
            FNode::Repeat(count, parts) => bits::repeated(*count, self.joined(parts)),
            FNode::Held(signal, held) => bits::extended(self.held(*signal, held), width, signed),
            FNode::HeldBit(signal, _, held, index) => self.indexed(self.held(*signal, held), index),
            FNode::HeldPart(signal, _, held, high, low) => {
                bits::bits_between(self.held(*signal, held).1, *high, *low)
            }
            FNode::Mend(signal, old, high, low, piece) => {
                let old = self.value_of(old);
                let piece = self.value_of(piece);
                bits::extended(self.mended(*signal, old, *high, *low, piece), width, signed)
            }
            FNode::Slice(whole, high, low) => bits::bits_between(self.value_of(whole), *high, *low),
        }
    }

    // The value with its type.
    #[cycle(expression_values)]
    fn typed_value(&self, expr: &FExpr) -> Bits
        requires formed { IsTrue
            (well_formed (signal_forms self.now.signals.now) (typed_tree expr.now)) }
        requires fit { FitSignals (signal_forms self.now.signals.now) self.now.values.now }
        ensures width { width_of result ≡ expr.now.width }
        ensures signed { is_signed result ≡ expr.now.signed }
        ensures value { value_of result
            ≡ value (signal_forms self.now.signals.now) (by_number self.now.values.now)
            (typed_tree expr.now) }
    {
        Bits::of_type(expr.width, expr.signed, self.value_of(expr))
    }

    // The bit of a value, given after its width, that the index names by its own signedness, and 0
    // outside of it.
    #[cycle(expression_values)]
    fn indexed(&self, read: (u8, u64), index: &FExpr) -> u64
        requires formed { IsTrue
            (well_formed (signal_forms self.now.signals.now) (typed_tree index.now)) }
        requires fit { FitSignals (signal_forms self.now.signals.now) self.now.values.now }
        ensures value { let number = number_of (signal_forms self.now.signals.now)
            (by_number self.now.values.now) (typed_tree index.now) in
            result ≡ bit_or_zero read.0 read.1 number }
        ensures range { result < 2 }
    {
        let number = self.value_of(index);
        bits::bit_by_index(read.1, read.0, number, index.width, index.signed)
    }

    // The width of a signal, and what was put in for its name, cut to that width.
    #[cycle(expression_values)]
    fn held(&self, signal: SigId, held: &FExpr) -> (u8, u64)
        requires known { signal.0 < length self.now.signals.now }
        requires formed { IsTrue
            (well_formed (signal_forms self.now.signals.now) (typed_tree held.now)) }
        requires fit { FitSignals (signal_forms self.now.signals.now) self.now.values.now }
        ensures width { result.0 ≡ signal_width (signal_forms self.now.signals.now) signal.0 }
        ensures value { result.1
            ≡ cut_value (signal_forms self.now.signals.now) (by_number self.now.values.now)
            signal.0 (typed_tree held.now) }
        ensures range { result.1 < 2 ^ result.0 }
    {
        let width = width_of_signal(signal, self.signals);
        (width, bits::low_bits(self.value_of(held), width))
    }

    // The width of a concatenation, and its value: the first part has the highest bits.
    #[cycle(expression_values)]
    fn joined(&self, parts: &[FExpr]) -> (u8, u64)
        requires few { parts_width (parts_of (typed_trees parts.now)) ≤ 64 }
        requires formed { IsTrue
            (parts_well_formed (signal_forms self.now.signals.now)
            (parts_of (typed_trees parts.now))) }
        requires fit { FitSignals (signal_forms self.now.signals.now) self.now.values.now }
        ensures width { result.0 ≡ parts_width (parts_of (typed_trees parts.now)) }
        ensures value { let trees = parts_of (typed_trees parts.now) in
            result.1
            ≡ joined (signal_forms self.now.signals.now) (by_number self.now.values.now) trees }
        ensures range { result.1 < 2 ^ result.0 }
    {
        let mut width = 0;
        let mut value = 0;
        for part in parts {
            value = bits::beside(value, self.value_of(part), part.width);
            width += part.width;
        }
        (width, value)
    }

    // The width of a signal, and an old value of it in which the bits from `high` down to `low` are
    // those of a piece.
    fn mended(&self, signal: SigId, old: u64, high: u8, low: u8, piece: u64) -> (u8, u64)
        requires known { signal.0 < length self.now.signals.now }
        requires few { signal_width (signal_forms self.now.signals.now) signal.0 ≤ 64 }
        requires order { low ≤ high }
        requires inside { high < signal_width (signal_forms self.now.signals.now) signal.0 }
        ensures width { result.0 ≡ signal_width (signal_forms self.now.signals.now) signal.0 }
        ensures value { let width = signal_width (signal_forms self.now.signals.now) signal.0 in
            result.1 ≡ replaced_bits width high low old piece }
        ensures range { result.1 < 2 ^ result.0 }
    {
        let width = width_of_signal(signal, self.signals);
        (width, bits::replaced_bits(old, width, high, low, piece))
    }

    // The width of a signal, and its value.
    fn read(&self, signal: SigId) -> (u8, u64)
        requires known { signal.0 < length self.now.signals.now }
        requires fit { FitSignals (signal_forms self.now.signals.now) self.now.values.now }
        ensures width { result.0 ≡ signal_width (signal_forms self.now.signals.now) signal.0 }
        ensures value { result.1 ≡ by_number self.now.values.now signal.0 }
        ensures range { result.1 < 2 ^ result.0 }
    {
        (
            width_of_signal(signal, self.signals),
            self.values[signal.0 as usize],
        )
    }
}

/// The width in bits, from 1 to 64, of one of the signals.
pub fn width_of_signal(signal: SigId, signals: &[Signal]) -> u8
    requires { signal.0 < length signals.now }
    ensures { result ≡ signal_width (signal_forms signals.now) signal.0 }
{
    signals[signal.0 as usize].width
}
