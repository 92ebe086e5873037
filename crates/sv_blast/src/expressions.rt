// The word of a typed expression, node by node.
ghost use Rattle.std.specs.Prelude.{◌≡◌, ◌<◌, IsTrue, IfOk, IsErrOf, length};
ghost use Rattle.sv_flat.specs.ByNumber.{signal_forms};
ghost use Rattle.sv_flat.specs.Soundness.{well_formed, parts_well_formed};
ghost use Rattle.sv_flat.specs.Views.{typed_tree, typed_trees, parts_of};
ghost use Rattle.sv_gates.specs.Extending.{Begins};
ghost use Rattle.sv_gates.specs.Formulas.{IsLiteral, most_variables};
ghost use Rattle.sv_circuits.specs.Circuits.{IsWord};
ghost use Rattle.sv_encoding.specs.Expressions.{expression_word, joined_word, is_true_bit};
ghost use Rattle.sv_encoding.specs.Expressions.{indexed_bit};
ghost use Rattle.sv_blast.specs.WordTables.{words_of, StandFor, StandForParts};
ghost use Rattle.sv_blast.specs.NodeWords.{operand_of, cut_of};

use crate::constants::bit_at;
use crate::operators::{
    OperandWords, Patch, binary_at, chosen_at, extended_at, filled_at, number_at, one_bit, part_at,
    repeated_at, replaced_at, unary_at,
};
use crate::tables::WordTable;
use std::alloc::Global;
use sv_circuits::{not_zero, picked};
use sv_flat::{FExpr, FNode, SigId, Signal, is_constant};
use sv_gates::{GateFault, Gates, Literal};
use sv_num::{OpClass, class_of};

/// The word of an expression (IEEE 1364-2005, clause 5), where each signal has the word of the
/// table. `Full` says that variables ran out, `OutOfMemory` that memory did; then some gates may
/// stay.
pub fn expression(
    alloc: Global,
    gates: &mut Gates,
    signals: &[Signal],
    words: &WordTable,
    expr: &FExpr,
) -> Result<Vec<Literal>, GateFault>
    requires formed { IsTrue (well_formed (signal_forms signals.now) (typed_tree expr.now)) }
    requires words { StandFor (signal_forms signals.now) gates.old.variables (words_of words.now)
        (typed_tree expr.now) }
    ensures made { IfOk result (λ word. expression_word (signal_forms signals.now)
        (words_of words.now) (typed_tree expr.now) gates.old ≡ (gates.new, word.items)) }
    ensures within { IfOk result (λ word. IsWord gates.new.variables word.items) }
    ensures width { IfOk result (λ word. length word.items ≡ expr.now.width) }
    ensures begins { Begins gates.old gates.new }
    ensures full { IsErrOf result GateFault.Full → most_variables
        < ((expression_word (signal_forms signals.now) (words_of words.now) (typed_tree expr.now)
        gates.old).0).variables }
{
    Names { signals, words }.expression(alloc, gates, expr)
}

/// The literal that says whether an expression is not 0.
/// `Full` says that variables ran out, `OutOfMemory` that memory did; then some gates may stay.
pub fn is_true(
    alloc: Global,
    gates: &mut Gates,
    signals: &[Signal],
    words: &WordTable,
    expr: &FExpr,
) -> Result<Literal, GateFault>
    requires formed { IsTrue (well_formed (signal_forms signals.now) (typed_tree expr.now)) }
    requires words { StandFor (signal_forms signals.now) gates.old.variables (words_of words.now)
        (typed_tree expr.now) }
    ensures made { IfOk result (λ literal. is_true_bit (signal_forms signals.now)
        (words_of words.now) (typed_tree expr.now) gates.old ≡ (gates.new, literal)) }
    ensures within { IfOk result (IsLiteral gates.new.variables) }
    ensures begins { Begins gates.old gates.new }
    ensures full { IsErrOf result GateFault.Full → most_variables
        < ((is_true_bit (signal_forms signals.now) (words_of words.now) (typed_tree expr.now)
        gates.old).0).variables }
{
    Names { signals, words }.is_true(alloc, gates, expr)
}

// What the names in expressions stand for.
#[derive(Clone, Copy)]
struct Names<'a> {
    signals: &'a [Signal],
    words: &'a WordTable,
}

impl Names<'_> {
    // The word of an expression. The calls go as deep as the tree.
    #[cycle(expression_words)]
    fn expression(
        &self,
        alloc: Global,
        gates: &mut Gates,
        expr: &FExpr,
    ) -> Result<Vec<Literal>, GateFault>
        requires formed { IsTrue
            (well_formed (signal_forms self.now.signals.now) (typed_tree expr.now)) }
        requires words { StandFor (signal_forms self.now.signals.now) gates.old.variables
            (words_of self.now.words.now) (typed_tree expr.now) }
        ensures made { IfOk result (λ word. expression_word (signal_forms self.now.signals.now)
            (words_of self.now.words.now) (typed_tree expr.now) gates.old
            ≡ (gates.new, word.items)) }
        ensures within { IfOk result (λ word. IsWord gates.new.variables word.items) }
        ensures begins { Begins gates.old gates.new }
        ensures full { IsErrOf result GateFault.Full → most_variables
            < ((expression_word (signal_forms self.now.signals.now) (words_of self.now.words.now)
            (typed_tree expr.now) gates.old).0).variables }
    {
        let (width, signed) = (expr.width, expr.signed);
        match &expr.node {
            FNode::Number(number) => Ok(number_at(alloc, gates, width, *number)?),
            FNode::Signal(signal, _) => {
                let word = self.words.word(*signal);
                Ok(extended_at(alloc, gates, width, signed, word)?)
            }
            FNode::Bit(signal, _, index) => {
                let bit = self.bit(alloc, gates, self.words.word(*signal), index)?;
                Ok(filled_at(alloc, gates, width, &[bit])?)
            }
            FNode::Part(signal, _, high, low) => {
                let word = self.words.word(*signal);
                Ok(part_at(alloc, gates, width, *high, *low, word)?)
            }
            FNode::Unary(op, operand) => {
                let operand = self.expression(alloc, gates, operand)?;
                unary_at(alloc, gates, width, *op, &operand)
            }
            FNode::Binary(op, left, right) => {
                let class = class_of(*op);
                let first = self.operand(alloc, gates, class, left)?;
                let second = self.operand(alloc, gates, class, right)?;
                let operands = OperandWords {
                    signed: left.signed,
                    left: &first,
                    right: &second,
                };
                binary_at(alloc, gates, width, *op, &operands)
            }
            FNode::Choice(_, cond, yes, no) => {
                let condition = self.is_true(alloc, gates, cond)?;
                let first = self.expression(alloc, gates, yes)?;
                let second = self.expression(alloc, gates, no)?;
                chosen_at(alloc, gates, width, condition, &first, &second)
            }
            FNode::Join(parts) => {
                let word = self.joined(alloc, gates, parts)?;
                Ok(filled_at(alloc, gates, width, &word)?)
            }
            FNode::Repeat(count, parts) => {
                let word = self.joined(alloc, gates, parts)?;
                Ok(repeated_at(alloc, gates, width, *count, &word)?)
            }
            FNode::Held(signal, value) => {
                let word = self.cut(alloc, gates, *signal, value)?;
                Ok(extended_at(alloc, gates, width, signed, &word)?)
            }
            FNode::HeldBit(signal, _, value, index) => {
                let word = self.cut(alloc, gates, *signal, value)?;
                let bit = self.bit(alloc, gates, &word, index)?;
                Ok(filled_at(alloc, gates, width, &[bit])?)
            }
            FNode::HeldPart(signal, _, value, high, low) => {
                let word = self.cut(alloc, gates, *signal, value)?;
                Ok(part_at(alloc, gates, width, *high, *low, &word)?)
            }
            FNode::Mend(signal, old, high, low, piece) => {
                let word = self.cut(alloc, gates, *signal, old)?;
                let piece = self.expression(alloc, gates, piece)?;
                let patch = Patch {
                    high: *high,
                    low: *low,
                    piece: &piece,
                };
                Ok(replaced_at(alloc, gates, width, signed, &word, &patch)?)
            }
            FNode::Slice(value, high, low) => {
                let word = self.expression(alloc, gates, value)?;
                Ok(part_at(alloc, gates, width, *high, *low, &word)?)
            }
        }
    }
    // The literal that says whether an expression is not 0.
    #[cycle(expression_words)]
    fn is_true(&self, alloc: Global, gates: &mut Gates, expr: &FExpr) -> Result<Literal, GateFault>
        requires formed { IsTrue
            (well_formed (signal_forms self.now.signals.now) (typed_tree expr.now)) }
        requires words { StandFor (signal_forms self.now.signals.now) gates.old.variables
            (words_of self.now.words.now) (typed_tree expr.now) }
        ensures made { IfOk result (λ literal. is_true_bit (signal_forms self.now.signals.now)
            (words_of self.now.words.now) (typed_tree expr.now) gates.old ≡ (gates.new, literal)) }
        ensures within { IfOk result (IsLiteral gates.new.variables) }
        ensures begins { Begins gates.old gates.new }
        ensures full { IsErrOf result GateFault.Full → most_variables
            < ((is_true_bit (signal_forms self.now.signals.now) (words_of self.now.words.now)
            (typed_tree expr.now) gates.old).0).variables }
    {
        let word = self.expression(alloc, gates, expr)?;
        not_zero(gates, &word)
    }

    // The bit of a word by an index, and false outside of it. A constant index takes no gates.
    #[cycle(expression_words)]
    fn bit(
        &self,
        alloc: Global,
        gates: &mut Gates,
        word: &[Literal],
        index: &FExpr,
    ) -> Result<Literal, GateFault>
        requires formed { IsTrue
            (well_formed (signal_forms self.now.signals.now) (typed_tree index.now)) }
        requires words { StandFor (signal_forms self.now.signals.now) gates.old.variables
            (words_of self.now.words.now) (typed_tree index.now) }
        requires word { IsWord gates.old.variables word.now }
        ensures made { IfOk result (λ literal. indexed_bit (signal_forms self.now.signals.now)
            word.now (typed_tree index.now) (expression_word (signal_forms self.now.signals.now)
            (words_of self.now.words.now) (typed_tree index.now)) gates.old
            ≡ (gates.new, literal)) }
        ensures within { IfOk result (IsLiteral gates.new.variables) }
        ensures begins { Begins gates.old gates.new }
        ensures full { IsErrOf result GateFault.Full → most_variables
            < ((indexed_bit (signal_forms self.now.signals.now) word.now (typed_tree index.now)
            (expression_word (signal_forms self.now.signals.now) (words_of self.now.words.now)
            (typed_tree index.now)) gates.old).0).variables }
    {
        if is_constant(index) {
            return Ok(bit_at(gates, word, index));
        }
        let number = self.expression(alloc, gates, index)?;
        picked(gates, word, &number, index.signed)
    }

    // An operand of a binary operator: of `&&` and `||`, whether it is not 0.
    #[cycle(expression_words)]
    fn operand(
        &self,
        alloc: Global,
        gates: &mut Gates,
        class: OpClass,
        expr: &FExpr,
    ) -> Result<Vec<Literal>, GateFault>
        requires formed { IsTrue
            (well_formed (signal_forms self.now.signals.now) (typed_tree expr.now)) }
        requires words { StandFor (signal_forms self.now.signals.now) gates.old.variables
            (words_of self.now.words.now) (typed_tree expr.now) }
        ensures made { IfOk result (λ word. operand_of (signal_forms self.now.signals.now)
            (words_of self.now.words.now) class (typed_tree expr.now) gates.old
            ≡ (gates.new, word.items)) }
        ensures within { IfOk result (λ word. IsWord gates.new.variables word.items) }
        ensures begins { Begins gates.old gates.new }
        ensures full { IsErrOf result GateFault.Full → most_variables
            < ((operand_of (signal_forms self.now.signals.now) (words_of self.now.words.now) class
            (typed_tree expr.now) gates.old).0).variables }
    {
        match class {
            OpClass::Logical => {
                let bit = self.is_true(alloc, gates, expr)?;
                Ok(one_bit(alloc, bit)?)
            }
            _ => self.expression(alloc, gates, expr),
        }
    }

    // The word of a concatenation: the first part has the highest bits.
    #[cycle(expression_words)]
    fn joined(
        &self,
        alloc: Global,
        gates: &mut Gates,
        parts: &[FExpr],
    ) -> Result<Vec<Literal>, GateFault>
        requires formed { IsTrue (parts_well_formed (signal_forms self.now.signals.now)
            (parts_of (typed_trees parts.now))) }
        requires words { StandForParts (signal_forms self.now.signals.now) gates.old.variables
            (words_of self.now.words.now) (parts_of (typed_trees parts.now)) }
        ensures made { IfOk result (λ word. joined_word (signal_forms self.now.signals.now)
            (words_of self.now.words.now) (parts_of (typed_trees parts.now)) gates.old
            ≡ (gates.new, word.items)) }
        ensures within { IfOk result (λ word. IsWord gates.new.variables word.items) }
        ensures begins { Begins gates.old gates.new }
        ensures full { IsErrOf result GateFault.Full → most_variables
            < ((joined_word (signal_forms self.now.signals.now) (words_of self.now.words.now)
            (parts_of (typed_trees parts.now)) gates.old).0).variables }
    {
        let mut above = Vec::new(alloc);
        'parts: for part in parts {
            let mut word = self.expression(alloc, gates, part)?;
            word.extend_from_slice(&above)?;
            above = word;
        }
        Ok(above)
    }

    // What was put in for a signal's name, cut to the signal's width.
    #[cycle(expression_words)]
    fn cut(
        &self,
        alloc: Global,
        gates: &mut Gates,
        signal: SigId,
        value: &FExpr,
    ) -> Result<Vec<Literal>, GateFault>
        requires known { signal.0 < length self.now.signals.now }
        requires formed { IsTrue
            (well_formed (signal_forms self.now.signals.now) (typed_tree value.now)) }
        requires words { StandFor (signal_forms self.now.signals.now) gates.old.variables
            (words_of self.now.words.now) (typed_tree value.now) }
        ensures made { IfOk result (λ word. cut_of (signal_forms self.now.signals.now)
            (words_of self.now.words.now) signal.0 (typed_tree value.now) gates.old
            ≡ (gates.new, word.items)) }
        ensures within { IfOk result (λ word. IsWord gates.new.variables word.items) }
        ensures begins { Begins gates.old gates.new }
        ensures full { IsErrOf result GateFault.Full → most_variables
            < ((cut_of (signal_forms self.now.signals.now) (words_of self.now.words.now) signal.0
            (typed_tree value.now) gates.old).0).variables }
    {
        let word = self.expression(alloc, gates, value)?;
        let width = self.signals[signal.0 as usize].width;
        Ok(filled_at(alloc, gates, width, &word)?)
    }
}
