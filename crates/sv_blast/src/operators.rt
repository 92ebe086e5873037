// The words of nodes from the words of what stands in them, at the length of the node.
ghost use Rattle.std.specs.Prelude.{◌≡◌, ◌<◌, ◌≤◌, ◌∷◌, ◌++◌, [], OnOk, IfOk, IsErrOf};
ghost use Rattle.sv_gates.specs.Extending.{Begins};
ghost use Rattle.sv_gates.specs.Formulas.{IsLiteral, most_variables};
ghost use Rattle.sv_gates.specs.Gates.{mux_gate};
ghost use Rattle.sv_circuits.specs.Words.{extended_word, zero_filled, part_word, replaced_word};
ghost use Rattle.sv_circuits.specs.Words.{repeated_word, bitwise_word, number_word};
ghost use Rattle.sv_circuits.specs.Operators.{unary_word, binary_word};
ghost use Rattle.sv_circuits.specs.Circuits.{IsWord};
ghost use Rattle.sv_blast.specs.NodeWords.{filled_to};

use std::alloc::{AllocError, Global};
use sv_circuits::{
    binary, chosen, extended, falsity, number_word, part, repeated, replaced, unary, zero_filled,
};
use sv_gates::{GateFault, Gates, Literal};
use sv_num::{BinOp, UnOp};

/// A number's word. An error says that memory ran out.
pub fn number_at(
    alloc: Global,
    gates: &Gates,
    width: u8,
    number: u64,
) -> Result<Vec<Literal>, AllocError>
    ensures made { IfOk result (λ word. word.items ≡ number_word width number) }
    ensures within { IfOk result (λ word. IsWord gates.now.variables word.items) }
{
    let _some = falsity(gates);
    number_word(alloc, usize::from(width), number)
}

/// A word read at another length, by its signedness. An error says that memory ran out.
pub fn extended_at(
    alloc: Global,
    gates: &Gates,
    width: u8,
    signed: bool,
    word: &[Literal],
) -> Result<Vec<Literal>, AllocError>
    requires { IsWord gates.now.variables word.now }
    ensures made { IfOk result (λ made. made.items ≡ extended_word signed width word.now) }
    ensures within { IfOk result (λ made. IsWord gates.now.variables made.items) }
{
    let _some = falsity(gates);
    extended(alloc, signed, usize::from(width), word)
}

/// A word with false as each new bit. An error says that memory ran out.
pub fn filled_at(
    alloc: Global,
    gates: &Gates,
    width: u8,
    word: &[Literal],
) -> Result<Vec<Literal>, AllocError>
    requires { IsWord gates.now.variables word.now }
    ensures made { IfOk result (λ made. made.items ≡ zero_filled width word.now) }
    ensures within { IfOk result (λ made. IsWord gates.now.variables made.items) }
{
    let _some = falsity(gates);
    zero_filled(alloc, usize::from(width), word)
}

/// The bits from `high` down to `low`. An error says that memory ran out.
pub fn part_at(
    alloc: Global,
    gates: &Gates,
    width: u8,
    high: u8,
    low: u8,
    word: &[Literal],
) -> Result<Vec<Literal>, AllocError>
    requires low { low ≤ high }
    requires word { IsWord gates.now.variables word.now }
    ensures made { IfOk result (λ made.
        made.items ≡ zero_filled width (part_word high low word.now)) }
    ensures within { IfOk result (λ made. IsWord gates.now.variables made.items) }
{
    let _some = falsity(gates);
    let bits = part(alloc, usize::from(high), usize::from(low), word)?;
    filled_at(alloc, gates, width, &bits)
}

/// Copies of a word one above the other. An error says that memory ran out.
pub fn repeated_at(
    alloc: Global,
    gates: &Gates,
    width: u8,
    count: u32,
    word: &[Literal],
) -> Result<Vec<Literal>, AllocError>
    requires { IsWord gates.now.variables word.now }
    ensures made { IfOk result (λ made.
        made.items ≡ zero_filled width (repeated_word count word.now)) }
    ensures within { IfOk result (λ made. IsWord gates.now.variables made.items) }
{
    let copies = repeated(alloc, count as usize, word)?;
    filled_at(alloc, gates, width, &copies)
}

/// What is put into a word: the low bits of a piece, in place of those from `high` down to `low`.
#[derive(Clone, Copy)]
pub struct Patch<'a> {
    pub high: u8,
    pub low: u8,
    pub piece: &'a [Literal],
}

/// A word with a patch put in. An error says that memory ran out.
pub fn replaced_at(
    alloc: Global,
    gates: &Gates,
    width: u8,
    signed: bool,
    word: &[Literal],
    patch: &Patch,
) -> Result<Vec<Literal>, AllocError>
    requires low { patch.now.low ≤ patch.now.high }
    requires word { IsWord gates.now.variables word.now }
    requires piece { IsWord gates.now.variables patch.now.piece.now }
    ensures made { IfOk result (λ made. made.items ≡ extended_word signed width
        (replaced_word patch.now.high patch.now.low word.now patch.now.piece.now)) }
    ensures within { IfOk result (λ made. IsWord gates.now.variables made.items) }
{
    let _some = falsity(gates);
    let (high, low) = (usize::from(patch.high), usize::from(patch.low));
    let whole = replaced(alloc, high, low, word, patch.piece)?;
    extended_at(alloc, gates, width, signed, &whole)
}

/// The word of a unary operator.
/// `Full` says that variables ran out, `OutOfMemory` that memory did; then some gates may stay.
pub fn unary_at(
    alloc: Global,
    gates: &mut Gates,
    width: u8,
    op: UnOp,
    operand: &[Literal],
) -> Result<Vec<Literal>, GateFault>
    requires { IsWord gates.old.variables operand.now }
    ensures made { IfOk result (λ word.
        filled_to width (unary_word op operand.now) gates.old ≡ (gates.new, word.items)) }
    ensures within { IfOk result (λ word. IsWord gates.new.variables word.items) }
    ensures begins { Begins gates.old gates.new }
    ensures full { IsErrOf result GateFault.Full
        → most_variables < ((unary_word op operand.now gates.old).0).variables }
{
    let word = unary(alloc, gates, op, operand)?;
    Ok(filled_at(alloc, gates, width, &word)?)
}

/// The words of a binary operator's operands, and whether the type of the left one is signed.
#[derive(Clone, Copy)]
pub struct OperandWords<'a> {
    pub signed: bool,
    pub left: &'a [Literal],
    pub right: &'a [Literal],
}

/// The word of a binary operator.
/// `Full` says that variables ran out, `OutOfMemory` that memory did; then some gates may stay.
pub fn binary_at(
    alloc: Global,
    gates: &mut Gates,
    width: u8,
    op: BinOp,
    operands: &OperandWords,
) -> Result<Vec<Literal>, GateFault>
    requires left { IsWord gates.old.variables operands.now.left.now }
    requires right { IsWord gates.old.variables operands.now.right.now }
    ensures made { IfOk result (λ word. filled_to width
        (binary_word op operands.now.signed operands.now.left.now operands.now.right.now)
        gates.old ≡ (gates.new, word.items)) }
    ensures within { IfOk result (λ word. IsWord gates.new.variables word.items) }
    ensures begins { Begins gates.old gates.new }
    ensures full { IsErrOf result GateFault.Full → most_variables
        < ((binary_word op operands.now.signed operands.now.left.now operands.now.right.now
        gates.old).0).variables }
{
    let word = binary(
        alloc,
        gates,
        op,
        operands.signed,
        operands.left,
        operands.right,
    )?;
    Ok(filled_at(alloc, gates, width, &word)?)
}

/// The first word where a literal holds, else the second.
/// `Full` says that variables ran out, `OutOfMemory` that memory did; then some gates may stay.
pub fn chosen_at(
    alloc: Global,
    gates: &mut Gates,
    width: u8,
    bit: Literal,
    first: &[Literal],
    second: &[Literal],
) -> Result<Vec<Literal>, GateFault>
    requires bit { IsLiteral gates.old.variables bit }
    requires first { IsWord gates.old.variables first.now }
    requires second { IsWord gates.old.variables second.now }
    ensures made { IfOk result (λ word. filled_to width
        (bitwise_word (mux_gate bit) first.now second.now) gates.old ≡ (gates.new, word.items)) }
    ensures within { IfOk result (λ word. IsWord gates.new.variables word.items) }
    ensures begins { Begins gates.old gates.new }
    ensures full { IsErrOf result GateFault.Full → most_variables
        < ((bitwise_word (mux_gate bit) first.now second.now gates.old).0).variables }
{
    let word = chosen(alloc, gates, bit, first, second)?;
    Ok(filled_at(alloc, gates, width, &word)?)
}

/// A literal as a word. An error says that memory ran out.
pub fn one_bit(alloc: Global, literal: Literal) -> Result<Vec<Literal>, AllocError>
    ensures { IfOk result (λ word. word.items ≡ literal ∷ []) }
{
    let mut word = Vec::with_capacity(alloc, 1)?;
    append(&mut word, literal)?;
    Ok(word)
}

/// Puts one more literal at the end. An error says that memory ran out.
pub fn append(word: &mut Vec<Literal>, literal: Literal) -> Result<(), AllocError>
    ensures { OnOk result (word.new.items ≡ word.old.items ++ literal ∷ []) }
{
    word.push(literal)?;
    Ok(())
}
