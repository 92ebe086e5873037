// Words without gates: literals from bit 0.
ghost use Rattle.std.specs.Prelude.{◌≡◌, ◌≤◌, ◌<◌, ◌^◌, ◌++◌, ◌∷◌, [], OnOk, IfOk, replicate};
ghost use Rattle.sv_gates.specs.Formulas.{IsLiteral};
ghost use Rattle.sv_gates.specs.Gates.{true_literal, false_literal};
ghost use Rattle.sv_circuits.specs.Words.{low_literal, number_word, literal_at, top_literal};
ghost use Rattle.sv_circuits.specs.Words.{filled_word, zero_filled, extended_word, part_word};
ghost use Rattle.sv_circuits.specs.Words.{replaced_word, repeated_word, inverted_word};
ghost use Rattle.sv_circuits.specs.Operators.{ordered_word, sign_fill};

use std::alloc::{AllocError, Global};
use sv_gates::{Gates, Literal};

/// The literal that is always true: variable 1.
pub fn true_literal() -> Literal
    ensures { result ≡ true_literal }
{
    Literal::of_variable(1)
}

/// The literal that is always false: variable 1, negated.
pub fn false_literal() -> Literal
    ensures { result ≡ false_literal }
{
    true_literal().negated()
}

/// The literal that is always true, as one of a formula's variables.
pub fn truth(gates: &Gates) -> Literal
    ensures value { result ≡ true_literal }
    ensures within { IsLiteral gates.now.variables result }
{
    let _some = gates.variables();
    true_literal()
}

/// The literal that is always false, as one of a formula's variables.
pub fn falsity(gates: &Gates) -> Literal
    ensures value { result ≡ false_literal }
    ensures within { IsLiteral gates.now.variables result }
{
    let _some = gates.variables();
    false_literal()
}

/// The literal of a number's lowest bit.
pub fn low_literal(number: u64) -> Literal
    ensures { result ≡ low_literal number }
{
    if number % 2 == 1 {
        true_literal()
    } else {
        false_literal()
    }
}

/// A bit of a word by its number from 0, and false where there is none.
pub fn literal_at(word: &[Literal], bit: usize) -> Literal
    ensures { result ≡ literal_at word.now bit }
{
    match word.get(bit) {
        Some(literal) => *literal,
        None => false_literal(),
    }
}

/// The literal of the highest bit, and false where there is none.
pub fn top_literal(word: &[Literal]) -> Literal
    ensures { result ≡ top_literal word.now }
{
    literal_at(word, word.len().saturating_sub(1))
}

/// Puts one more literal at the end.
pub fn append(word: &mut Vec<Literal>, literal: Literal) -> Result<(), AllocError>
    ensures { OnOk result (word.new.items ≡ word.old.items ++ literal ∷ []) }
{
    word.push(literal)?;
    Ok(())
}

/// Puts a word at the end.
pub fn append_word(word: &mut Vec<Literal>, more: &[Literal]) -> Result<(), AllocError>
    ensures { OnOk result (word.new.items ≡ word.old.items ++ more.now) }
{
    word.extend_from_slice(more)?;
    Ok(())
}

/// Puts a literal at the end so many times.
pub fn append_same(word: &mut Vec<Literal>, count: usize, fill: Literal) -> Result<(), AllocError>
    ensures { OnOk result (word.new.items ≡ word.old.items ++ replicate count fill) }
{
    'fill: for _ in 0..count {
        word.push(fill)?;
    }
    Ok(())
}

/// A copy of a word.
pub fn copied(alloc: Global, word: &[Literal]) -> Result<Vec<Literal>, AllocError>
    ensures { IfOk result (λ made. made.items ≡ word.now) }
{
    word.to_vec(alloc)
}

/// A number at some width in bits: its lowest bits, each as the literal that is always true or the
/// one that is always false.
/// An error says that memory ran out.
pub fn number_word(alloc: Global, width: usize, number: u64) -> Result<Vec<Literal>, AllocError>
    ensures { IfOk result (λ word. word.items ≡ number_word width number) }
{
    let mut word = Vec::with_capacity(alloc, width)?;
    let mut left = number;
    'bits: for _ in 0..width {
        word.push(low_literal(left))?;
        left /= 2;
    }
    Ok(word)
}

/// A word at another length in bits: cut, or with a literal as each new bit.
/// An error says that memory ran out.
pub fn filled(
    alloc: Global,
    fill: Literal,
    width: usize,
    word: &[Literal],
) -> Result<Vec<Literal>, AllocError>
    ensures { IfOk result (λ made. made.items ≡ filled_word fill width word.now) }
{
    let kept = word.len().min(width);
    let mut made = copied(alloc, &word[..kept])?;
    append_same(&mut made, width - kept, fill)?;
    Ok(made)
}

/// A word at another length in bits: cut, or with false as each new bit.
/// An error says that memory ran out.
pub fn zero_filled(
    alloc: Global,
    width: usize,
    word: &[Literal],
) -> Result<Vec<Literal>, AllocError>
    ensures { IfOk result (λ made. made.items ≡ zero_filled width word.now) }
{
    filled(alloc, false_literal(), width, word)
}

/// What new high bits are: the highest bit in a signed type, else false.
pub fn sign_fill(signed: bool, word: &[Literal]) -> Literal
    ensures { result ≡ sign_fill signed word.now }
{
    if signed {
        top_literal(word)
    } else {
        false_literal()
    }
}

/// A word at another length in bits: cut, or with the highest bit as each new one in a signed type,
/// else with false.
/// An error says that memory ran out.
pub fn extended(
    alloc: Global,
    signed: bool,
    width: usize,
    word: &[Literal],
) -> Result<Vec<Literal>, AllocError>
    ensures { IfOk result (λ made. made.items ≡ extended_word signed width word.now) }
{
    filled(alloc, sign_fill(signed, word), width, word)
}

/// The bits from `high` down to `low`, and false for each that the word does not have.
/// An error says that memory ran out.
pub fn part(
    alloc: Global,
    high: usize,
    low: usize,
    word: &[Literal],
) -> Result<Vec<Literal>, AllocError>
    requires small { high < 2 ^ 63 }
    requires low { low ≤ high }
    ensures { IfOk result (λ made. made.items ≡ part_word high low word.now) }
{
    let from = low.min(word.len());
    zero_filled(alloc, high - low + 1, &word[from..])
}

/// A word in which the bits from `high` down to `low` are the low bits of a piece, with false for
/// each that the piece does not have.
/// An error says that memory ran out.
pub fn replaced(
    alloc: Global,
    high: usize,
    low: usize,
    word: &[Literal],
    piece: &[Literal],
) -> Result<Vec<Literal>, AllocError>
    requires small { high < 2 ^ 63 }
    requires low { low ≤ high }
    ensures { IfOk result (λ made. made.items ≡ replaced_word high low word.now piece.now) }
{
    let below = low.min(word.len());
    let above = (high + 1).min(word.len());
    let mut made = copied(alloc, &word[..below])?;
    let bits = zero_filled(alloc, high - low + 1, piece)?;
    append_word(&mut made, &bits)?;
    append_word(&mut made, &word[above..])?;
    Ok(made)
}

/// A word written so many times, one copy above the other.
/// An error says that memory ran out.
pub fn repeated(alloc: Global, count: usize, word: &[Literal]) -> Result<Vec<Literal>, AllocError>
    ensures { IfOk result (λ made. made.items ≡ repeated_word count word.now) }
{
    let mut made = Vec::new(alloc);
    'copies: for _ in 0..count {
        append_word(&mut made, word)?;
    }
    Ok(made)
}

/// Each literal negated, in its place.
/// An error says that memory ran out.
pub fn inverted(alloc: Global, word: &[Literal]) -> Result<Vec<Literal>, AllocError>
    ensures { IfOk result (λ made. made.items ≡ inverted_word word.now) }
{
    let mut made = Vec::with_capacity(alloc, word.len())?;
    'bits: for literal in word {
        made.push(literal.negated())?;
    }
    Ok(made)
}

/// A word with its highest bit negated in a signed type, so that words are in the order of numbers.
pub fn ordered(alloc: Global, signed: bool, word: &[Literal]) -> Result<Vec<Literal>, AllocError>
    ensures { IfOk result (λ made. made.items ≡ ordered_word signed word.now) }
{
    if !signed {
        return copied(alloc, word);
    }
    let below = word.len().saturating_sub(1);
    let mut made = copied(alloc, &word[..below])?;
    let top = inverted(alloc, &word[below..])?;
    append_word(&mut made, &top)?;
    Ok(made)
}
