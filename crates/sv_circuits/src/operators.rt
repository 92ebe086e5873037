// The words of operators.
ghost use Rattle.std.specs.Prelude.{◌≡◌, ◌≤◌, ◌<◌, ◌∷◌, [], IfOk, IsErrOf};
ghost use Rattle.sv_gates.specs.Extending.{Begins};
ghost use Rattle.sv_gates.specs.Formulas.{IsLiteral, most_variables};
ghost use Rattle.sv_circuits.specs.Words.{not_zero_bit, negation, equal_bit};
ghost use Rattle.sv_circuits.specs.Moves.{move_of};
ghost use Rattle.sv_gates.specs.Gates.{false_literal};
ghost use Rattle.sv_circuits.specs.Operators.{one_bit, less_bit, sign_fill, moved_down};
ghost use Rattle.sv_circuits.specs.Operators.{shifted_word, unary_word, binary_word};
ghost use Rattle.sv_circuits.specs.Circuits.{IsWord};

use crate::adders::{difference, minus, sum};
use crate::bit_gates::{BitGate, bitwise};
use crate::chains::chain;
use crate::comparators::{equal, less};
use crate::multipliers::product;
use crate::shifters::{Direction, shifted};
use crate::words::{append, copied, falsity, inverted, sign_fill};
use std::alloc::{AllocError, Global};
use sv_gates::{GateFault, Gates, Literal};
use sv_num::{BinOp, UnOp};

/// Whether a word is not 0: the OR chain of its bits.
/// `Full` says that variables ran out, `OutOfMemory` that memory did; then some gates may stay.
pub fn not_zero(gates: &mut Gates, word: &[Literal]) -> Result<Literal, GateFault>
    requires { IsWord gates.old.variables word.now }
    ensures made { IfOk result (λ g. not_zero_bit word.now gates.old ≡ (gates.new, g)) }
    ensures within { IfOk result (IsLiteral gates.new.variables) }
    ensures begins { Begins gates.old gates.new }
    ensures full { IsErrOf result GateFault.Full
        → most_variables < ((not_zero_bit word.now gates.old).0).variables }
{
    chain(gates, BitGate::Or, word)
}

// A literal as a word.
fn one_bit(alloc: Global, literal: Literal) -> Result<Vec<Literal>, AllocError>
    ensures { IfOk result (λ word. word.items ≡ literal ∷ []) }
{
    let mut word = Vec::with_capacity(alloc, 1)?;
    append(&mut word, literal)?;
    Ok(word)
}

/// The word of a unary operator: at the operand's length, or one bit for `!` and the reductions.
/// `Full` says that variables ran out, `OutOfMemory` that memory did; then some gates may stay.
pub fn unary(
    alloc: Global,
    gates: &mut Gates,
    op: UnOp,
    a: &[Literal],
) -> Result<Vec<Literal>, GateFault>
    requires { IsWord gates.old.variables a.now }
    ensures made { IfOk result (λ word. unary_word op a.now gates.old ≡ (gates.new, word.items)) }
    ensures within { IfOk result (λ word. IsWord gates.new.variables word.items) }
    ensures begins { Begins gates.old gates.new }
    ensures full { IsErrOf result GateFault.Full
        → most_variables < ((unary_word op a.now gates.old).0).variables }
{
    match op {
        UnOp::Plus => Ok(copied(alloc, a)?),
        UnOp::Minus => minus(alloc, gates, a),
        UnOp::Invert => Ok(inverted(alloc, a)?),
        UnOp::LogicNot => Ok(one_bit(alloc, chain(gates, BitGate::Or, a)?.negated())?),
        UnOp::And => Ok(one_bit(alloc, chain(gates, BitGate::And, a)?)?),
        UnOp::Nand => Ok(one_bit(alloc, chain(gates, BitGate::And, a)?.negated())?),
        UnOp::Or => Ok(one_bit(alloc, chain(gates, BitGate::Or, a)?)?),
        UnOp::Nor => Ok(one_bit(alloc, chain(gates, BitGate::Or, a)?.negated())?),
        UnOp::Xor => Ok(one_bit(alloc, chain(gates, BitGate::Xor, a)?)?),
        UnOp::Xnor => Ok(one_bit(alloc, chain(gates, BitGate::Xor, a)?.negated())?),
    }
}

// The word that tells whether a < b.
fn less_word(
    alloc: Global,
    gates: &mut Gates,
    signed: bool,
    a: &[Literal],
    b: &[Literal],
) -> Result<Vec<Literal>, GateFault>
    requires a { IsWord gates.old.variables a.now }
    requires b { IsWord gates.old.variables b.now }
    ensures made { IfOk result (λ word.
        one_bit (less_bit signed a.now b.now) gates.old ≡ (gates.new, word.items)) }
    ensures within { IfOk result (λ word. IsWord gates.new.variables word.items) }
    ensures begins { Begins gates.old gates.new }
    ensures full { IsErrOf result GateFault.Full
        → most_variables < ((less_bit signed a.now b.now gates.old).0).variables }
{
    let bit = less(alloc, gates, signed, a, b)?;
    Ok(one_bit(alloc, bit)?)
}

// The word that tells whether a >= b.
fn not_less_word(
    alloc: Global,
    gates: &mut Gates,
    signed: bool,
    a: &[Literal],
    b: &[Literal],
) -> Result<Vec<Literal>, GateFault>
    requires a { IsWord gates.old.variables a.now }
    requires b { IsWord gates.old.variables b.now }
    ensures made { IfOk result (λ word.
        one_bit (negation (less_bit signed a.now b.now)) gates.old ≡ (gates.new, word.items)) }
    ensures within { IfOk result (λ word. IsWord gates.new.variables word.items) }
    ensures begins { Begins gates.old gates.new }
    ensures full { IsErrOf result GateFault.Full
        → most_variables < ((less_bit signed a.now b.now gates.old).0).variables }
{
    let bit = less(alloc, gates, signed, a, b)?;
    Ok(one_bit(alloc, bit.negated())?)
}

// The word that tells whether a == b.
fn equal_word(
    alloc: Global,
    gates: &mut Gates,
    a: &[Literal],
    b: &[Literal],
) -> Result<Vec<Literal>, GateFault>
    requires a { IsWord gates.old.variables a.now }
    requires b { IsWord gates.old.variables b.now }
    ensures made { IfOk result (λ word.
        one_bit (equal_bit a.now b.now) gates.old ≡ (gates.new, word.items)) }
    ensures within { IfOk result (λ word. IsWord gates.new.variables word.items) }
    ensures begins { Begins gates.old gates.new }
    ensures full { IsErrOf result GateFault.Full
        → most_variables < ((equal_bit a.now b.now gates.old).0).variables }
{
    let bit = equal(gates, a, b)?;
    Ok(one_bit(alloc, bit)?)
}

// The word that tells whether a != b.
fn unequal_word(
    alloc: Global,
    gates: &mut Gates,
    a: &[Literal],
    b: &[Literal],
) -> Result<Vec<Literal>, GateFault>
    requires a { IsWord gates.old.variables a.now }
    requires b { IsWord gates.old.variables b.now }
    ensures made { IfOk result (λ word.
        one_bit (negation (equal_bit a.now b.now)) gates.old ≡ (gates.new, word.items)) }
    ensures within { IfOk result (λ word. IsWord gates.new.variables word.items) }
    ensures begins { Begins gates.old gates.new }
    ensures full { IsErrOf result GateFault.Full
        → most_variables < ((equal_bit a.now b.now gates.old).0).variables }
{
    let bit = equal(gates, a, b)?;
    Ok(one_bit(alloc, bit.negated())?)
}

// A word moved down by an amount, with copies of the highest bit in a signed type.
fn sign_shifted(
    alloc: Global,
    gates: &mut Gates,
    signed: bool,
    a: &[Literal],
    b: &[Literal],
) -> Result<Vec<Literal>, GateFault>
    requires a { IsWord gates.old.variables a.now }
    requires b { IsWord gates.old.variables b.now }
    ensures made { IfOk result (λ word. shifted_word (moved_down (sign_fill signed a.now)) a.now
        b.now gates.old ≡ (gates.new, word.items)) }
    ensures within { IfOk result (λ word. IsWord gates.new.variables word.items) }
    ensures begins { Begins gates.old gates.new }
    ensures full { IsErrOf result GateFault.Full → most_variables
        < ((shifted_word (moved_down (sign_fill signed a.now)) a.now b.now gates.old).0).variables }
{
    let _false = falsity(gates);
    shifted(alloc, gates, Direction::Down, sign_fill(signed, a), a, b)
}

// A word moved by an amount, with false in the bits that it leaves.
fn zero_shifted(
    alloc: Global,
    gates: &mut Gates,
    direction: Direction,
    a: &[Literal],
    b: &[Literal],
) -> Result<Vec<Literal>, GateFault>
    requires a { IsWord gates.old.variables a.now }
    requires b { IsWord gates.old.variables b.now }
    ensures made { IfOk result (λ word. shifted_word (move_of direction false_literal) a.now b.now
        gates.old ≡ (gates.new, word.items)) }
    ensures within { IfOk result (λ word. IsWord gates.new.variables word.items) }
    ensures begins { Begins gates.old gates.new }
    ensures full { IsErrOf result GateFault.Full → most_variables
        < ((shifted_word (move_of direction false_literal) a.now b.now gates.old).0).variables }
{
    let fill = falsity(gates);
    shifted(alloc, gates, direction, fill, a, b)
}

/// The word of a binary operator: at the left operand's length, or one bit. Both operands of `&&`
/// and `||` are one bit each, which says whether they are not 0. `/` and `%` have the empty word.
/// `Full` says that variables ran out, `OutOfMemory` that memory did; then some gates may stay.
pub fn binary(
    alloc: Global,
    gates: &mut Gates,
    op: BinOp,
    signed: bool,
    a: &[Literal],
    b: &[Literal],
) -> Result<Vec<Literal>, GateFault>
    requires a { IsWord gates.old.variables a.now }
    requires b { IsWord gates.old.variables b.now }
    ensures made { IfOk result (λ word.
        binary_word op signed a.now b.now gates.old ≡ (gates.new, word.items)) }
    ensures within { IfOk result (λ word. IsWord gates.new.variables word.items) }
    ensures begins { Begins gates.old gates.new }
    ensures full { IsErrOf result GateFault.Full
        → most_variables < ((binary_word op signed a.now b.now gates.old).0).variables }
{
    macro_rules! arms {
        ($($name:ident => $value:expr),* $(,)?) => {
            match op {
                $(BinOp::$name => $value,)*
            }
        };
    }
    arms!(
        Mul => product(alloc, gates, a, b),
        Div => Ok(Vec::new(alloc)),
        Rem => Ok(Vec::new(alloc)),
        Add => sum(alloc, gates, a, b),
        Sub => difference(alloc, gates, a, b),
        Shl => zero_shifted(alloc, gates, Direction::Up, a, b),
        Shr => zero_shifted(alloc, gates, Direction::Down, a, b),
        SignShl => zero_shifted(alloc, gates, Direction::Up, a, b),
        SignShr => sign_shifted(alloc, gates, signed, a, b),
        Lt => less_word(alloc, gates, signed, a, b),
        Le => not_less_word(alloc, gates, signed, b, a),
        Gt => less_word(alloc, gates, signed, b, a),
        Ge => not_less_word(alloc, gates, signed, a, b),
        Eq => equal_word(alloc, gates, a, b),
        Ne => unequal_word(alloc, gates, a, b),
        And => bitwise(alloc, gates, BitGate::And, a, b),
        Xor => bitwise(alloc, gates, BitGate::Xor, a, b),
        Xnor => bitwise(alloc, gates, BitGate::Xnor, a, b),
        Or => bitwise(alloc, gates, BitGate::Or, a, b),
        LogicAnd => bitwise(alloc, gates, BitGate::And, a, b),
        LogicOr => bitwise(alloc, gates, BitGate::Or, a, b),
    )
}
