// One step of the first walk: an expression from its measured operands.
ghost use Rattle.std.specs.Prelude.{◌≡◌, ◌≤◌, ◌*◌, ◌↔◌, ◌<◌, false, true, Ok, IfOk, OnOk, IfErr};
ghost use Rattle.std.specs.Prelude.{IsSome, IfSome, IsTrue, Some, None, if◌then◌else◌};
ghost use Rattle.sv_num.specs.Vectors.{width_of, is_signed, value_of, number_of};
ghost use Rattle.sv_ast.specs.Views.{expression_tree, expression_trees, parts_of as tree_parts};
ghost use Rattle.sv_ast.specs.Values.{natural};
ghost use Rattle.sv_num.specs.Parts.{span_of};
ghost use Rattle.sv_ast.specs.GrammarModules.{place_of};
ghost use Rattle.sv_elab_rules.specs.Walks.{ask};
ghost use Rattle.sv_elab_rules.specs.Rules.{bad_select};
ghost use Rattle.sv_elab_rules.specs.ExpressionSteps.{is_below, is_part, is_sized, sized_parts};
ghost use Rattle.sv_width.specs.Answers.{IsBreach};
ghost use Rattle.sv_width.specs.Measured as measured;
ghost use Rattle.sv_width.specs.Measured.{own_form};
ghost use Rattle.sv_width.specs.Outcomes.{some_named, unary_own, binary_own, choice_own, join_own};
ghost use Rattle.sv_width.specs.Outcomes.{division_steps, join_steps, replication_steps};
ghost use Rattle.sv_width.specs.Answers.{whole_part};
ghost use Rattle.sv_width.specs.Pushed.{joined_width};
ghost use Rattle.sv_width.specs.Scopes.{Known};
ghost use Rattle.sv_width.specs.Settings.{names_in, is_constant};
ghost use Rattle.sv_width.specs.Views.{measured_tree, measured_trees, parts_of};

use crate::folding::joined_width;
use crate::lookups::{Setting, refusal};
use crate::meanings::KnownSignal;
use crate::measured::{Measured, Own};
use crate::types::{BitType, common, one_bit, result_type};
use std::alloc::Global;
use sv_ast::Expr;
use sv_num::{BinOp, Bits, Fault, OutOfMemory, Place, Rule, UnOp, gives_one_bit, is_division};

/// Where a constant stands inside an expression.
pub fn inside(setting: Setting) -> Setting
    ensures names { (known : Known) → names_in result known ≡ names_in setting known }
    ensures constant { is_constant result ≡ true }
{
    match setting {
        Setting::Open | Setting::Constant => Setting::Constant,
        Setting::Declaring => Setting::Declaring,
    }
}

/// The whole number that a value stands for by its own signedness; None where it is negative.
pub fn natural(bits: Bits) -> Option<u64>
    ensures { result ≡ whole_part (number_of bits) }
{
    if bits.signed() && bits.value() >> (bits.width() - 1) == 1 {
        None
    } else {
        Some(bits.value())
    }
}

/// Whether the number that a value stands for is one from 0 to below the limit.
pub fn is_below(bits: Bits, limit: u8) -> bool
    ensures { result ≡ is_below limit (number_of bits) }
{
    match natural(bits) {
        Some(number) => number < u64::from(limit),
        None => false,
    }
}

/// A bit of a signal, with its index.
pub fn bit(
    alloc: Global,
    known: KnownSignal,
    place: Place,
    index: Measured,
) -> Result<Measured, OutOfMemory>
    ensures found { IfOk result (λ m. measured_tree m ≡ measured.read_bit
        (record { width = 1; signed = false; names_signal = true }) known.signal.0 place
        (measured_tree index)) }
{
    let own = Own {
        of_type: one_bit(),
        names_signal: true,
    };
    Ok(Measured::Bit(own, known.signal, place, Box::new(alloc, index)?))
}

/// A part of a signal. Rule 403 refuses bounds outside of it or in the wrong order.
pub fn part(
    alloc: Global,
    known: KnownSignal,
    place: Place,
    high: Bits,
    low: Bits,
) -> Result<Measured, Fault>
    ensures asked { OnOk result (IsTrue (is_part known.width (number_of high) (number_of low))) }
    ensures found { IfOk result (λ m. measured_tree m ≡ measured.read_part
        (record {
          width = span_of (natural (number_of high)) (natural (number_of low));
          signed = false;
          names_signal = true;
        })
        known.signal.0 place (natural (number_of high)) (natural (number_of low))) }
    ensures broken { IfErr result
        (IsBreach (ask (is_part known.width (number_of high) (number_of low))
        (bad_select place)).end) }
{
    match part_inside(known.width, high, low) {
        Some((high, low)) => Ok(inside_part(known, place, high, low)),
        None => Err(refusal(alloc, Rule::BadSelect, place)),
    }
}

// The part between two numbers.
fn inside_part(known: KnownSignal, place: Place, high: u8, low: u8) -> Measured
    requires inside { high < known.width }
    requires order { low ≤ high }
    ensures { measured_tree result ≡ measured.read_part
        (record { width = span_of high low; signed = false; names_signal = true }) known.signal.0
        place high low }
{
    let of_type = BitType {
        width: high - low + 1,
        signed: false,
    };
    let own = Own {
        of_type,
        names_signal: true,
    };
    Measured::Part(own, known.signal, place, high, low)
}

/// The bounds of a part of so many bits, where it lies inside of them with its high not below its
/// low.
pub fn part_inside(width: u8, high: Bits, low: Bits) -> Option<(u8, u8)>
    ensures inside { IsSome result ↔ IsTrue (is_part width (number_of high) (number_of low)) }
    ensures order { IfSome result (λ p. (p.0 < width) × (p.1 ≤ p.0)) }
    ensures high { IfSome result (λ p. p.0 ≡ natural (number_of high)) }
    ensures low { IfSome result (λ p. p.1 ≡ natural (number_of low)) }
{
    let high = natural(high)?;
    let low = natural(low)?;
    if high < u64::from(width) && low <= high {
        Some((high as u8, low as u8))
    } else {
        None
    }
}

/// A unary operator with its operand.
pub fn unary(alloc: Global, op: UnOp, operand: Measured) -> Result<Measured, OutOfMemory>
    ensures found { IfOk result (λ m.
        measured_tree m ≡ measured.unary (unary_own op (measured_tree operand)) op
        (measured_tree operand)) }
{
    let operand_own = operand.own();
    let of_type = if gives_one_bit(op) {
        one_bit()
    } else {
        operand_own.of_type
    };
    let own = Own {
        of_type,
        names_signal: operand_own.names_signal,
    };
    Ok(Measured::Unary(own, op, Box::new(alloc, operand)?))
}

/// A binary operator with its operands, the right one at the second place. Rule 406 refuses a
/// division of what is not constant.
pub fn binary(
    alloc: Global,
    op: BinOp,
    place: Place,
    after: Place,
    left: Measured,
    right: Measured,
) -> Result<Measured, Fault>
    ensures asked { OnOk result
        ((division_steps op place (measured_tree left) (measured_tree right)).end ≡ Ok tt) }
    ensures found { IfOk result (λ m.
        measured_tree m ≡ measured.binary (binary_own op (measured_tree left) (measured_tree right))
        op after (measured_tree left) (measured_tree right)) }
    ensures broken { IfErr result
        (IsBreach (division_steps op place (measured_tree left) (measured_tree right)).end) }
{
    let left_own = left.own();
    let right_own = right.own();
    let own = Own {
        of_type: result_type(op, left_own.of_type, right_own.of_type),
        names_signal: left_own.names_signal || right_own.names_signal,
    };
    if is_division(op) && own.names_signal {
        return Err(refusal(alloc, Rule::Division, place));
    }
    Ok(Measured::Binary(
        own,
        op,
        after,
        Box::new(alloc, left)?,
        Box::new(alloc, right)?,
    ))
}

/// A choice from its condition and both values.
pub fn choice(
    alloc: Global,
    place: Place,
    cond: Measured,
    yes: Measured,
    no: Measured,
) -> Result<Measured, OutOfMemory>
    ensures found { IfOk result (λ m. measured_tree m ≡ measured.choice
        (choice_own (measured_tree cond) (measured_tree yes) (measured_tree no)) place
        (measured_tree cond) (measured_tree yes) (measured_tree no)) }
{
    let names_signal = cond.own().names_signal || yes.own().names_signal || no.own().names_signal;
    let own = Own {
        of_type: common(yes.own_type(), no.own_type()),
        names_signal,
    };
    Ok(Measured::Choice(
        own,
        place,
        Box::new(alloc, cond)?,
        Box::new(alloc, yes)?,
        Box::new(alloc, no)?,
    ))
}

/// A join of some parts, both as they stand in the text and measured. Rule 402 refuses a length
/// above 64, rule 407 a part that is a number without a written length.
pub fn join(
    alloc: Global,
    place: Place,
    parts: &[Expr],
    operands: Vec<Measured>,
) -> Result<Measured, Fault>
    requires { 1 ≤ joined_width (parts_of (measured_trees operands.items)) }
    ensures asked { OnOk result
        ((join_steps place (tree_parts (expression_trees parts.now))
        (parts_of (measured_trees operands.items))).end ≡ Ok tt) }
    ensures found { IfOk result (λ m. measured_tree m ≡ measured.join
        (join_own (joined_width (parts_of (measured_trees operands.items)))
        (parts_of (measured_trees operands.items)))
        (parts_of (measured_trees operands.items))) }
    ensures broken { IfErr result (IsBreach
        (join_steps place (tree_parts (expression_trees parts.now))
        (parts_of (measured_trees operands.items))).end) }
{
    let width = joined_width(&operands);
    if width > 64 {
        return Err(refusal(alloc, Rule::TooWide, place));
    }
    sized_parts(alloc, parts)?;
    let own = Own {
        of_type: BitType {
            width,
            signed: false,
        },
        names_signal: some_named(&operands),
    };
    Ok(Measured::Join(own, operands))
}

/// A replication of some parts, with the place of its count. Rules 402 and 407 refuse as in a join,
/// then rule 408 a count that is not 1 to 64.
pub fn replication(
    alloc: Global,
    place: Place,
    at: Place,
    count: Bits,
    parts: &[Expr],
    operands: Vec<Measured>,
) -> Result<Measured, Fault>
    requires { 1 ≤ joined_width (parts_of (measured_trees operands.items)) }
    ensures asked { OnOk result
        ((replication_steps place at (number_of count) (tree_parts (expression_trees parts.now))
        (parts_of (measured_trees operands.items))).end ≡ Ok tt) }
    ensures found { IfOk result (λ m. measured_tree m ≡ measured.replication
        (join_own (natural (number_of count) * joined_width
        (parts_of (measured_trees operands.items))) (parts_of (measured_trees operands.items)))
        (natural (number_of count)) (parts_of (measured_trees operands.items))) }
    ensures broken { IfErr result (IsBreach
        (replication_steps place at (number_of count) (tree_parts (expression_trees parts.now))
        (parts_of (measured_trees operands.items))).end) }
{
    let width = joined_width(&operands);
    let times = natural(count).unwrap_or(0);
    if times > u64::from(64 / width) {
        return Err(refusal(alloc, Rule::TooWide, place));
    }
    sized_parts(alloc, parts)?;
    if times == 0 {
        return Err(refusal(alloc, Rule::BadCount, at));
    }
    let own = Own {
        of_type: BitType {
            width: times as u8 * width,
            signed: false,
        },
        names_signal: some_named(&operands),
    };
    Ok(Measured::Repeat(own, times as u8, operands))
}

// Rule 407 refuses a number without a written length that stands directly in a join or replication.
fn sized_parts(alloc: Global, parts: &[Expr]) -> Result<(), Fault>
    ensures asked { OnOk result ((sized_parts (tree_parts (expression_trees parts.now))).end ≡
        Ok tt) }
    ensures broken { IfErr result
        (IsBreach (sized_parts (tree_parts (expression_trees parts.now))).end) }
{
    match parts.iter().find_map(unsized_place) {
        Some(place) => Err(refusal(alloc, Rule::UnsizedPart, place)),
        None => Ok(()),
    }
}

// The place of a number without a written length.
fn unsized_place(part: &Expr) -> Option<Place>
    ensures { let tree = expression_tree part.now in
        result ≡ (if is_sized tree then None else Some (place_of tree)) }
{
    match part {
        Expr::Number(number, place) if !number.sized => Some(*place),
        _ => None,
    }
}

// Whether one of the operands names a signal.
fn some_named(operands: &[Measured]) -> bool
    ensures { result ≡ some_named (parts_of (measured_trees operands.now)) }
{
    operands.iter().any(|operand| operand.names_some_signal())
}
