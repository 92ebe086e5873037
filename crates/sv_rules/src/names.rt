// The names in an expression.
ghost use Rattle.std.specs.Prelude.{◌≡◌, ◌<◌, ◌≤◌, ◌^◌, ℕ, ◌&&◌, nat_le, nat_lt, ◌++◌, [], ◌∷◌};
ghost use Rattle.std.specs.Prelude.{length, IsTrue, IfOk, OnOk};
ghost use Rattle.sv_num.specs.Vectors.{as_number, is_negative};
ghost use Rattle.sv_flat.specs.ByNumber.{signal_forms};
ghost use Rattle.sv_flat.specs.Readings.{whole_read, bit_read, indexed_read, reads, parts_reads};
ghost use Rattle.sv_flat.specs.Soundness.{well_formed, parts_well_formed};
ghost use Rattle.sv_flat.specs.Views.{typed_tree, typed_trees, parts_of};
ghost use Rattle.sv_graph.specs.BitSets.{is_set};
ghost use Rattle.sv_rules.specs.ReadForms.{read_form, read_forms};

use std::alloc::{AllocError, Global};
use sv_flat::{FExpr, FNode, SigId, Signal, constant_value};
use sv_graph::mask;
use sv_num::Place;

/// A name in an expression: its signal, its place, and from which bit down to which it is read;
/// none are where the first is below the last.
#[derive(Clone, Copy)]
pub struct Read {
    pub signal: SigId,
    pub place: Place,
    pub high: u64,
    pub low: u64,
}

/// The whole signal.
pub fn whole(signals: &[Signal], signal: SigId, place: Place) -> Read
    requires { signal.0 < length signals.now }
    ensures read { read_form result ≡ whole_read (signal_forms signals.now) signal.0 place }
    ensures signal { result.signal.0 ≡ signal.0 }
{
    let width = u64::from(signals[signal.0 as usize].width);
    Read {
        signal,
        place,
        high: width.saturating_sub(1),
        low: 0,
    }
}

/// Whether the number of a length stands for one below 0: in a signed type numbers are in
/// two's-complement form (IEEE 1364-2005, clause 3.5.1).
pub fn is_below_zero(number: u64, length: u8, signed: bool) -> bool
    requires some { 1 ≤ length }
    requires few { length ≤ 64 }
    requires low { number < 2 ^ length }
    ensures { result ≡ is_negative length signed number }
{
    signed && number >> (length - 1) == 1
}

// The bit at a constant index of a length and signedness.
fn one_bit(signal: SigId, place: Place, number: u64, length: u8, signed: bool) -> Read
    requires some { 1 ≤ length }
    requires few { length ≤ 64 }
    requires low { number < 2 ^ length }
    ensures read { read_form result ≡ bit_read signal.0 place (as_number length signed number) }
    ensures signal { result.signal.0 ≡ signal.0 }
{
    if is_below_zero(number, length, signed) {
        Read {
            signal,
            place,
            high: 0,
            low: 1,
        }
    } else {
        Read {
            signal,
            place,
            high: number,
            low: number,
        }
    }
}

/// The bit at an index, or the whole signal where the index names a signal.
pub fn indexed(signals: &[Signal], signal: SigId, place: Place, index: &FExpr) -> Read
    requires known { signal.0 < length signals.now }
    requires formed { IsTrue (well_formed (signal_forms signals.now) (typed_tree index.now)) }
    ensures read { read_form result ≡
        indexed_read (signal_forms signals.now) signal.0 place (typed_tree index.now) }
    ensures signal { result.signal.0 ≡ signal.0 }
{
    match constant_value(index) {
        Some(number) => one_bit(signal, place, number, index.width, index.signed),
        None => whole(signals, signal, place),
    }
}

/// The bits from one down to another.
pub fn part(signal: SigId, place: Place, high: u8, low: u8) -> Read
    ensures read { read_form result ≡
        record { signal = signal.0; place = place; high = high; low = low } }
    ensures signal { result.signal.0 ≡ signal.0 }
{
    Read {
        signal,
        place,
        high: u64::from(high),
        low: u64::from(low),
    }
}

/// The bits of a signal of some width that are read, as a number.
pub fn bits_read(width: u8, read: &Read) -> u64
    requires { width ≤ 64 }
    ensures { (b : ℕ) → is_set result b ≡
        (nat_le read.now.low b && nat_le b read.now.high && nat_lt b width) }
{
    let width = u64::from(width);
    if read.low > read.high || read.low >= width {
        0
    } else if read.high < width {
        mask(read.high as u8, read.low as u8)
    } else {
        mask(width as u8 - 1, read.low as u8)
    }
}

/// Adds the names in an expression, in textual order.
#[cycle(add_names)]
pub fn add_names(signals: &[Signal], expr: &FExpr, names: &mut Vec<Read>) -> Result<(), AllocError>
    requires { IsTrue (well_formed (signal_forms signals.now) (typed_tree expr.now)) }
    ensures { OnOk result (read_forms names.new.items ≡
        read_forms names.old.items ++ reads (signal_forms signals.now) (typed_tree expr.now)) }
{
    match &expr.node {
        FNode::Number(_) => Ok(()),
        FNode::Signal(signal, place) => {
            names.push(whole(signals, *signal, *place))?;
            Ok(())
        }
        FNode::Bit(signal, place, index) => {
            names.push(indexed(signals, *signal, *place, index))?;
            add_names(signals, index, names)
        }
        FNode::Part(signal, place, high, low) => {
            names.push(part(*signal, *place, *high, *low))?;
            Ok(())
        }
        FNode::Unary(_, value)
        | FNode::Held(_, value)
        | FNode::HeldPart(_, _, value, _, _)
        | FNode::Slice(value, _, _) => add_names(signals, value, names),
        FNode::Binary(_, first, second)
        | FNode::HeldBit(_, _, first, second)
        | FNode::Mend(_, first, _, _, second) => {
            add_names(signals, first, names)?;
            add_names(signals, second, names)
        }
        FNode::Choice(_, cond, yes, no) => {
            add_names(signals, cond, names)?;
            add_names(signals, yes, names)?;
            add_names(signals, no, names)
        }
        FNode::Join(parts) => add_all_names(signals, parts, names),
        FNode::Repeat(_, parts) => add_all_names(signals, parts, names),
    }
}

// Adds the names in some expressions, in textual order.
#[cycle(add_names)]
fn add_all_names(
    signals: &[Signal],
    exprs: &[FExpr],
    names: &mut Vec<Read>,
) -> Result<(), AllocError>
    requires { IsTrue
        (parts_well_formed (signal_forms signals.now) (parts_of (typed_trees exprs.now))) }
    ensures { OnOk result (read_forms names.new.items ≡
        read_forms names.old.items ++ parts_reads (signal_forms signals.now)
        (parts_of (typed_trees exprs.now))) }
{
    for expr in exprs {
        add_names(signals, expr, names)?;
    }
    Ok(())
}

/// The names in an expression, in textual order.
pub fn names_in(alloc: Global, signals: &[Signal], expr: &FExpr) -> Result<Vec<Read>, AllocError>
    requires { IsTrue (well_formed (signal_forms signals.now) (typed_tree expr.now)) }
    ensures { IfOk result (λ names.
        read_forms names.items ≡ reads (signal_forms signals.now) (typed_tree expr.now)) }
{
    let mut names = Vec::new(alloc);
    add_names(signals, expr, &mut names)?;
    Ok(names)
}
