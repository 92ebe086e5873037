// Expressions in which earlier reads are wanted: such a name is that of the signal's copy.
ghost use Rattle.std.specs.Prelude.{◌≡◌, ◌<◌, ◌≤◌, length, map, true, IsTrue, IfOk};
ghost use Rattle.sv_flat.specs.ByNumber.{signal_forms, AreWords};
ghost use Rattle.sv_flat.specs.Soundness.{well_formed, parts_well_formed};
ghost use Rattle.sv_flat.specs.Views.{typed_tree, typed_trees, node_tree, parts_of};
ghost use Rattle.sv_rules.specs.ReadForms.{read_form};
ghost use Rattle.sv_rules.specs.Surroundings.{in_surrounding};
ghost use Rattle.sv_obl.specs.Exchange.{exchanged_node};
ghost use Rattle.sv_obl.specs.Later.{marked_name};
ghost use Rattle.sv_obl.specs.Wanted.{mark, marked_tree};

use std::alloc::{AllocError, Global};
use sv_flat::{FExpr, FNode, SigId, Signal};
use sv_graph::share;
use sv_rules::{Read, Surrounding, bits_read, indexed, part, whole};

// The name of a signal where some of its bits are read: wanted where one of them can be assigned
// later.
fn named(signals: &[Signal], later: &Surrounding, read: Read) -> SigId
    requires few { length signals.now ≤ 2147483647 }
    requires words { AreWords (signal_forms signals.now) }
    requires known { read.signal.0 < length signals.now }
    ensures { result.0 ≡
        marked_name (signal_forms signals.now) (in_surrounding later.now) (read_form read) }
{
    let signal = read.signal;
    let bits = bits_read(signals[signal.0 as usize].width, &read);
    if share(bits, later.of(signal)) {
        SigId(signals.len() as u32 + signal.0)
    } else {
        signal
    }
}

/// The expression in which earlier reads are wanted, where some bits can be assigned later.
#[cycle(marked)]
pub fn marked_expr(
    expr: &FExpr,
    alloc: Global,
    signals: &[Signal],
    later: &Surrounding,
) -> Result<FExpr, AllocError>
    requires few { length signals.now ≤ 2147483647 }
    requires words { AreWords (signal_forms signals.now) }
    requires formed { IsTrue (well_formed (signal_forms signals.now) (typed_tree expr.now)) }
    ensures { IfOk result (λ made. typed_tree made ≡
        marked_tree (signal_forms signals.now) true (in_surrounding later.now)
        (typed_tree expr.now)) }
{
    Ok(FExpr {
        width: expr.width,
        signed: expr.signed,
        node: marked_node(expr, alloc, signals, later)?,
    })
}

#[cycle(marked)]
fn marked_node(
    expr: &FExpr,
    alloc: Global,
    signals: &[Signal],
    later: &Surrounding,
) -> Result<FNode, AllocError>
    requires few { length signals.now ≤ 2147483647 }
    requires words { AreWords (signal_forms signals.now) }
    requires formed { IsTrue (well_formed (signal_forms signals.now) (typed_tree expr.now)) }
    ensures { let signals = signal_forms signals.now in
        IfOk result (λ made. node_tree made ≡
        exchanged_node signals (mark signals true (in_surrounding later.now))
        (node_tree expr.now.node)) }
{
    match &expr.node {
        FNode::Number(value) => Ok(FNode::Number(*value)),
        FNode::Signal(signal, place) => Ok(FNode::Signal(
            named(signals, later, whole(signals, *signal, *place)),
            *place,
        )),
        FNode::Bit(signal, place, index) => Ok(FNode::Bit(
            named(signals, later, indexed(signals, *signal, *place, index)),
            *place,
            marked_box(index, alloc, signals, later)?,
        )),
        FNode::Part(signal, place, high, low) => Ok(FNode::Part(
            named(signals, later, part(*signal, *place, *high, *low)),
            *place,
            *high,
            *low,
        )),
        FNode::Unary(op, operand) => Ok(FNode::Unary(
            *op,
            marked_box(operand, alloc, signals, later)?,
        )),
        FNode::Binary(op, left, right) => Ok(FNode::Binary(
            *op,
            marked_box(left, alloc, signals, later)?,
            marked_box(right, alloc, signals, later)?,
        )),
        FNode::Choice(place, cond, yes, no) => Ok(FNode::Choice(
            *place,
            marked_box(cond, alloc, signals, later)?,
            marked_box(yes, alloc, signals, later)?,
            marked_box(no, alloc, signals, later)?,
        )),
        FNode::Join(parts) => Ok(FNode::Join(marked_parts(parts, alloc, signals, later)?)),
        FNode::Repeat(count, parts) => Ok(FNode::Repeat(
            *count,
            marked_parts(parts, alloc, signals, later)?,
        )),
        FNode::Held(signal, value) => Ok(FNode::Held(
            *signal,
            marked_box(value, alloc, signals, later)?,
        )),
        FNode::HeldBit(signal, place, value, index) => Ok(FNode::HeldBit(
            *signal,
            *place,
            marked_box(value, alloc, signals, later)?,
            marked_box(index, alloc, signals, later)?,
        )),
        FNode::HeldPart(signal, place, value, high, low) => Ok(FNode::HeldPart(
            *signal,
            *place,
            marked_box(value, alloc, signals, later)?,
            *high,
            *low,
        )),
        FNode::Mend(signal, old, high, low, piece) => Ok(FNode::Mend(
            *signal,
            marked_box(old, alloc, signals, later)?,
            *high,
            *low,
            marked_box(piece, alloc, signals, later)?,
        )),
        FNode::Slice(value, high, low) => Ok(FNode::Slice(
            marked_box(value, alloc, signals, later)?,
            *high,
            *low,
        )),
    }
}

#[cycle(marked)]
fn marked_box(
    expr: &FExpr,
    alloc: Global,
    signals: &[Signal],
    later: &Surrounding,
) -> Result<Box<FExpr>, AllocError>
    requires few { length signals.now ≤ 2147483647 }
    requires words { AreWords (signal_forms signals.now) }
    requires formed { IsTrue (well_formed (signal_forms signals.now) (typed_tree expr.now)) }
    ensures { IfOk result (λ made. typed_tree made.value ≡
        marked_tree (signal_forms signals.now) true (in_surrounding later.now)
        (typed_tree expr.now)) }
{
    Ok(Box::new(alloc, marked_expr(expr, alloc, signals, later)?)?)
}

#[cycle(marked)]
fn marked_parts(
    exprs: &[FExpr],
    alloc: Global,
    signals: &[Signal],
    later: &Surrounding,
) -> Result<Vec<FExpr>, AllocError>
    requires few { length signals.now ≤ 2147483647 }
    requires words { AreWords (signal_forms signals.now) }
    requires formed { IsTrue
        (parts_well_formed (signal_forms signals.now) (parts_of (typed_trees exprs.now))) }
    ensures { IfOk result (λ made. typed_trees made.items ≡ map
        (marked_tree (signal_forms signals.now) true (in_surrounding later.now))
        (typed_trees exprs.now)) }
{
    let mut parts = Vec::with_capacity(alloc, exprs.len())?;
    for expr in exprs {
        parts.push(marked_expr(expr, alloc, signals, later)?)?;
    }
    Ok(parts)
}
