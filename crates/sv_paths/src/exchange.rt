// Values put into an expression for the names that are wanted in it.
ghost use Rattle.std.specs.Prelude.{◌≡◌, ◌≤◌, ◌<◌, ◌+◌, [], length, map, IfOk};
ghost use Rattle.std.specs.List.{list_any};
ghost use Rattle.sv_flat.specs.ByNumber.{signal_forms};
ghost use Rattle.sv_flat.specs.Design.{typed};
ghost use Rattle.sv_flat.specs.Readings.{ReadForm, parts_reads};
ghost use Rattle.sv_flat.specs.Values.{signal_of, signal_width};
ghost use Rattle.sv_flat.specs.Views.{typed_tree, typed_trees, node_tree, parts_of, piece_form};
ghost use Rattle.sv_obl.specs.Exchange.{exchanged, exchanged_node, for_whole, for_bit, for_part};
ghost use Rattle.sv_paths.specs.PutIn.{put_for, is_put_for, value_put, found_for, AreInWords};
ghost use Rattle.sv_paths.specs.PutIn.{CanBePut, is_put_at, names_put};
ghost use Rattle.sv_obl.specs.Routes.{signals_of_reads};
ghost use Rattle.sv_obl.specs.Views.{piece_forms};
ghost use Rattle.sv_obl.specs.Wanted.{with_copies, piece_value, with_piece_put, put_value};

use crate::levels::is_within;
use crate::pieces::{is_signed, is_whole, width_of};
use std::alloc::{AllocError, Global};
use sv_flat::{FExpr, FNode, Piece, SigId, Signal};
use sv_num::Place;
use sv_obl::is_some_of;

/// What is put for wanted names.
#[derive(Clone, Copy)]
pub enum Put<'p> {
    /// The pieces of a right side, for the names of their signals.
    Pieces(&'p [Piece], &'p FExpr),
    /// 0, for every name, at the beginning of an `always @*`.
    Zero,
}

/// What stands for a name: a value that is read as a signal is.
#[derive(Drop)]
pub struct Content {
    pub signal: SigId,
    pub value: Box<FExpr>,
}

// An expression of a signal's width and sign.
fn of_signal(signals: &[Signal], signal: SigId, node: FNode) -> FExpr
    ensures { typed_tree result ≡ typed (signal_width (signal_forms signals.now) signal.0)
        (signal_of (signal_forms signals.now) signal.0).signed (node_tree node) }
{
    FExpr {
        width: width_of(signals, signal),
        signed: is_signed(signals, signal),
        node,
    }
}

// The piece of a right side.
fn piece_value(alloc: Global, right: &FExpr, piece: &Piece) -> Result<FExpr, AllocError>
    requires ordered { piece.now.low ≤ piece.now.high }
    requires high { piece.now.high < 64 }
    requires from { piece.now.from < 64 }
    ensures { IfOk result (λ value.
        typed_tree value ≡ piece_value (typed_tree right.now) (piece_form piece.now)) }
{
    let value = right.copy(alloc)?;
    if piece.from == 0 {
        return Ok(value);
    }
    let top = piece.from + piece.high - piece.low;
    let node = FNode::Slice(Box::new(alloc, value)?, top, piece.from);
    Ok(FExpr {
        width: piece.high + 1 - piece.low,
        signed: false,
        node,
    })
}

// What stands for a signal's name before a piece is put.
fn with_piece(
    alloc: Global,
    signals: &[Signal],
    right: &FExpr,
    signal: SigId,
    old: FExpr,
    piece: &Piece,
) -> Result<FExpr, AllocError>
    requires ordered { piece.now.low ≤ piece.now.high }
    requires high { piece.now.high < 64 }
    requires from { piece.now.from < 64 }
    ensures { IfOk result (λ value. typed_tree value ≡ with_piece_put (signal_forms signals.now)
        (typed_tree right.now) signal.0 (typed_tree old) (piece_form piece.now)) }
{
    if piece.signal != signal {
        return Ok(old);
    }
    let value = piece_value(alloc, right, piece)?;
    if is_whole(signals, piece) {
        return Ok(value);
    }
    let node = FNode::Mend(
        signal,
        Box::new(alloc, old)?,
        piece.high,
        piece.low,
        Box::new(alloc, value)?,
    );
    Ok(of_signal(signals, signal, node))
}

// The wanted name of a signal, where it stands.
#[derive(Clone, Copy)]
struct WantedName {
    signal: SigId,
    name: SigId,
    place: Place,
}

// What the pieces put for a signal's wanted name.
fn put_value(
    alloc: Global,
    signals: &[Signal],
    pieces: &[Piece],
    right: &FExpr,
    wanted: WantedName,
) -> Result<FExpr, AllocError>
    requires pieces { AreInWords (piece_forms pieces.now) }
    requires wanted { wanted.name.0 ≡ length signals.now + wanted.signal.0 }
    ensures { IfOk result (λ value. typed_tree value ≡ put_value (signal_forms signals.now)
        (piece_forms pieces.now) (typed_tree right.now) wanted.signal.0 wanted.place) }
{
    let signal = wanted.signal;
    let mut value = of_signal(signals, signal, FNode::Signal(wanted.name, wanted.place));
    for piece in pieces {
        value = with_piece(alloc, signals, right, signal, value, piece)?;
    }
    Ok(value)
}

impl<'p> Put<'p> {
    // Whether something is put for the name of a signal.
    fn has(self, signal: SigId) -> bool
        ensures { result ≡ is_put_for self.entry signal.0 }
    {
        match self {
            Put::Pieces(pieces, _) => is_some_of(signal, pieces),
            Put::Zero => true,
        }
    }

    /// Whether something is put for a name, where there are so many signals.
    pub fn has_for(self, count: u32, name: SigId) -> bool
        ensures { result ≡ is_put_at count self.entry name.0 }
    {
        name.0 >= count && self.has(SigId(name.0 - count))
    }

    // What is put for the wanted name of a signal.
    fn value(
        self,
        alloc: Global,
        signals: &[Signal],
        wanted: WantedName,
    ) -> Result<FExpr, AllocError>
        requires put { CanBePut self }
        requires wanted { wanted.name.0 ≡ length signals.now + wanted.signal.0 }
        ensures { IfOk result (λ value. typed_tree value ≡
            value_put (signal_forms signals.now) self.entry wanted.signal.0 wanted.place) }
    {
        match self {
            Put::Pieces(pieces, right) => put_value(alloc, signals, pieces, right, wanted),
            Put::Zero => Ok(of_signal(signals, wanted.signal, FNode::Number(0))),
        }
    }

    // What stands for a name, where it is not itself.
    fn content(
        self,
        alloc: Global,
        signals: &[Signal],
        name: SigId,
        place: Place,
    ) -> Result<Option<Content>, AllocError>
        requires few { length signals.now < 4294967296 }
        requires put { CanBePut self }
        ensures { (r : ReadForm) → r.signal ≡ name.0 → r.place ≡ place
            → IfOk result (λ found. found_for name.0 found ≡
            put_for (signal_forms signals.now) self.entry r) }
    {
        let count = signals.len() as u32;
        if name.0 < count {
            return Ok(None);
        }
        let signal = SigId(name.0 - count);
        if !self.has(signal) {
            return Ok(None);
        }
        let wanted = WantedName {
            signal,
            name,
            place,
        };
        let value = self.value(alloc, signals, wanted)?;
        Ok(Some(Content {
            signal,
            value: Box::new(alloc, value)?,
        }))
    }
}

// Whether something is put for some name in the expression, where there are so many signals.
#[cycle(names_put)]
fn names_put(expr: &FExpr, count: u32, put: Put) -> bool
    ensures { result ≡ names_put count put.entry (typed_tree expr.now) }
{
    match &expr.node {
        FNode::Number(_) => false,
        FNode::Signal(name, _) => put.has_for(count, *name),
        FNode::Bit(name, _, index) => put.has_for(count, *name) || names_put(index, count, put),
        FNode::Part(name, _, _, _) => put.has_for(count, *name),
        FNode::Unary(_, operand) => names_put(operand, count, put),
        FNode::Binary(_, left, right) => {
            names_put(left, count, put) || names_put(right, count, put)
        }
        FNode::Choice(_, cond, yes, no) => {
            names_put(cond, count, put) || names_put(yes, count, put) || names_put(no, count, put)
        }
        FNode::Join(parts) => some_names_put(parts, count, put),
        FNode::Repeat(_, parts) => some_names_put(parts, count, put),
        FNode::Held(_, value) => names_put(value, count, put),
        FNode::HeldBit(_, _, value, index) => {
            names_put(value, count, put) || names_put(index, count, put)
        }
        FNode::HeldPart(_, _, value, _, _) => names_put(value, count, put),
        FNode::Mend(_, old, _, _, piece) => {
            names_put(old, count, put) || names_put(piece, count, put)
        }
        FNode::Slice(value, _, _) => names_put(value, count, put),
    }
}

#[cycle(names_put)]
fn some_names_put(exprs: &[FExpr], count: u32, put: Put) -> bool
    ensures { result ≡ list_any (is_put_at count put.entry)
        (signals_of_reads (parts_reads [] (parts_of (typed_trees exprs.now)))) }
{
    for expr in exprs {
        if names_put(expr, count, put) {
            return true;
        }
    }
    false
}

// What stands for a whole name.
fn for_whole(found: Option<Content>, name: SigId, place: Place) -> FNode
    ensures { node_tree result ≡ for_whole (found_for name.0 found) place }
{
    match found {
        Some(content) => FNode::Held(content.signal, content.value),
        None => FNode::Signal(name, place),
    }
}

// What stands for a bit of it, by an index.
fn for_bit(found: Option<Content>, name: SigId, place: Place, index: Box<FExpr>) -> FNode
    ensures { node_tree result ≡
        for_bit (found_for name.0 found) place (typed_tree index.value) }
{
    match found {
        Some(content) => FNode::HeldBit(content.signal, place, content.value, index),
        None => FNode::Bit(name, place, index),
    }
}

// What stands for a part of it.
fn for_part(found: Option<Content>, name: SigId, place: Place, high: u8, low: u8) -> FNode
    ensures { node_tree result ≡ for_part (found_for name.0 found) place high low }
{
    match found {
        Some(content) => FNode::HeldPart(content.signal, place, content.value, high, low),
        None => FNode::Part(name, place, high, low),
    }
}

// The most levels that an expression nests once something is put into it: what walks through it
// goes as deep as it nests, so one that nests deeper is answered as want of memory.
const MOST_LEVELS: u32 = 4096;

/// The expression with what is put into it; an error where it nests too deep then, or memory runs
/// out. One that names nothing for which something is put stays as it is, after one look.
pub fn with_put(
    expr: FExpr,
    alloc: Global,
    signals: &[Signal],
    put: Put,
) -> Result<FExpr, AllocError>
    requires few { length signals.now < 4294967296 }
    requires put { CanBePut put }
    ensures { IfOk result (λ made. typed_tree made ≡ exchanged
        (with_copies (signal_forms signals.now)) (put_for (signal_forms signals.now) put.entry)
        (typed_tree expr)) }
{
    if !names_put(&expr, signals.len() as u32, put) {
        return Ok(expr);
    }
    let made = exchanged(expr, alloc, signals, put)?;
    if is_within(&made, MOST_LEVELS) {
        Ok(made)
    } else {
        Err(AllocError)
    }
}

// The expression with what is put into it.
#[cycle(exchanged)]
fn exchanged(expr: FExpr, alloc: Global, signals: &[Signal], put: Put) -> Result<FExpr, AllocError>
    requires few { length signals.now < 4294967296 }
    requires put { CanBePut put }
    ensures { IfOk result (λ made. typed_tree made ≡ exchanged
        (with_copies (signal_forms signals.now)) (put_for (signal_forms signals.now) put.entry)
        (typed_tree expr)) }
{
    Ok(FExpr {
        width: expr.width,
        signed: expr.signed,
        node: exchanged_node(expr.node, alloc, signals, put)?,
    })
}

#[cycle(exchanged)]
fn exchanged_node(
    node: FNode,
    alloc: Global,
    signals: &[Signal],
    put: Put,
) -> Result<FNode, AllocError>
    requires few { length signals.now < 4294967296 }
    requires put { CanBePut put }
    ensures { IfOk result (λ made. node_tree made ≡ exchanged_node
        (with_copies (signal_forms signals.now)) (put_for (signal_forms signals.now) put.entry)
        (node_tree node)) }
{
    match node {
        FNode::Number(value) => Ok(FNode::Number(value)),
        FNode::Signal(name, place) => {
            let found = put.content(alloc, signals, name, place)?;
            Ok(for_whole(found, name, place))
        }
        FNode::Bit(name, place, index) => {
            let index = exchanged_box(index, alloc, signals, put)?;
            let found = put.content(alloc, signals, name, place)?;
            Ok(for_bit(found, name, place, index))
        }
        FNode::Part(name, place, high, low) => {
            let found = put.content(alloc, signals, name, place)?;
            Ok(for_part(found, name, place, high, low))
        }
        FNode::Unary(op, operand) => Ok(FNode::Unary(
            op,
            exchanged_box(operand, alloc, signals, put)?,
        )),
        FNode::Binary(op, left, right) => Ok(FNode::Binary(
            op,
            exchanged_box(left, alloc, signals, put)?,
            exchanged_box(right, alloc, signals, put)?,
        )),
        FNode::Choice(place, cond, yes, no) => Ok(FNode::Choice(
            place,
            exchanged_box(cond, alloc, signals, put)?,
            exchanged_box(yes, alloc, signals, put)?,
            exchanged_box(no, alloc, signals, put)?,
        )),
        FNode::Join(parts) => Ok(FNode::Join(exchanged_parts(parts, alloc, signals, put)?)),
        FNode::Repeat(count, parts) => Ok(FNode::Repeat(
            count,
            exchanged_parts(parts, alloc, signals, put)?,
        )),
        FNode::Held(signal, value) => Ok(FNode::Held(
            signal,
            exchanged_box(value, alloc, signals, put)?,
        )),
        FNode::HeldBit(signal, place, value, index) => Ok(FNode::HeldBit(
            signal,
            place,
            exchanged_box(value, alloc, signals, put)?,
            exchanged_box(index, alloc, signals, put)?,
        )),
        FNode::HeldPart(signal, place, value, high, low) => Ok(FNode::HeldPart(
            signal,
            place,
            exchanged_box(value, alloc, signals, put)?,
            high,
            low,
        )),
        FNode::Mend(signal, old, high, low, piece) => Ok(FNode::Mend(
            signal,
            exchanged_box(old, alloc, signals, put)?,
            high,
            low,
            exchanged_box(piece, alloc, signals, put)?,
        )),
        FNode::Slice(value, high, low) => Ok(FNode::Slice(
            exchanged_box(value, alloc, signals, put)?,
            high,
            low,
        )),
    }
}

#[cycle(exchanged)]
fn exchanged_box(
    expr: Box<FExpr>,
    alloc: Global,
    signals: &[Signal],
    put: Put,
) -> Result<Box<FExpr>, AllocError>
    requires few { length signals.now < 4294967296 }
    requires put { CanBePut put }
    ensures { IfOk result (λ made. typed_tree made.value ≡ exchanged
        (with_copies (signal_forms signals.now)) (put_for (signal_forms signals.now) put.entry)
        (typed_tree expr.value)) }
{
    Ok(Box::new(
        alloc,
        exchanged(Box::into_inner(expr), alloc, signals, put)?,
    )?)
}

#[cycle(exchanged)]
fn exchanged_parts(
    exprs: Vec<FExpr>,
    alloc: Global,
    signals: &[Signal],
    put: Put,
) -> Result<Vec<FExpr>, AllocError>
    requires few { length signals.now < 4294967296 }
    requires put { CanBePut put }
    ensures { IfOk result (λ made. typed_trees made.items ≡ map (exchanged
        (with_copies (signal_forms signals.now)) (put_for (signal_forms signals.now) put.entry))
        (typed_trees exprs.items)) }
{
    let mut parts = Vec::with_capacity(alloc, exprs.len())?;
    for expr in exprs {
        parts.push(exchanged(expr, alloc, signals, put)?)?;
    }
    Ok(parts)
}
