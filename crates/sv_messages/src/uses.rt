// Where signals of a flat design are read, driven and linked.
use sv_flat::{FExpr, FNode, FStmt, Flat, Piece, ProcKind, Process};
use sv_num::Place;

/// The place of the first name of a signal in an expression.
#[cycle(named_at)]
pub fn named_at(expr: &FExpr, signal: usize) -> Option<Place> {
    match &expr.node {
        FNode::Number(_) => None,
        FNode::Signal(named, place) => place_if(named.0 as usize == signal, *place),
        FNode::Bit(named, place, index) => {
            let of_index = named_at(index, signal);
            earlier(place_if(named.0 as usize == signal, *place), of_index)
        }
        FNode::Part(named, place, _, _) => place_if(named.0 as usize == signal, *place),
        FNode::Unary(_, operand) => named_at(operand, signal),
        FNode::Binary(_, left, right) => earlier(named_at(left, signal), named_at(right, signal)),
        FNode::Choice(_, cond, yes, no) => {
            let of_values = earlier(named_at(yes, signal), named_at(no, signal));
            earlier(named_at(cond, signal), of_values)
        }
        FNode::Join(parts) => some_named_at(parts, signal),
        FNode::Repeat(_, parts) => some_named_at(parts, signal),
        FNode::Held(_, value) => named_at(value, signal),
        FNode::HeldBit(_, _, value, index) => {
            earlier(named_at(value, signal), named_at(index, signal))
        }
        FNode::HeldPart(_, _, value, _, _) => named_at(value, signal),
        FNode::Mend(_, old, _, _, piece) => earlier(named_at(old, signal), named_at(piece, signal)),
        FNode::Slice(value, _, _) => named_at(value, signal),
    }
}

// The same in some expressions.
#[cycle(named_at)]
fn some_named_at(exprs: &[FExpr], signal: usize) -> Option<Place> {
    for expr in exprs {
        if let Some(place) = named_at(expr, signal) {
            return Some(place);
        }
    }
    None
}

fn place_if(is_there: bool, place: Place) -> Option<Place> {
    if is_there { Some(place) } else { None }
}

// The first of two that there is.
fn earlier(first: Option<Place>, second: Option<Place>) -> Option<Place> {
    match first {
        Some(place) => Some(place),
        None => second,
    }
}

/// How a statement uses a signal.
#[derive(Clone, Copy)]
pub enum Usage {
    /// It reads it.
    Read,
    /// It assigns it.
    Driven,
}

/// The place of the first name of a signal that a statement reads, or of its first target that is
/// of the signal.
#[cycle(used_at)]
pub fn used_at(stmt: &FStmt, usage: Usage, signal: usize) -> Option<Place> {
    match stmt {
        FStmt::Assign { pieces, value, .. } => match usage {
            Usage::Read => named_at(value, signal),
            Usage::Driven => piece_of(pieces, signal),
        },
        FStmt::Block(stmts) => some_used_at(stmts, usage, signal),
        FStmt::If { cond, yes, no, .. } => {
            let in_arms = earlier(used_at(yes, usage, signal), used_at(no, usage, signal));
            match usage {
                Usage::Read => earlier(named_at(cond, signal), in_arms),
                Usage::Driven => in_arms,
            }
        }
    }
}

#[cycle(used_at)]
fn some_used_at(stmts: &[FStmt], usage: Usage, signal: usize) -> Option<Place> {
    for stmt in stmts {
        if let Some(place) = used_at(stmt, usage, signal) {
            return Some(place);
        }
    }
    None
}

// The place of the first of the pieces that is of the signal.
fn piece_of(pieces: &[Piece], signal: usize) -> Option<Place> {
    for piece in pieces {
        if piece.signal.0 as usize == signal {
            return Some(piece.place);
        }
    }
    None
}

/// A link by a whole name to an input port: the port and the signal that is linked to it.
#[derive(Clone, Copy)]
pub struct SourceLink {
    pub port: usize,
    pub source: usize,
}

/// The link that a process is, if it is one by a whole name to an input port.
pub fn link_in(process: &Process) -> Option<SourceLink> {
    if process.kind != ProcKind::PortIn {
        return None;
    }
    let FStmt::Assign { pieces, value, .. } = &process.body else {
        return None;
    };
    let [piece] = pieces.as_slice() else {
        return None;
    };
    match value.node {
        FNode::Signal(source, _) => Some(SourceLink {
            port: piece.signal.0 as usize,
            source: source.0 as usize,
        }),
        _ => None,
    }
}

/// The number of the signal of a name.
pub fn signal_named(flat: &Flat, name: &[u8]) -> Option<usize> {
    for (number, signal) in flat.signals.iter().enumerate() {
        if signal.name.bytes() == name {
            return Some(number);
        }
    }
    None
}
