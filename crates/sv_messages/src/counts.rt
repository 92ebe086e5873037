// How many paths lead to a signal, how much is put into one of them, and how many obligations a
// design has, where they exceed a limit: each part of a body is counted once.
ghost use Rattle.std.specs.Prelude.{◌≡◌, ◌<◌, length};
ghost use Rattle.sv_flat.specs.Views.{design_of};
ghost use Rattle.sv_obl.specs.MarkedBodies.{AreBodiesOf};

use std::alloc::{AllocError, Global};
use sv_design::Design;
use sv_flat::{FExpr, FNode, Piece, SigId, Signal};
use sv_lattice::{Label, LabelMap, Point};
use sv_obl::{Bodies, BodySlice};

/// What is counted of paths: how many they are, and how many nodes are put into the one into which
/// most are put.
#[derive(Clone, Copy)]
pub struct PathCounts {
    pub count: u64,
    pub nodes: u64,
}

const NONE: PathCounts = PathCounts { count: 0, nodes: 0 };

impl PathCounts {
    // These and others.
    fn with(self, others: PathCounts) -> PathCounts {
        PathCounts {
            count: self.count.saturating_add(others.count),
            nodes: self.nodes.max(others.nodes),
        }
    }

    // These, with so many nodes put into each.
    fn put(self, nodes: u64) -> PathCounts {
        if self.count == 0 {
            return NONE;
        }
        PathCounts {
            count: self.count,
            nodes: self.nodes.saturating_add(nodes),
        }
    }

    // So many in place of each.
    fn split(self, ways: u64) -> PathCounts {
        PathCounts {
            count: self.count.saturating_mul(ways),
            nodes: self.nodes,
        }
    }
}

// The paths from a place of a body to its end: those that assign nothing yet, those that assign a
// part and take what stands before, and those that take nothing before.
#[derive(Clone, Copy)]
struct Fronts {
    bare: PathCounts,
    partial: PathCounts,
    whole: PathCounts,
}

const NO_FRONTS: Fronts = Fronts {
    bare: NONE,
    partial: NONE,
    whole: NONE,
};

impl Fronts {
    fn all(self) -> PathCounts {
        self.bare.with(self.partial).with(self.whole)
    }

    fn with(self, others: Fronts) -> Fronts {
        Fronts {
            bare: self.bare.with(others.bare),
            partial: self.partial.with(others.partial),
            whole: self.whole.with(others.whole),
        }
    }
}

// A sum of counts.
fn sum(first: u64, second: u64) -> u64 {
    first.saturating_add(second)
}

// The nodes of an expression.
#[cycle(nodes_in)]
fn nodes_in(expr: &FExpr) -> u64 {
    sum(1, nodes_under(&expr.node))
}

#[cycle(nodes_in)]
fn nodes_under(node: &FNode) -> u64 {
    match node {
        FNode::Number(_) | FNode::Signal(_, _) | FNode::Part(_, _, _, _) => 0,
        FNode::Bit(_, _, value)
        | FNode::Unary(_, value)
        | FNode::Held(_, value)
        | FNode::HeldPart(_, _, value, _, _)
        | FNode::Slice(value, _, _) => nodes_in(value),
        FNode::Binary(_, first, second)
        | FNode::HeldBit(_, _, first, second)
        | FNode::Mend(_, first, _, _, second) => sum(nodes_in(first), nodes_in(second)),
        FNode::Choice(_, cond, yes, no) => { sum(sum(nodes_in(cond), nodes_in(yes)), nodes_in(no)) }
        FNode::Join(parts) => nodes_in_parts(parts),
        FNode::Repeat(_, parts) => nodes_in_parts(parts),
    }
}

#[cycle(nodes_in)]
fn nodes_in_parts(parts: &[FExpr]) -> u64 {
    let mut total = 0;
    for part in parts {
        total = sum(total, nodes_in(part));
    }
    total
}

// The values between which the choices at the top of a right side choose.
#[cycle(ways_of)]
fn ways_of(right: &FExpr) -> u64 {
    match &right.node {
        FNode::Choice(_, _, yes, no) => sum(ways_of(yes), ways_of(no)),
        _ => 1,
    }
}

// Whether one of the pieces is the whole target.
fn covers(signals: &[Signal], target: SigId, pieces: &[Piece]) -> bool {
    let width = match signals.get(target.0 as usize) {
        Some(signal) => u32::from(signal.width),
        None => 0,
    };
    for piece in pieces {
        if piece.signal == target && piece.low == 0 && u32::from(piece.high) + 1 == width {
            return true;
        }
    }
    false
}

// How many of the pieces are bits of the target.
fn count_of(target: SigId, pieces: &[Piece]) -> u64 {
    let mut count = 0u64;
    for piece in pieces {
        if piece.signal == target {
            count = sum(count, 1);
        }
    }
    count
}

// The paths once an assignment stands before them. One of the whole target is put in where a part
// was assigned, and is split by its choices where nothing was.
fn with_right(
    signals: &[Signal],
    target: SigId,
    pieces: &[Piece],
    right: &FExpr,
    behind: Fronts,
) -> Fronts {
    let nodes = count_of(target, pieces).saturating_mul(nodes_in(right));
    let partial = behind.partial.put(nodes);
    if covers(signals, target, pieces) {
        let split = behind.bare.split(ways_of(right));
        return Fronts {
            bare: NONE,
            partial: NONE,
            whole: behind.whole.with(split).with(partial),
        };
    }
    Fronts {
        bare: NONE,
        partial: behind.bare.put(nodes).with(partial),
        whole: behind.whole,
    }
}

// The paths once a slice of the body stands before them. No call goes down a chain of arms, since a
// `case` may have many.
fn with_slice(slice: &BodySlice, signals: &[Signal], target: SigId, behind: Fronts) -> Fronts {
    let mut found = NO_FRONTS;
    let mut paths = behind;
    let mut rest = slice;
    'parts: loop {
        match rest {
            BodySlice::Nothing => return found.with(paths),
            BodySlice::Assign { pieces, value, .. } => {
                return found.with(with_right(signals, target, *pieces, *value, paths));
            }
            BodySlice::Chain { first, second } => {
                paths = with_slice(second, signals, target, paths);
                rest = first;
            }
            BodySlice::Branch { yes, no, .. } => {
                found.whole = found.whole.with(paths.whole);
                paths.whole = NONE;
                found = found.with(with_slice(yes, signals, target, paths));
                rest = no;
            }
        }
    }
}

// The paths to a target.
fn paths_in(slice: &BodySlice, signals: &[Signal], target: SigId) -> PathCounts {
    let end = Fronts {
        bare: PathCounts { count: 1, nodes: 0 },
        partial: NONE,
        whole: NONE,
    };
    with_slice(slice, signals, target, end).all()
}

// The paths to a target, from its slice of the body that drives it; none where no body does. They
// are not known where the body has an earlier read, for which its other parts are taken too.
fn paths_by(
    alloc: Global,
    design: &Design,
    bodies: &Bodies,
    target: SigId,
) -> Result<Option<PathCounts>, AllocError>
    requires known { target.0 < length design.now.signals.items }
    requires bodies { AreBodiesOf (design_of design.now) bodies.now }
{
    if design.driver(target).is_none() {
        return Ok(Some(NONE));
    }
    if bodies.marked(design, target).is_some() {
        return Ok(None);
    }
    let slice = bodies.slice(alloc, design, target)?;
    Ok(Some(paths_in(&slice, design.signals(), target)))
}

/// The paths to the signal of a name, where they are known.
pub fn paths_to(
    alloc: Global,
    design: &Design,
    name: &[u8],
) -> Result<Option<PathCounts>, AllocError> {
    let bodies = Bodies::new(alloc, design)?;
    for s in 0..number_of(design) {
        if is_named(design, s, name) {
            return paths_by(alloc, design, &bodies, SigId(s));
        }
    }
    Ok(None)
}

// How many signals there are.
fn number_of(design: &Design) -> u32
    ensures { result ≡ length design.now.signals.items }
{
    design.signals().len() as u32
}

fn is_named(design: &Design, s: u32, name: &[u8]) -> bool {
    match design.signals().get(s as usize) {
        Some(signal) => signal.name.bytes() == name,
        None => false,
    }
}

/// How many obligations a design has, where all its paths are known: these, and those selectors of
/// labels that may tell something.
pub fn obligations_of(alloc: Global, design: &Design) -> Result<Option<u64>, AllocError> {
    let bodies = Bodies::new(alloc, design)?;
    let mut count = 0u64;
    for s in 0..number_of(design) {
        let Some(paths) = paths_by(alloc, design, &bodies, SigId(s))? else {
            return Ok(None);
        };
        count = sum(count, paths.count);
    }
    for signal in design.signals() {
        count = sum(count, selectors_of(design, &signal.label));
    }
    Ok(Some(count))
}

// How many obligations the selectors of a label have.
fn selectors_of(design: &Design, label: &Label) -> u64 {
    match label {
        Label::Point(_) => 0,
        Label::Table { map, first, second } => {
            let of_second = match second {
                Some(second) => asked_of(design, *map, *second),
                None => 0,
            };
            sum(asked_of(design, *map, *first), of_second)
        }
    }
}

// One where the selector has an obligation: where its own label is no point that flows to every
// row.
fn asked_of(design: &Design, map: u32, selector: u32) -> u64 {
    let (Some(map), Some(signal)) = (
        design.maps().get(map as usize),
        design.signals().get(selector as usize),
    ) else {
        return 0;
    };
    match signal.label {
        Label::Point(point) if flows_to_rows(design, point, map) => 0,
        _ => 1,
    }
}

// Whether a point flows to every row of a map.
fn flows_to_rows(design: &Design, point: Point, map: &LabelMap) -> bool {
    let lattice = design.lattice();
    if u32::from(point.0) >= lattice.size() {
        return false;
    }
    for row in map.rows() {
        if u32::from(row.0) >= lattice.size() || !lattice.flows(point, *row) {
            return false;
        }
    }
    true
}
