// What of a body matters to one target where no read is an earlier one, so that a walk for it asks
// nothing twice.
ghost use Rattle.std.specs.Prelude.{◌≡◌, ℕ, ◌-◌, ◌<◌, [], ◌++◌, map, length, is_some};
ghost use Rattle.std.specs.Prelude.{IsTrue, IfSome, IfOk, OnOk};
ghost use Rattle.std.specs.List.{list_any};
ghost use Rattle.sv_flat.specs.Design.{FlatStatement, assign, branch};
ghost use Rattle.sv_flat.specs.ByNumber.{signal_forms};
ghost use Rattle.sv_flat.specs.Views.{typed_tree, design_of};
ghost use Rattle.sv_obl.specs.BodySlices.{sliced, SameParts, slice_statement, driven_body};
ghost use Rattle.sv_obl.specs.SliceRoutes.{is_nothing, IsSliceOf, IsChain, AreSlicesOf, EndsIn};
ghost use Rattle.sv_obl.specs.IndexedBodies.{looked_up, chosen, numbers_at};
ghost use Rattle.sv_obl.specs.MarkedBodies.{AreBodiesOf, IsMarkedFor, HasCopies};
ghost use Rattle.sv_obl.specs.Views.{piece_forms};
ghost use Rattle.sv_obl.specs.Wanted.{with_copies};

use crate::indexed::{Indexed, indexed_bodies};
use crate::marked::{Marked, marked_bodies};
use crate::pieces::is_some_of;
use std::alloc::{AllocError, Global};
use std::collections::BTreeMap;
use sv_design::Design;
use sv_flat::{FExpr, Piece, SigId, Signal};
use sv_num::Place;

/// What of a statement matters to one target (a program slice) where no read is an earlier one:
/// each part that does not assign the target is left out. A `case` stands as a chain of branches,
/// the next in `no`, which may be walked by a loop.
#[derive(Debug, Drop)]
pub enum BodySlice<'a> {
    Nothing,
    /// An assignment to the target.
    Assign {
        pieces: &'a [Piece],
        place: Place,
        blocking: bool,
        value: &'a FExpr,
    },
    /// One after the other.
    Chain {
        first: Box<BodySlice<'a>>,
        second: Box<BodySlice<'a>>,
    },
    /// A branch with an arm that assigns the target.
    Branch {
        place: Place,
        cond: &'a FExpr,
        yes: Box<BodySlice<'a>>,
        no: Box<BodySlice<'a>>,
    },
}

fn is_nothing(slice: &BodySlice) -> bool
    ensures { result ≡ is_nothing slice.now }
{
    matches!(slice, BodySlice::Nothing)
}

// The two one after the other.
fn chained<'a>(
    alloc: Global,
    first: BodySlice<'a>,
    second: BodySlice<'a>,
) -> Result<BodySlice<'a>, AllocError>
    ensures { IfOk result (λ whole. IsChain first.entry second.entry whole) }
{
    if is_nothing(&first) {
        return Ok(second);
    }
    if is_nothing(&second) {
        return Ok(first);
    }
    Ok(BodySlice::Chain {
        first: Box::new(alloc, first)?,
        second: Box::new(alloc, second)?,
    })
}

// The slice of a branch, from those of its arms.
fn branch_slice<'a>(
    alloc: Global,
    place: Place,
    cond: &'a FExpr,
    yes: BodySlice<'a>,
    no: BodySlice<'a>,
) -> Result<BodySlice<'a>, AllocError>
    ensures { (s : ℕ) (first second : FlatStatement)
        → IsSliceOf s first yes.entry → IsSliceOf s second no.entry
        → IfOk result (λ slice.
        IsSliceOf s (branch place (typed_tree cond.now) first second) slice) }
{
    if is_nothing(&yes) && is_nothing(&no) {
        return Ok(BodySlice::Nothing);
    }
    Ok(BodySlice::Branch {
        place,
        cond,
        yes: Box::new(alloc, yes)?,
        no: Box::new(alloc, no)?,
    })
}

// The slice of an assignment.
fn assign_slice<'a>(
    pieces: &'a [Piece],
    place: Place,
    blocking: bool,
    value: &'a FExpr,
    target: SigId,
) -> BodySlice<'a>
    ensures { IsSliceOf target.0
        (assign (piece_forms pieces.now) place blocking (typed_tree value.now)) result }
{
    if is_some_of(target, pieces) {
        BodySlice::Assign {
            pieces,
            place,
            blocking,
            value,
        }
    } else {
        BodySlice::Nothing
    }
}

// The last of some, and nothing where there are none.
fn last_of<'a>(slices: &mut Vec<BodySlice<'a>>) -> BodySlice<'a>
    ensures ends { EndsIn slices.old.items slices.new.items result }
    ensures count { length slices.new.items ≡ length slices.old.items - 1 }
{
    match slices.pop() {
        Some(last) => last,
        None => BodySlice::Nothing,
    }
}

// The last so many of some, taken as one. Halves of halves keep what walks through them from going
// as deep as a block is long.
fn last_together<'a>(
    count: usize,
    alloc: Global,
    slices: &mut Vec<BodySlice<'a>>,
) -> Result<BodySlice<'a>, AllocError>
    requires { 0 < count }
    ensures ends { IfOk result (λ last. EndsIn slices.old.items slices.new.items last) }
    ensures count { OnOk result (length slices.new.items ≡ length slices.old.items - count) }
{
    if count == 1 {
        return Ok(last_of(slices));
    }
    let half = count / 2;
    let second = last_together(count - half, alloc, slices)?;
    let first = last_together(half, alloc, slices)?;
    chained(alloc, first, second)
}

// All of some, taken as one.
fn together<'a>(alloc: Global, slices: Vec<BodySlice<'a>>) -> Result<BodySlice<'a>, AllocError>
    ensures { IfOk result (λ whole. EndsIn slices.entry.items [] whole) }
{
    if slices.is_empty() {
        return Ok(BodySlice::Nothing);
    }
    let mut rest = slices;
    let count = rest.len();
    last_together(count, alloc, &mut rest)
}

/// The slice of an indexed statement for a target; an error where memory runs out. What does not
/// assign the target is passed over.
#[cycle(slice)]
pub fn slice_for<'a>(
    indexed: &Indexed<'a>,
    alloc: Global,
    target: SigId,
) -> Result<BodySlice<'a>, AllocError>
    ensures { IfOk result (IsSliceOf target.0 (looked_up target.0 indexed.now)) }
{
    match indexed {
        Indexed::Assign {
            pieces,
            place,
            blocking,
            value,
        } => Ok(assign_slice(*pieces, *place, *blocking, *value, target)),
        Indexed::Block { parts, numbers } => block_slice(parts, numbers, alloc, target),
        Indexed::Branch {
            targets,
            place,
            cond,
            yes,
            no,
        } => {
            if !targets.contains(&target.0) {
                return Ok(BodySlice::Nothing);
            }
            let first = slice_for(yes, alloc, target)?;
            let second = slice_for(no, alloc, target)?;
            branch_slice(alloc, *place, *cond, first, second)
        }
    }
}

// The slice of a block. What it needs stands in its own frame, since `slice_for` calls itself for
// each arm of a `case`.
#[cycle(slice)]
#[inline(never)]
fn block_slice<'a>(
    parts: &[Indexed<'a>],
    numbers: &BTreeMap<u32, Vec<usize>>,
    alloc: Global,
    target: SigId,
) -> Result<BodySlice<'a>, AllocError>
    ensures { IfOk result (IsSliceOf target.0
        (chosen (map (looked_up target.0) parts.now) (numbers_at numbers.now target.0))) }
{
    match numbers.get(&target.0) {
        Some(those) => {
            let slices = part_slices(parts, alloc, target, those)?;
            together(alloc, slices)
        }
        None => Ok(BodySlice::Nothing),
    }
}

// The slices of the parts with some numbers.
#[cycle(slice)]
fn part_slices<'a>(
    parts: &[Indexed<'a>],
    alloc: Global,
    target: SigId,
    numbers: &[usize],
) -> Result<Vec<BodySlice<'a>>, AllocError>
    ensures { IfOk result (λ slices. AreSlicesOf target.0
        (chosen (map (looked_up target.0) parts.now) numbers.now) slices.items) }
{
    let mut slices = Vec::new(alloc);
    for number in numbers {
        if *number < parts.len() {
            let slice = slice_for(&parts[*number], alloc, target)?;
            slices.push(slice)?;
        }
    }
    Ok(slices)
}

/// The bodies of a design's processes, of which each target's slice is taken: indexed, and those
/// with an earlier read with such reads wanted.
#[derive(Drop)]
pub struct Bodies<'a> {
    pub indexed: Vec<Indexed<'a>>,
    pub marked: Vec<Option<Marked<'a>>>,
    /// The signals and then their copies, where a body has an earlier read, else none.
    pub twice: Vec<Signal>,
}

// Copies of signals, behind those that are there.
fn push_copies(
    alloc: Global,
    signals: &[Signal],
    copies: &mut Vec<Signal>,
) -> Result<(), AllocError>
    ensures { OnOk result (signal_forms copies.new.items
        ≡ signal_forms copies.old.items ++ signal_forms signals.now) }
{
    for signal in signals {
        copies.push(signal.copy(alloc)?)?;
    }
    Ok(())
}

// The signals and then their copies.
fn with_copies(alloc: Global, signals: &[Signal]) -> Result<Vec<Signal>, AllocError>
    ensures { IfOk result (λ twice.
        signal_forms twice.items ≡ with_copies (signal_forms signals.now)) }
{
    let mut twice = Vec::new(alloc);
    push_copies(alloc, signals, &mut twice)?;
    push_copies(alloc, signals, &mut twice)?;
    Ok(twice)
}

// Whether some body has an earlier read.
fn has_marked(marked: &[Option<Marked>]) -> bool
    ensures { result ≡ list_any is_some marked.now }
{
    marked.iter().any(|body| body.is_some())
}

// The signals and then their copies where some body has an earlier read, else none.
fn copies_for(
    alloc: Global,
    signals: &[Signal],
    marked: &[Option<Marked>],
) -> Result<Vec<Signal>, AllocError>
    ensures { IfOk result (λ twice. IsTrue (list_any is_some marked.now) →
        signal_forms twice.items ≡ with_copies (signal_forms signals.now)) }
{
    if has_marked(marked) {
        return with_copies(alloc, signals);
    }
    Ok(Vec::new(alloc))
}

impl<'a> Bodies<'a> {
    /// Those of a design; an error where memory runs out.
    pub fn new(alloc: Global, design: &'a Design) -> Result<Bodies<'a>, AllocError>
        ensures { IfOk result (AreBodiesOf (design_of design.now)) }
    {
        let signals = design.signals();
        let processes = design.processes();
        let indexed = indexed_bodies(alloc, processes)?;
        let marked = marked_bodies(alloc, signals, processes)?;
        let twice = copies_for(alloc, signals, &marked)?;
        Ok(Bodies {
            indexed,
            marked,
            twice,
        })
    }

    /// The slice for a target of the body of the process that drives it, and nothing where none
    /// does; an error where memory runs out.
    pub fn slice(
        &self,
        alloc: Global,
        design: &Design,
        target: SigId,
    ) -> Result<BodySlice<'a>, AllocError>
        requires known { target.0 < length design.now.signals.items }
        requires bodies { AreBodiesOf (design_of design.now) self.now }
        ensures { IfOk result (λ slice. SameParts (slice_statement slice)
            (sliced target.0 (driven_body (design_of design.now) target.0))) }
    {
        match design.driver(target) {
            Some(place) => slice_for(&self.indexed[place], alloc, target),
            None => Ok(BodySlice::Nothing),
        }
    }

    /// The body of the process that drives a target with its earlier reads wanted, where it has
    /// one.
    pub fn marked(&self, design: &Design, target: SigId) -> Option<&Marked<'a>>
        requires known { target.0 < length design.now.signals.items }
        requires bodies { AreBodiesOf (design_of design.now) self.now }
        ensures body { IsMarkedFor (design_of design.now) target.0 result }
        ensures copies { IfSome result (λ body. HasCopies (design_of design.now) self.now) }
    {
        match design.driver(target) {
            Some(place) => self.marked[place].as_ref(),
            None => None,
        }
    }
}
