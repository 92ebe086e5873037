// What is said of obligations that fail or stay open.
ghost use Rattle.std.specs.Prelude.{◌≡◌, ◌<◌, length, IfOk, IsTrue};
ghost use Rattle.sv_flat.specs.ByNumber.{FitSignals};
ghost use Rattle.sv_flat.specs.Views.{design_of};
ghost use Rattle.sv_paths.specs.ListParts.{IsAt, ArePathsOf};
ghost use Rattle.sv_obl.specs.Valuations.{FitsDesign};

use crate::designs::admitted_design;
use crate::said::Said;
use crate::uses::named_at;
use std::alloc::{AllocError, Global};
use sv_design::Design;
use sv_flat::SigId;
use sv_hints::{Case, Hole, Origin, told};
use sv_lattice::Point;
use sv_num::Place;
use sv_obl::{Bodies, Frame, Goal, Query, Valuation};
use sv_paths::{Listing, TargetPaths};
use sv_report::{frames_of, label_in};
use sv_sim::Sim;

// The obligation of a number, where there is one.
fn query_of(alloc: Global, design: &Design, number: u32) -> Option<Query> {
    let before = number.checked_sub(1)?;
    match Bodies::new(alloc, design) {
        Ok(bodies) => {
            let mut listing = Listing::new(design, &bodies);
            listed_query(alloc, design, &mut listing, before)
        }
        Err(_) => None,
    }
}

// The obligation behind so many, of a target or else of a selector.
fn listed_query(alloc: Global, design: &Design, listing: &mut Listing, before: u32) -> Option<Query>
    requires at { IsAt (design_of design.now) 0 listing.old }
{
    for s in 0..count_of(design) {
        let first = listing.count;
        let Ok(paths) = listing.target_paths(alloc, design, SigId(s)) else {
            return None;
        };
        if let Some(query) = path_query(alloc, design, &paths, before, first) {
            return Some(query);
        }
    }
    let first = listing.count;
    match listing.selector_queries(alloc, design) {
        Ok(queries) => taken(queries, before, first),
        Err(_) => None,
    }
}

// How many signals there are.
fn count_of(design: &Design) -> u32
    ensures { result ≡ length design.now.signals.items }
{
    design.signals().len() as u32
}

// The obligation behind so many, of a target's paths behind the first ones.
fn path_query(
    alloc: Global,
    design: &Design,
    paths: &TargetPaths,
    before: u32,
    first: u32,
) -> Option<Query>
    requires { ArePathsOf (design_of design.now) paths.now }
{
    let at = before.checked_sub(first)? as usize;
    if at < paths.len() {
        paths.query(alloc, design, at).ok()
    } else {
        None
    }
}

// The obligation behind so many, of a list behind the first ones.
fn taken(mut queries: Vec<Query>, before: u32, first: u32) -> Option<Query> {
    let at = before.checked_sub(first)? as usize;
    if at < queries.len() {
        Some(queries.swap_remove(at))
    } else {
        None
    }
}

// The signal of whose label an obligation asks.
fn asked_of(query: &Query) -> Option<SigId> {
    match &query.goal {
        Goal::Flow { target, .. } => Some(*target),
        Goal::Selector { signal } => Some(*signal),
        Goal::Holds { .. } => None,
    }
}

// Where an obligation stands: at its last assignment, or else at the last condition on its path, or
// else where its signal is declared.
fn place_of(design: &Design, query: &Query) -> Option<Place> {
    if query.right.is_some() {
        return query.right;
    }
    if let Some(step) = query.path.last() {
        return Some(step.place);
    }
    let signal = design.signals().get(asked_of(query)?.0 as usize)?;
    Some(signal.place)
}

/// Where the obligation of a number in decimal stands.
pub fn place_of_number(alloc: Global, case: &Case, digits: &[u8]) -> Option<Place> {
    let mut number = 0u32;
    for digit in digits {
        let digit = digit.checked_sub(b'0')?;
        number = number.checked_mul(10)?.checked_add(digit as u32)?;
    }
    place_of_obligation(alloc, &case.origin, number)
}

fn place_of_obligation(alloc: Global, origin: &Origin, number: u32) -> Option<Place> {
    place_in(alloc, &admitted_design(alloc, origin)?, number)
}

fn place_in(alloc: Global, design: &Design, number: u32) -> Option<Place> {
    place_of(design, &query_of(alloc, design, number)?)
}

/// Of an obligation on which the budget was spent.
pub fn spent(alloc: Global, origin: &Origin, number: u32) -> Result<Said, AllocError> {
    let place = place_of_obligation(alloc, origin, number);
    let words = told(
        alloc,
        "the budget does not suffice for obligation {}; `--budget NUMBER` gives more",
        &[Hole::Number(number as u64)],
    )?;
    Ok(Said { place, words })
}

// The first read whose label does not flow, its label, and that of the target.
#[derive(Clone, Copy)]
struct Leak {
    read: SigId,
    from: Point,
    to: Point,
}

// Whether the values of a valuation are those of a design's registers and inputs.
fn fits(alloc: Global, design: &Design, v: &Valuation) -> Result<bool, AllocError>
    ensures { IfOk result (λ fits. IsTrue fits → FitsDesign (design_of design.now) v.now) }
{
    let sim = Sim::new(alloc, design)?;
    if !sim.fits(&v.regs, &v.inputs) {
        return Ok(false);
    }
    Ok(sim.fits(&v.regs, &v.next_inputs))
}

fn frame_of(query: &Query) -> Frame {
    match &query.goal {
        Goal::Flow { frame, .. } => *frame,
        _ => Frame::Now,
    }
}

// How an obligation fails at the values.
fn leak_of(
    alloc: Global,
    design: &Design,
    query: &Query,
    v: &Valuation,
) -> Result<Option<Leak>, AllocError> {
    let Some(target) = asked_of(query) else {
        return Ok(None);
    };
    if target.0 as usize >= design.signals().len() {
        return Ok(None);
    }
    let is_fitting = fits(alloc, design, v)?;
    if !is_fitting {
        return Ok(None);
    }
    let frames = frames_of(alloc, design, frame_of(query), v)?;
    let to = label_in(design, target, &frames.there);
    Ok(first_leak(design, &query.reads, &frames.here, to))
}

// The first read whose label does not flow to the point.
fn first_leak(design: &Design, reads: &[SigId], values: &[u64], to: Point) -> Option<Leak>
    requires fit { FitSignals (design_of design.now).signals values.now }
    requires point { to.0 < length design.now.lattice }
{
    for read in reads {
        if let Some(from) = label_above(design, *read, values, to) {
            return Some(Leak {
                read: *read,
                from,
                to,
            });
        }
    }
    None
}

// The label of a read, where it does not flow to the point.
fn label_above(design: &Design, read: SigId, values: &[u64], to: Point) -> Option<Point>
    requires fit { FitSignals (design_of design.now).signals values.now }
    requires point { to.0 < length design.now.lattice }
{
    if read.0 as usize >= design.signals().len() {
        return None;
    }
    let from = label_in(design, read, values);
    if design.lattice().flows(from, to) {
        None
    } else {
        Some(from)
    }
}

fn signal_name(design: &Design, signal: SigId) -> Hole<'_> {
    match design.signals().get(signal.0 as usize) {
        Some(signal) => Hole::Name(signal.name.bytes()),
        None => Hole::Words(""),
    }
}

fn point_name(design: &Design, point: Point) -> Hole<'_> {
    match design.points().get(point.0 as usize) {
        Some(name) => Hole::Name(name.bytes()),
        None => Hole::Words(""),
    }
}

/// Of an obligation that fails at values, by its number.
pub fn flow(
    alloc: Global,
    origin: &Origin,
    number: u32,
    v: &Valuation,
) -> Result<Said, AllocError> {
    match admitted_design(alloc, origin) {
        Some(design) => flow_in(alloc, &design, number, v),
        None => Ok(Said::nowhere(failed_words(alloc, number)?)),
    }
}

// That an obligation fails.
fn failed_words(alloc: Global, number: u32) -> Result<String, AllocError> {
    told(
        alloc,
        "obligation {} fails at the printed values",
        &[Hole::Number(number as u64)],
    )
}

// Of the obligation of a number of a design.
fn flow_in(alloc: Global, design: &Design, number: u32, v: &Valuation) -> Result<Said, AllocError> {
    match query_of(alloc, design, number) {
        Some(query) => flow_of(alloc, design, number, &query, v),
        None => Ok(Said::nowhere(failed_words(alloc, number)?)),
    }
}

// Of this obligation of a design.
fn flow_of(
    alloc: Global,
    design: &Design,
    number: u32,
    query: &Query,
    v: &Valuation,
) -> Result<Said, AllocError> {
    let found = leak_of(alloc, design, query, v)?;
    let (place, words) = match (asked_of(query), found) {
        (Some(target), Some(leak)) => (
            place_of_leak(design, query, target, leak.read),
            leak_words(alloc, design, number, query, target, leak),
        ),
        _ => (place_of(design, query), failed_words(alloc, number)),
    };
    Ok(Said {
        place,
        words: words?,
    })
}

// Where a target learns from a read: where it is held and learns from another signal, at the last
// condition that reads that.
fn place_of_leak(design: &Design, query: &Query, target: SigId, read: SigId) -> Option<Place> {
    if query.right.is_none() && read.0 != target.0 {
        if let Some(place) = condition_on(query, read) {
            return Some(place);
        }
    }
    place_of(design, query)
}

// Where the last condition on a path stands that reads the signal.
fn condition_on(query: &Query, read: SigId) -> Option<Place> {
    let mut found = None;
    for step in &query.path {
        if named_at(&step.cond, read.0 as usize).is_some() {
            found = Some(step.place);
        }
    }
    found
}

// The place of the condition before an assignment that reads the signal, if one does.
fn condition_before(query: &Query, read: SigId) -> Option<Place> {
    if query.right.is_some() {
        condition_on(query, read)
    } else {
        None
    }
}

// Of which cycle the label of a target is, where that is not plain.
fn frame_words(query: &Query) -> &'static str {
    match frame_of(query) {
        Frame::Next => ": the label of a register is that of the next cycle",
        Frame::Now => "",
    }
}

// The names of a target and of what it learns from, and of their labels.
#[derive(Clone, Copy)]
struct LeakNames<'d> {
    target: Hole<'d>,
    read: Hole<'d>,
    from: Hole<'d>,
    to: Hole<'d>,
}

impl<'d> LeakNames<'d> {
    fn of(design: &'d Design, target: SigId, leak: Leak) -> LeakNames<'d> {
        LeakNames {
            target: signal_name(design, target),
            read: signal_name(design, leak.read),
            from: point_name(design, leak.from),
            to: point_name(design, leak.to),
        }
    }
}

// How a target learns from a read.
fn leak_words(
    alloc: Global,
    design: &Design,
    number: u32,
    query: &Query,
    target: SigId,
    leak: Leak,
) -> Result<String, AllocError> {
    let names = LeakNames::of(design, target, leak);
    match &query.goal {
        Goal::Selector { .. } => picked_words(alloc, number, names),
        Goal::Flow {
            frame: Frame::Next,
            ..
        } if query.right.is_none() && leak.read.0 == target.0 => kept_words(alloc, number, names),
        _ => learnt_words(alloc, number, query, leak.read, names),
    }
}

// That a label tells what picks it.
fn picked_words(alloc: Global, number: u32, names: LeakNames) -> Result<String, AllocError> {
    told(
        alloc,
        "obligation {}: the label of `{}` tells `{}`, which picks it: at the printed values `{}` \
         is at `{}`, and `{}` at `{}`; pick a label by a signal that all may see who see `{}`",
        &[
            Hole::Number(number as u64),
            names.target,
            names.read,
            names.read,
            names.from,
            names.target,
            names.to,
            names.target,
        ],
    )
}

// That a register keeps its value while its label falls.
fn kept_words(alloc: Global, number: u32, names: LeakNames) -> Result<String, AllocError> {
    told(
        alloc,
        "obligation {}: the register `{}` keeps its value on this path, and its label falls: at \
         the printed values it is at `{}`, and at `{}` in the next cycle; clear it where its label \
         falls",
        &[
            Hole::Number(number as u64),
            names.target,
            names.from,
            names.to,
        ],
    )
}

// That a target learns from another signal.
fn learnt_words(
    alloc: Global,
    number: u32,
    query: &Query,
    signal: SigId,
    names: LeakNames,
) -> Result<String, AllocError> {
    let LeakNames {
        target,
        read,
        from,
        to,
    } = names;
    let number = Hole::Number(number as u64);
    let of = Hole::Words(frame_words(query));
    match condition_before(query, signal) {
        Some(place) => told(
            alloc,
            "obligation {}: `{}` learns from `{}`, which the condition at {} reads: at the printed \
             values `{}` is at `{}`, and `{}` at `{}`{}",
            &[
                number,
                target,
                read,
                Hole::Place(place),
                read,
                from,
                target,
                to,
                of,
            ],
        ),
        None => told(
            alloc,
            "obligation {}: `{}` learns from `{}`: at the printed values `{}` is at `{}`, and `{}` \
             at `{}`{}",
            &[number, target, read, read, from, target, to, of],
        ),
    }
}
