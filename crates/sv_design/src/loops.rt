// Rule 607: no combinational signals read each other in a circle.
ghost use Rattle.std.specs.Prelude.{◌≡◌, ◌<◌, ◌+◌, ◌&&◌, ◌∷◌, List, ℕ, length, IsTrue, IfOk};
ghost use Rattle.sv_flat.specs.Design.{FlatDesign};
ghost use Rattle.sv_flat.specs.Processes.{declared_at};
ghost use Rattle.sv_flat.specs.Soundness.{sound};
ghost use Rattle.sv_flat.specs.Views.{design_of};
ghost use Rattle.sv_design.specs.Circles.{FindsCircle, FindsCircleFrom, FindsCircleBelow, precedes};
ghost use Rattle.sv_design.specs.Circles.{IsBegin};
ghost use Rattle.sv_graph.specs.Marks.{is_marked};
ghost use Rattle.sv_design.specs.Numbers.{numbers};
ghost use Rattle.sv_design.specs.Orders.{AreReads, HasDesign, HasBegins};
ghost use Rattle.sv_graph.specs.Searches.{found_by, LeadsDown, IsWayBack};

use crate::orders::SignalReads;
use std::alloc::{AllocError, Global};
use sv_flat::{Flat, SigId};
use sv_graph::{Search, begins_of, has_mark, search_from};
use sv_rules::{Found, first_of, is_before};

/// A circle of reads: its least signal with the place of its declaration, and its signals from that
/// one on.
#[derive(Drop)]
pub struct Circle {
    pub first: Found,
    pub signals: Vec<SigId>,
}

// A signal, and then those on the way back from a place of a search from it.
fn circle_of(
    alloc: Global,
    readers: &Search,
    first: SigId,
    place: usize,
) -> Result<Vec<SigId>, AllocError>
    requires place { place < length (found_by readers.now) }
    requires falls { LeadsDown readers.now }
    ensures { IfOk result (λ circle. (way : List ℕ) × (numbers circle.items ≡ first.0 ∷ way)
        × IsWayBack readers.now place way) }
{
    let mut circle = Vec::new(alloc);
    circle.push(first)?;
    readers.add_way_back(&mut circle, place)?;
    Ok(circle)
}

// The signals of a circle from the signal on over greater ones, each reading the next and the last
// the first.
fn circle_from(
    alloc: Global,
    reads: &SignalReads,
    first: SigId,
) -> Result<Option<Vec<SigId>>, AllocError>
    requires tables { HasDesign reads.now }
    requires first { IsTrue (is_marked reads.now.combs.items first.0) }
    ensures { IfOk result (λ circle. (design : FlatDesign) → AreReads design reads.now
        → FindsCircleFrom design first.0 circle) }
{
    let readers = search_from(alloc, &reads.readers, first.0 as usize + 1, &[first])?;
    let row = reads.reads.rows[first.0 as usize].as_slice();
    let found = row.iter().find_map(|read| readers.places[read.0 as usize]);
    let Some(place) = found else {
        return Ok(None);
    };
    Ok(Some(circle_of(alloc, &readers, first, place)?))
}

// For each signal, whether a circle of reads can begin at it: each at which one does is marked.
fn begin_table(alloc: Global, reads: &SignalReads) -> Result<Vec<bool>, AllocError>
    ensures { IfOk result (λ table. (design : FlatDesign) → AreReads design reads.now
        → HasBegins design table.items) }
{
    let table = begins_of(alloc, &reads.readers)?;
    Ok(table)
}

// Whether the signal is combinational and a circle can begin at it.
fn can_begin(reads: &SignalReads, begins: &[bool], signal: SigId) -> bool
    ensures { result ≡ (is_marked begins.now signal.0 && is_marked reads.now.combs.items signal.0) }
{
    has_mark(begins, signal) & has_mark(&reads.combs, signal)
}

// Whether something comes before the circle.
fn precedes(here: Found, circle: &Option<Circle>) -> bool
    ensures { result ≡ precedes here circle.now }
{
    match circle {
        Some(circle) => is_before(here, circle.first),
        None => true,
    }
}

// A circle from the signal on, where one can begin there and comes before the one that was found so
// far; else that one.
fn earlier_circle(
    alloc: Global,
    reads: &SignalReads,
    begins: &[bool],
    here: Found,
    circle: Option<Circle>,
) -> Result<Option<Circle>, AllocError>
    requires tables { HasDesign reads.now }
    requires inside { here.signal.0 < length reads.now.combs.items }
    ensures { IfOk result (λ next. (design : FlatDesign) → AreReads design reads.now
        → HasBegins design begins.now → here.place ≡ declared_at design here.signal.0
        → FindsCircleBelow design here.signal.0 circle
        → FindsCircleBelow design (here.signal.0 + 1) next) }
{
    if !can_begin(reads, begins, here.signal) {
        return Ok(circle);
    }
    if !precedes(here, &circle) {
        return Ok(circle);
    }
    match circle_from(alloc, reads, here.signal)? {
        Some(signals) => Ok(Some(Circle {
            first: here,
            signals,
        })),
        None => Ok(circle),
    }
}

// The signal, where a circle can begin at it.
fn begin_at(reads: &SignalReads, begins: &[bool], here: Found) -> Option<Found>
    ensures { (design : FlatDesign) → here.place ≡ declared_at design here.signal.0
        → IsBegin design reads.now result }
{
    if can_begin(reads, begins, here.signal) {
        Some(here)
    } else {
        None
    }
}

// The first of the combinational signals at which a circle can begin.
fn first_begin(flat: &Flat, reads: &SignalReads, begins: &[bool]) -> Option<Found>
    requires sound { IsTrue (sound (design_of flat.now)) }
    ensures { IsBegin (design_of flat.now) reads.now result }
{
    let mut first = None;
    for (s, signal) in flat.signals.iter().enumerate() {
        let here = Found {
            place: signal.place,
            signal: SigId(s as u32),
        };
        let found = begin_at(reads, begins, here);
        let next = first_of(first, found);
        first = next;
    }
    first
}

// A circle from that signal on.
fn likely_circle(
    alloc: Global,
    flat: &Flat,
    reads: &SignalReads,
    begins: &[bool],
) -> Result<Option<Circle>, AllocError>
    requires sound { IsTrue (sound (design_of flat.now)) }
    requires reads { AreReads (design_of flat.now) reads.now }
    ensures { IfOk result (FindsCircleBelow (design_of flat.now) 0) }
{
    let Some(first) = first_begin(flat, reads, begins) else {
        return Ok(None);
    };
    match circle_from(alloc, reads, first.signal)? {
        Some(signals) => Ok(Some(Circle { first, signals })),
        None => Ok(None),
    }
}

/// The first circle of reads. It fails where memory runs out.
pub fn first_circle(
    alloc: Global,
    flat: &Flat,
    reads: &SignalReads,
) -> Result<Option<Circle>, AllocError>
    requires sound { IsTrue (sound (design_of flat.now)) }
    requires reads { AreReads (design_of flat.now) reads.now }
    ensures { IfOk result (FindsCircle (design_of flat.now)) }
{
    let begins = begin_table(alloc, reads)?;
    let mut circle = likely_circle(alloc, flat, reads, &begins)?;
    for (s, signal) in flat.signals.iter().enumerate() {
        let here = Found {
            place: signal.place,
            signal: SigId(s as u32),
        };
        let next = earlier_circle(alloc, reads, &begins, here, circle)?;
        circle = next;
    }
    Ok(circle)
}
