// What is said of signals with two drivers.
use crate::designs::flat_design;
use crate::uses::{Usage, signal_named, used_at};
use std::alloc::{AllocError, Global};
use sv_flat::{Flat, ProcKind, Process, SigKind};
use sv_hints::{Case, Hole, instance_words, told};

/// Of a signal with a second driver.
pub fn drivers(alloc: Global, case: &Case) -> Result<String, AllocError> {
    let flat = flat_design(alloc, &case.origin);
    drivers_in(alloc, case, flat.as_ref())
}

// The same in a flat design, where there is one.
fn drivers_in(alloc: Global, case: &Case, flat: Option<&Flat>) -> Result<String, AllocError> {
    if let Some(flat) = flat {
        if let Some(number) = signal_named(flat, case.name()) {
            if let Some(signal) = flat.signals.get(number) {
                return driver_fault(alloc, case, flat, number, signal.kind);
            }
        }
    }
    told(
        alloc,
        "`{}` has a driver already, or is an input of the top",
        &[Hole::Name(case.name())],
    )
}

// What drives a signal of a kind before.
fn driver_fault(
    alloc: Global,
    case: &Case,
    flat: &Flat,
    number: usize,
    kind: SigKind,
) -> Result<String, AllocError> {
    let driver = first_driver(flat, number);
    match kind {
        SigKind::TopInput => told(
            alloc,
            "`{}` is an input of the top, and is driven from outside",
            &[Hole::Name(case.name())],
        ),
        SigKind::Input => input_fault(alloc, case, driver),
        _ => second_fault(alloc, case, driver, mend_of_two(flat, number)),
    }
}

// Of a signal that the first of its drivers drives before, and how the two become one.
fn second_fault(
    alloc: Global,
    case: &Case,
    driver: Option<&Process>,
    mend: &'static str,
) -> Result<String, AllocError> {
    let name = Hole::Name(case.name());
    match driver {
        Some(driver) if driver.place != case.place => told(
            alloc,
            "`{}` has a driver already, at {}: {}",
            &[name, Hole::Place(driver.place), Hole::Words(mend)],
        ),
        _ => told(
            alloc,
            "`{}` has a driver already: {}",
            &[name, Hole::Words(mend)],
        ),
    }
}

// How two drivers of a signal become one.
fn mend_of_two(flat: &Flat, number: usize) -> &'static str {
    for process in &flat.processes {
        if process.kind == ProcKind::PortOut
            && used_at(&process.body, Usage::Driven, number).is_some()
        {
            return "link each output to a `wire` of its own, and join those in one `assign`";
        }
    }
    "assign all its bits in one `always` or `assign`"
}

// Of an input of an instance, with the process that drives it before.
fn input_fault(alloc: Global, case: &Case, driver: Option<&Process>) -> Result<String, AllocError> {
    let at = instance_words(alloc, case)?;
    match driver {
        Some(driver) if driver.kind == ProcKind::PortIn => told(
            alloc,
            "`{}` is an input{}, and what is linked to it at {} drives it: take this assignment \
             away",
            &[
                Hole::Name(case.name()),
                Hole::Words(at.as_str()),
                place_of(driver),
            ],
        ),
        _ => told(
            alloc,
            "`{}` is an input{}, which links nothing to it: link it there, and assign it nowhere",
            &[Hole::Name(case.name()), Hole::Words(at.as_str())],
        ),
    }
}

// The place of a process in a hole.
fn place_of(process: &Process) -> Hole<'static> {
    Hole::Place(process.place)
}

// The first process that drives a signal.
fn first_driver(flat: &Flat, number: usize) -> Option<&Process> {
    for process in &flat.processes {
        if used_at(&process.body, Usage::Driven, number).is_some() {
            return Some(process);
        }
    }
    None
}
