// What is said of two runs that differ.
use crate::designs::admitted_design;
use std::alloc::{AllocError, Global};
use sv_design::Design;
use sv_flat::{SigId, Signal};
use sv_hints::{Hole, Origin, owned, shown, told};
use sv_lattice::Label;
use sv_words::Command;

// The level that looks at both runs.
fn level_of(command: &Command) -> &str {
    match command {
        Command::Compare { level, .. } => level.as_str(),
        _ => "",
    }
}

// The two stimuli.
fn stimuli_of(alloc: Global, command: &Command) -> Result<String, AllocError> {
    match command {
        Command::Compare { a, b, .. } => told(
            alloc,
            "{} and {}",
            &[Hole::File(a.as_str()), Hole::File(b.as_str())],
        ),
        _ => owned(alloc, "the stimuli"),
    }
}

// What besides a signal is to be alike, where another signal picks its label.
fn with_label(signal: &Signal) -> Hole<'static> {
    match signal.label {
        Label::Point(_) => Hole::Words(""),
        Label::Table { .. } => Hole::Words(", and what picks its label"),
    }
}

/// How two runs differ in a signal.
#[derive(Clone, Copy)]
pub enum Difference {
    /// They are given it differently.
    Given,
    /// They are given what looks alike, and it looks different.
    Seen,
}

/// Of two runs that differ in a signal.
pub fn unlike(
    alloc: Global,
    origin: &Origin,
    command: &Command,
    difference: Difference,
    cycle: u64,
    signal: SigId,
) -> Result<String, AllocError> {
    match admitted_design(alloc, origin) {
        Some(design) => unlike_in(alloc, &design, command, difference, cycle, signal),
        None => Ok(String::new(alloc)),
    }
}

// The same of a signal of a design.
fn unlike_in(
    alloc: Global,
    design: &Design,
    command: &Command,
    difference: Difference,
    cycle: u64,
    signal: SigId,
) -> Result<String, AllocError> {
    let Some(found) = design.signals().get(signal.0 as usize) else {
        return Ok(String::new(alloc));
    };
    match difference {
        Difference::Given if is_register(design, signal) => unlike_start(alloc, command, found),
        Difference::Given => unlike_input(alloc, command, cycle, found),
        Difference::Seen => leak(alloc, command, cycle, found),
    }
}

// Of a register that starts differently.
fn unlike_start(alloc: Global, command: &Command, found: &Signal) -> Result<String, AllocError> {
    let stimuli = stimuli_of(alloc, command)?;
    let name = shown(alloc, found.name.bytes())?;
    told(
        alloc,
        "secv: `{}` sees the register `{}` start differently in {}, which tells nothing of the \
         design: a register starts at 0 or by a line `start {} VALUE`; give it the same value in \
         both{}\n",
        &[
            Hole::Asked(level_of(command)),
            Hole::Words(name.as_str()),
            Hole::Words(stimuli.as_str()),
            Hole::Words(name.as_str()),
            with_label(found),
        ],
    )
}

// The number of a cycle, or of cycles, in a hole.
fn hole_of(cycle: u64) -> Hole<'static> {
    Hole::Count(cycle)
}

// The unit of so many cycles.
fn unit_of(cycles: u64) -> Hole<'static> {
    Hole::Words(if cycles == 1 { "cycle" } else { "cycles" })
}

// Of an input that is given differently in a cycle.
fn unlike_input(
    alloc: Global,
    command: &Command,
    cycle: u64,
    found: &Signal,
) -> Result<String, AllocError> {
    let stimuli = stimuli_of(alloc, command)?;
    let name = shown(alloc, found.name.bytes())?;
    told(
        alloc,
        "secv: in cycle {} `{}` sees the input `{}` differently in {}, which tells nothing of the \
         design: give it the same value in both{}\n",
        &[
            hole_of(cycle),
            Hole::Asked(level_of(command)),
            Hole::Words(name.as_str()),
            Hole::Words(stimuli.as_str()),
            with_label(found),
        ],
    )
}

// Whether a signal is a register of the design.
fn is_register(design: &Design, signal: SigId) -> bool {
    for register in design.registers() {
        if *register == signal {
            return true;
        }
    }
    false
}

// Of a signal that looks different in a cycle.
fn leak(
    alloc: Global,
    command: &Command,
    cycle: u64,
    found: &Signal,
) -> Result<String, AllocError> {
    let name = shown(alloc, found.name.bytes())?;
    told(
        alloc,
        "secv: in cycle {} `{}` sees `{}` differently in the two runs, though all that it was \
         given looks alike up to there: the design leaks\n",
        &[
            hole_of(cycle),
            Hole::Asked(level_of(command)),
            Hole::Words(name.as_str()),
        ],
    )
}

/// Of two runs that look alike until the shorter one ends, which has so many cycles.
pub fn lengths(alloc: Global, command: &Command, cycles: u64) -> Result<String, AllocError> {
    let stimuli = stimuli_of(alloc, command)?;
    told(
        alloc,
        "secv: `{}` sees no difference in the {} {} that {} both have, and one of them has more: \
         give both as many\n",
        &[
            Hole::Asked(level_of(command)),
            hole_of(cycles),
            unit_of(cycles),
            Hole::Words(stimuli.as_str()),
        ],
    )
}
