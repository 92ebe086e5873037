// What is said of clocks that are not as a clock is to be.
use crate::designs::flat_design;
use crate::said::Said;
use crate::uses::{Usage, link_in, signal_named, used_at};
use std::alloc::{AllocError, Global};
use sv_flat::{Flat, ProcKind, Process, SigId, SigKind, Signal};
use sv_hints::{Case, Hole, PortLink, instance_words, owned, port_link, told};
use sv_lattice::Label;
use sv_num::Place;

/// Of a clock that is not as a clock is to be. Of one that no whole signal is linked to, the place
/// is that of the link.
pub fn clock(alloc: Global, case: &Case) -> Result<Said, AllocError> {
    let flat = flat_design(alloc, &case.origin);
    clock_in(alloc, case, flat.as_ref())
}

// The same in a flat design, where there is one.
fn clock_in(alloc: Global, case: &Case, flat: Option<&Flat>) -> Result<Said, AllocError> {
    if is_unlinked(flat, case.name()) {
        if let Some(link) = port_link(alloc, case) {
            return unlinked(alloc, case, link);
        }
    }
    Ok(Said::here(case, clock_words(alloc, case, flat)?))
}

// A signal of a flat design by its name: its number, and the signal.
fn found_in<'f>(flat: &'f Flat, name: &[u8]) -> Option<(usize, &'f Signal)> {
    let number = signal_named(flat, name)?;
    Some((number, flat.signals.get(number)?))
}

// Whether the signal of a name is an input of an instance that no whole signal is linked to.
fn is_unlinked(flat: Option<&Flat>, name: &[u8]) -> bool {
    let Some(flat) = flat else {
        return false;
    };
    match found_in(flat, name) {
        Some((number, signal)) => {
            signal.kind == SigKind::Input && signal.width == 1 && linked_to(flat, number).is_none()
        }
        None => false,
    }
}

const EXPRESSION: &str = "the clock `{}` is linked to an expression here: link it to the clock \
     itself, and let an enable decide in the block";

const NOTHING: &str = "the clock `{}` is linked to nothing here: link it to the clock around it";

const MISSING: &str =
    "this instance links nothing to its clock `{}`: link it to the clock around it";

// Of a clock of an instance that no whole signal is linked to.
fn unlinked(alloc: Global, case: &Case, link: PortLink) -> Result<Said, AllocError> {
    let (place, sentence) = match link {
        PortLink::Expr(place) => (place, EXPRESSION),
        PortLink::Nothing(place) => (place, NOTHING),
        PortLink::Missing(place) => (place, MISSING),
    };
    Ok(Said {
        place: Some(place),
        words: told(alloc, sentence, &[Hole::Name(case.name())])?,
    })
}

// What is wrong with a clock, in words.
fn clock_words(alloc: Global, case: &Case, flat: Option<&Flat>) -> Result<String, AllocError> {
    if let Some(flat) = flat {
        if let Some((number, signal)) = found_in(flat, case.name()) {
            return clock_fault(alloc, case, flat, number, signal);
        }
    }
    told(
        alloc,
        "the clock `{}` is to be a public 1-bit input that is nothing else",
        &[Hole::Name(case.name())],
    )
}

// The signal that a link by a whole name links to an input port of this number, if any.
fn linked_to(flat: &Flat, port: usize) -> Option<usize> {
    for process in &flat.processes {
        match link_in(process) {
            Some(link) if link.port == port => return Some(link.source),
            _ => {}
        }
    }
    None
}

// The input of the top that a clock leads up to, if any: no chain of links is longer than there
// are signals.
fn top_of(flat: &Flat, clock: usize) -> Option<usize> {
    let mut at = clock;
    for _ in 0..flat.signals.len() {
        match linked_to(flat, at) {
            Some(source) => at = source,
            None => break,
        }
    }
    match flat.signals.get(at) {
        Some(signal) if signal.kind == SigKind::TopInput => Some(at),
        _ => None,
    }
}

// The input of the top that the clock of some block leads up to, where it is another one than this
// and stands before the signal of a number.
fn other_clock(flat: &Flat, top: usize, number: usize) -> Option<usize> {
    for process in &flat.processes {
        if let ProcKind::Clocked(SigId(clock)) = process.kind {
            match top_of(flat, clock as usize) {
                Some(other) if other != top && other < number => return Some(other),
                _ => {}
            }
        }
    }
    None
}

// What is wrong with a clock.
fn clock_fault(
    alloc: Global,
    case: &Case,
    flat: &Flat,
    number: usize,
    signal: &Signal,
) -> Result<String, AllocError> {
    let name = Hole::Name(case.name());
    if !matches!(signal.kind, SigKind::TopInput | SigKind::Input) {
        return told(
            alloc,
            "the clock `{}` is no input: a clock comes from the top, and no logic makes one; let \
             an enable decide in the block",
            &[name],
        );
    }
    if signal.width != 1 {
        return told(
            alloc,
            "the clock `{}` has {} bits, and a clock has 1",
            &[name, Hole::Number(signal.width as u64)],
        );
    }
    if signal.kind == SigKind::Input && linked_to(flat, number).is_none() {
        return not_linked(alloc, case);
    }
    match second_clock(flat, number) {
        Some((top, other)) => two_clocks(alloc, flat, number, top, other),
        None => input_fault(alloc, flat, number, signal, case.name()),
    }
}

// The input of the top that a clock leads up to, and the earlier one to which another clock leads.
fn second_clock(flat: &Flat, number: usize) -> Option<(usize, usize)> {
    let top = top_of(flat, number)?;
    Some((top, other_clock(flat, top, number)?))
}

// Of a clock of an instance that no whole signal is linked to, in words.
fn not_linked(alloc: Global, case: &Case) -> Result<String, AllocError> {
    let at = instance_words(alloc, case)?;
    told(
        alloc,
        "the clock `{}`{} is linked to no whole signal: link it to the clock around it",
        &[Hole::Name(case.name()), Hole::Words(at.as_str())],
    )
}

// Of a clock that is the only one: it has a label, or is used as no clock is.
fn input_fault(
    alloc: Global,
    flat: &Flat,
    number: usize,
    signal: &Signal,
    name: &[u8],
) -> Result<String, AllocError> {
    if !is_least(flat, &signal.label) {
        return told(
            alloc,
            "the clock `{}` has a label: everybody sees the time, so a clock is public; take its \
             label away",
            &[Hole::Name(name)],
        );
    }
    let linked = linked_words(alloc, flat, number)?;
    let used = used_words(alloc, flat, number)?;
    told(
        alloc,
        "the clock `{}`{} {}: a clock stands behind `posedge` and in links alone; let an enable \
         decide in the block",
        &[
            Hole::Name(name),
            Hole::Words(linked.as_str()),
            Hole::Words(used.as_str()),
        ],
    )
}

// The signal that is linked to a clock of an instance, in words; nothing where none is.
fn linked_words(alloc: Global, flat: &Flat, number: usize) -> Result<String, AllocError> {
    match linked_to(flat, number) {
        Some(source) => {
            let source = signal_shown(alloc, flat, source)?;
            told(alloc, ", linked to {},", &[Hole::Words(source.as_str())])
        }
        None => Ok(String::new(alloc)),
    }
}

// Whether a label is the point that flows to all.
fn is_least(flat: &Flat, label: &Label) -> bool {
    match label {
        Label::Point(point) => *point == flat.lattice.least(),
        Label::Table { .. } => false,
    }
}

// A signal of a number as it is shown, with its place.
fn signal_shown(alloc: Global, flat: &Flat, number: usize) -> Result<String, AllocError> {
    match flat.signals.get(number) {
        Some(signal) => told(
            alloc,
            "`{}` of {}",
            &[Hole::Name(signal.name.bytes()), Hole::Place(signal.place)],
        ),
        None => Ok(String::new(alloc)),
    }
}

// The name of the signal of a number.
fn name_of(flat: &Flat, number: usize) -> &[u8] {
    match flat.signals.get(number) {
        Some(signal) => signal.name.bytes(),
        None => b"",
    }
}

// That the clock of a number leads up to an input of the top, and another clock to another one.
fn two_clocks(
    alloc: Global,
    flat: &Flat,
    number: usize,
    top: usize,
    other: usize,
) -> Result<String, AllocError> {
    let other = signal_shown(alloc, flat, other)?;
    if top == number {
        return told(
            alloc,
            "`{}` is a second clock: a design has one, and {} is a clock, too; let an enable \
             decide in the block",
            &[
                Hole::Name(name_of(flat, number)),
                Hole::Words(other.as_str()),
            ],
        );
    }
    let top = signal_shown(alloc, flat, top)?;
    told(
        alloc,
        "the clock `{}` is {}, and {} is a clock, too: a design has one; let an enable decide in \
         the block",
        &[
            Hole::Name(name_of(flat, number)),
            Hole::Words(top.as_str()),
            Hole::Words(other.as_str()),
        ],
    )
}

// How a signal is used as no clock is: it is driven or read at a place, or it picks the label of
// the signal of a number.
#[derive(Clone, Copy)]
enum Used {
    Driven(Place),
    Read(Place),
    Picks(usize),
}

fn use_of(flat: &Flat, number: usize) -> Option<Used> {
    for process in &flat.processes {
        if let Some(found) = use_in(process, number) {
            return Some(found);
        }
    }
    Some(Used::Picks(labelled_by(flat, number)?))
}

// How a process that is no link uses a signal.
fn use_in(process: &Process, number: usize) -> Option<Used> {
    if link_in(process).is_some() {
        return None;
    }
    match used_at(&process.body, Usage::Driven, number) {
        Some(place) => Some(Used::Driven(place)),
        None => Some(Used::Read(used_at(&process.body, Usage::Read, number)?)),
    }
}

// The first signal whose label a signal picks.
fn labelled_by(flat: &Flat, number: usize) -> Option<usize> {
    for (at, signal) in flat.signals.iter().enumerate() {
        if selects(&signal.label, number) {
            return Some(at);
        }
    }
    None
}

// How a signal is used as no clock is, in words.
fn used_words(alloc: Global, flat: &Flat, number: usize) -> Result<String, AllocError> {
    match use_of(flat, number) {
        Some(Used::Driven(place)) => told(alloc, "is driven at {}", &[Hole::Place(place)]),
        Some(Used::Read(place)) => told(alloc, "is read at {}", &[Hole::Place(place)]),
        Some(Used::Picks(at)) => {
            let labelled = signal_shown(alloc, flat, at)?;
            told(
                alloc,
                "picks the label of {}",
                &[Hole::Words(labelled.as_str())],
            )
        }
        None => owned(alloc, "is read, driven or selects a label"),
    }
}

// Whether a label has the signal as a selector.
fn selects(label: &Label, signal: usize) -> bool {
    match label {
        Label::Point(_) => false,
        Label::Table { first, second, .. } => {
            *first as usize == signal || is_second(second, signal)
        }
    }
}

fn is_second(second: &Option<u32>, signal: usize) -> bool {
    match second {
        Some(second) => *second as usize == signal,
        None => false,
    }
}
