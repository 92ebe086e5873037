// The lines of a message.
use crate::clocks::clock;
use crate::comparisons::{Difference, lengths, unlike};
use crate::drivers::drivers;
use crate::flows::{flow, spent};
use crate::limits;
use crate::said::Said;
use crate::stimuli::{Given, proof, stimulus};
use std::alloc::{AllocError, Global};
use sv_hints::{Case, Hole, Origin, file_name, push_excerpt, told, words_of};
use sv_num::{Name, Place, Rule};
use sv_report::Broken;
use sv_words::Command;

// Where a limit stands that has no place.
const NOWHERE: Place = Place { line: 1, column: 1 };

/// The lines that tell a person why a text, a certificate or a stimulus is refused, or how two runs
/// differ: one that says what is wrong, and where there is a place the line of the text and a
/// caret. It fails where memory runs out.
pub fn message(
    alloc: Global,
    origin: &Origin,
    command: &Command,
    given: &Given,
    broken: &Broken,
) -> Result<String, AllocError> {
    match broken {
        Broken::Rule(refusal) => {
            ruled(
                alloc,
                origin,
                command,
                refusal.number,
                refusal.place,
                &refusal.names,
            )
        }
        Broken::Limit(number, names) => ruled(alloc, origin, command, *number, NOWHERE, names),
        Broken::Fails(number, v) => lines(alloc, origin, flow(alloc, origin, *number, v)?),
        Broken::Proof(line) => proof(alloc, command, given, *line),
        Broken::Stimulus(source, line, kind) => {
            stimulus(alloc, origin, command, given, (*source, *line, *kind))
        }
        Broken::Input(cycle, signal) => {
            unlike(alloc, origin, command, Difference::Given, *cycle, *signal)
        }
        Broken::View(cycle, signal) => {
            unlike(alloc, origin, command, Difference::Seen, *cycle, *signal)
        }
        Broken::Lengths(cycles) => lengths(alloc, command, *cycles),
    }
}

/// The lines that tell a person that the budget was spent on the obligation of a number.
pub fn spent_message(
    alloc: Global,
    origin: &Origin,
    obligation: u32,
) -> Result<String, AllocError> {
    lines(alloc, origin, spent(alloc, origin, obligation)?)
}

// Of a rule or limit by its number.
fn ruled(
    alloc: Global,
    origin: &Origin,
    command: &Command,
    number: u16,
    place: Place,
    names: &[Name],
) -> Result<String, AllocError> {
    let case = Case {
        origin: *origin,
        place,
        names,
    };
    match Rule::numbered(number) {
        Some(rule) => lines(alloc, origin, message_of(alloc, rule, command, &case)?),
        None => Ok(String::new(alloc)),
    }
}

// What is said, as lines.
fn lines(alloc: Global, origin: &Origin, said: Said) -> Result<String, AllocError> {
    match said.place {
        Some(place) => placed(alloc, origin, place, said.words.as_str()),
        None => told(alloc, "secv: {}\n", &[Hole::Words(said.words.as_str())]),
    }
}

// What is said of a place, as lines.
fn placed(alloc: Global, origin: &Origin, place: Place, words: &str) -> Result<String, AllocError> {
    let file = file_name(alloc, origin.file)?;
    let mut lines = told(
        alloc,
        "{}:{}: {}\n",
        &[
            Hole::Words(file.as_str()),
            hole_at(place),
            Hole::Words(words),
        ],
    )?;
    push_excerpt(alloc, &mut lines, origin.text, place)?;
    Ok(lines)
}

// A place in a hole.
fn hole_at(place: Place) -> Hole<'static> {
    Hole::Place(place)
}

// What is said of a rule or limit.
fn message_of(
    alloc: Global,
    rule: Rule,
    command: &Command,
    case: &Case,
) -> Result<Said, AllocError> {
    match rule {
        Rule::NotBuilt => limits::unbuilt(alloc, case),
        Rule::Clock => clock(alloc, case),
        Rule::Drivers => Ok(Said::here(case, drivers(alloc, case)?)),
        Rule::FileSize => limits::file_size(alloc, case),
        Rule::Paths => limits::paths(alloc, case),
        Rule::Obligations => limits::obligations(alloc, case),
        Rule::StimulusSize => limits::stimulus_size(alloc),
        Rule::Gen => limits::lanes(alloc, command),
        Rule::NoObligation => limits::no_obligation(alloc, command, case),
        Rule::Level => limits::level(alloc, command, case),
        Rule::Encoding => limits::encoding(alloc, case),
        Rule::ProofSize => limits::proof_size(alloc, command, case),
        Rule::StimulusFile => limits::stimulus_file(alloc, command, case),
        Rule::ObligationSize => limits::nodes(alloc, case),
        _ => Ok(Said::here(case, words_of(alloc, rule, case)?)),
    }
}
