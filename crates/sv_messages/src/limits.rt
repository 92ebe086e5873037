// What is said of limits.
use crate::counts::{PathCounts, obligations_of, paths_to};
use crate::designs::admitted_design;
use crate::said::Said;
use std::alloc::{AllocError, Global};
use sv_ast::{Item, Text};
use sv_design::Design;
use sv_hints::{Case, Hole, Origin, Row, first_unbuilt, owned, place_of, shown_word, told};
use sv_num::Place;
use sv_paths::check_limits;
use sv_words::Command;

/// Of an item that is not built.
pub fn unbuilt(alloc: Global, case: &Case) -> Result<Said, AllocError> {
    let text = case.origin.tree(alloc);
    let (place, words) = unbuilt_in(text.as_ref());
    Ok(Said {
        place,
        words: owned(alloc, words)?,
    })
}

// The place of the first item that is not built, and what is said of it.
fn unbuilt_in(text: Option<&Text>) -> (Option<Place>, &'static str) {
    match first_of(text) {
        Some(item) => (Some(place_of(item)), unbuilt_words(item)),
        None => (None, UNBUILT),
    }
}

fn first_of(text: Option<&Text>) -> Option<&Item> {
    first_unbuilt(text?)
}

const UNBUILT: &str = "memories, invariants and released values are not built yet";

fn unbuilt_words(item: &Item) -> &'static str {
    match item {
        Item::Memory(_) => "memories are not built yet: name the registers, and pick one by `case`",
        Item::Release { .. } => {
            "`$release` is not built yet: label what is made of a secret as secret; what is public \
             beside it is still checked"
        }
        Item::Invariant(_, _) => {
            "`invariant` is not built yet: add its condition to the path that needs it"
        }
        _ => UNBUILT,
    }
}

/// Of a file that is too large.
pub fn file_size(alloc: Global, case: &Case) -> Result<Said, AllocError> {
    let words = told(
        alloc,
        "{}: the file has over 1,048,576 bytes, which is the most: leave out modules that the top \
         has no instance of",
        &[Hole::File(case.origin.file)],
    )?;
    Ok(Said::nowhere(words))
}

// The place where the signal of a name is declared.
fn declared_at(design: &Design, name: &[u8]) -> Option<Place> {
    for signal in design.signals() {
        if signal.name.bytes() == name {
            return Some(signal.place);
        }
    }
    None
}

// Where the signal that is named is declared, and the paths to it.
fn signal_of(
    alloc: Global,
    case: &Case,
) -> Result<(Option<Place>, Option<PathCounts>), AllocError> {
    match admitted_design(alloc, &case.origin) {
        Some(design) => {
            let paths = paths_to(alloc, &design, case.name())?;
            Ok((declared_at(&design, case.name()), paths))
        }
        None => Ok((None, None)),
    }
}

/// Of a signal with too many paths.
pub fn paths(alloc: Global, case: &Case) -> Result<Said, AllocError> {
    let (place, paths) = signal_of(alloc, case)?;
    let words = match paths {
        Some(paths) => told(
            alloc,
            "{} paths lead through the statements to `{}`, and 4,096 there may be: split its \
             block, or name a value between by a `wire`",
            &[Hole::Count(paths.count), Hole::Name(case.name())],
        ),
        None => told(
            alloc,
            "over 4,096 paths lead through the statements to `{}`, which is the most: split its \
             block, or name a value between by a `wire`",
            &[Hole::Name(case.name())],
        ),
    };
    Ok(Said {
        place,
        words: words?,
    })
}

/// Of a path into which too much is put.
pub fn nodes(alloc: Global, case: &Case) -> Result<Said, AllocError> {
    let (place, paths) = signal_of(alloc, case)?;
    let words = match paths {
        Some(paths) => told(
            alloc,
            "{} nodes of earlier values are put into one path of `{}`, and 65,536 there may be: \
             name a value between by a `wire`",
            &[Hole::Count(paths.nodes), Hole::Name(case.name())],
        ),
        None => told(
            alloc,
            "over 65,536 nodes of earlier values are put into one path of `{}`, which is the most: \
             name a value between by a `wire`",
            &[Hole::Name(case.name())],
        ),
    };
    Ok(Said {
        place,
        words: words?,
    })
}

// How many obligations the design has, where that is known.
fn known_count(alloc: Global, origin: &Origin) -> Result<Option<u64>, AllocError> {
    match admitted_design(alloc, origin) {
        Some(design) => obligations_of(alloc, &design),
        None => Ok(None),
    }
}

/// Of too many obligations.
pub fn obligations(alloc: Global, case: &Case) -> Result<Said, AllocError> {
    let file = Hole::File(case.origin.file);
    let words = match known_count(alloc, &case.origin)? {
        Some(count) => told(
            alloc,
            "{}: the design has {} obligations, and 65,536 there may be: split blocks that have \
             many paths; a module that `--top MODULE` checks alone tells nothing of the whole",
            &[file, Hole::Count(count)],
        ),
        None => told(
            alloc,
            "{}: the design has over 65,536 obligations, which are the most: split blocks that \
             have many paths; a module that `--top MODULE` checks alone tells nothing of the whole",
            &[file],
        ),
    };
    Ok(Said::nowhere(words?))
}

/// Of a stimulus that is too large.
pub fn stimulus_size(alloc: Global) -> Result<Said, AllocError> {
    let words =
        "the input has over 1,073,741,824 bytes, which are the most of a stimulus: run it in \
                 parts, each with `start` lines";
    Ok(Said::nowhere(owned(alloc, words)?))
}

/// Of a number of lanes that is not taken.
pub fn lanes(alloc: Global, command: &Command) -> Result<Said, AllocError> {
    let words = match command {
        Command::Gen { lanes, .. } => told(
            alloc,
            "a sample has 1 to 200 lanes, and not {}",
            &[Hole::Number(*lanes as u64)],
        ),
        _ => owned(alloc, "a sample has 1 to 200 lanes"),
    };
    Ok(Said::nowhere(words?))
}

// The number of an obligation that a command names.
fn asked_number(command: &Command) -> u32 {
    match command {
        Command::Cnf { number, .. } => *number,
        _ => 0,
    }
}

// How many obligations a design has, where they exceed no limit.
fn count_of(alloc: Global, origin: &Origin) -> Option<u32> {
    let design = admitted_design(alloc, origin)?;
    check_limits(alloc, &design).ok()
}

/// Of a number that no obligation has.
pub fn no_obligation(alloc: Global, command: &Command, case: &Case) -> Result<Said, AllocError> {
    let file = Hole::File(case.origin.file);
    let number = Hole::Number(asked_number(command) as u64);
    let words = match count_of(alloc, &case.origin) {
        Some(0) => told(alloc, "{}: the design has no obligation", &[file]),
        Some(1) => told(
            alloc,
            "{}: the design has one obligation, 1, and none has the number {}",
            &[file, number],
        ),
        Some(count) => told(
            alloc,
            "{}: the design has the obligations 1 to {}, and none has the number {}",
            &[file, Hole::Number(count as u64), number],
        ),
        None => told(
            alloc,
            "{}: no obligation has the number {}",
            &[file, number],
        ),
    };
    Ok(Said::nowhere(words?))
}

// The level that a command names.
fn asked_level(command: &Command) -> &str {
    match command {
        Command::Sim {
            level: Some(level),
            ..
        } => level.as_str(),
        Command::Compare { level, .. } => level.as_str(),
        _ => "",
    }
}

// The points of a design, in a row.
fn points_of(alloc: Global, design: &Design) -> Result<String, AllocError> {
    let mut row = Row::of_points(alloc);
    for point in design.points() {
        row.add(point.bytes(), "")?;
    }
    row.finish()
}

// Which points there are, in words; nothing where the design is not at hand.
fn point_words(alloc: Global, origin: &Origin) -> Result<String, AllocError> {
    match admitted_design(alloc, origin) {
        Some(design) => named_points(alloc, &design),
        None => Ok(String::new(alloc)),
    }
}

fn named_points(alloc: Global, design: &Design) -> Result<String, AllocError> {
    let points = points_of(alloc, design)?;
    told(
        alloc,
        "; the points are {}",
        &[Hole::Words(points.as_str())],
    )
}

/// Of a level that is no point.
pub fn level(alloc: Global, command: &Command, case: &Case) -> Result<Said, AllocError> {
    let points = point_words(alloc, &case.origin)?;
    let asked = shown_word(alloc, asked_level(command))?;
    let words = told(
        alloc,
        "{}: there is no point `{}`, which `--level` names{}",
        &[
            Hole::File(case.origin.file),
            Hole::Words(asked.as_str()),
            Hole::Words(points.as_str()),
        ],
    )?;
    Ok(Said::nowhere(words))
}

/// Of an obligation whose clauses have too many variables.
pub fn encoding(alloc: Global, case: &Case) -> Result<Said, AllocError> {
    let place = crate::flows::place_of_number(alloc, case, case.name());
    let words = told(
        alloc,
        "the clauses of this obligation, {}, have over 4,194,304 variables, which are the most: \
         name wide products and shifts on its path by registers",
        &[Hole::Name(case.name())],
    )?;
    Ok(Said { place, words })
}

/// Of a certificate that is too large.
pub fn proof_size(alloc: Global, command: &Command, case: &Case) -> Result<Said, AllocError> {
    let name = match command {
        Command::Verify { proof, .. } => proof.as_str(),
        _ => case.origin.file,
    };
    let words = too_large(
        alloc,
        "{}: the certificate has over 268,435,456 bytes, which are the most",
        name,
    )?;
    Ok(Said::nowhere(words))
}

// What is said of a file by its name.
fn too_large(alloc: Global, sentence: &str, file: &str) -> Result<String, AllocError> {
    told(alloc, sentence, &[Hole::File(file)])
}

/// Of a stimulus file that is too large.
pub fn stimulus_file(alloc: Global, command: &Command, case: &Case) -> Result<Said, AllocError> {
    let name = match command {
        Command::Compare { a, .. } if case.name() == b"A".as_slice() => a.as_str(),
        Command::Compare { b, .. } => b.as_str(),
        _ => case.origin.file,
    };
    let words = too_large(
        alloc,
        "{}: the stimulus has over 67,108,864 bytes, which are the most of a comparison: compare \
         fewer cycles",
        name,
    )?;
    Ok(Said::nowhere(words))
}
