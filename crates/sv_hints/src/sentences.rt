// Sentences with names, numbers and places in them.
use crate::rows::{file_name, grouped, shown, shown_bytes, shown_word};
use std::alloc::{AllocError, Global};
use sv_num::Place;

/// What stands in a hole of a sentence: a name of the text, the name of a file, a word of a
/// command or of a stimulus, words as they are, a number plainly or with its digits in groups, a
/// letter, or a place as LINE:COLUMN.
#[derive(Clone, Copy)]
pub enum Hole<'a> {
    Name(&'a [u8]),
    File(&'a str),
    Asked(&'a str),
    Given(&'a [u8]),
    Words(&'a str),
    Number(u64),
    Count(u64),
    Letter(char),
    Place(Place),
}

/// A sentence, in which what stands in the holes takes the place of each `{}`.
pub fn told(alloc: Global, sentence: &str, holes: &[Hole]) -> Result<String, AllocError> {
    let mut text = String::new(alloc);
    for (number, part) in sentence.split("{}").enumerate() {
        if let Some(hole) = hole_before(holes, number) {
            push_hole(alloc, &mut text, hole)?;
        }
        text.push_str(part)?;
    }
    Ok(text)
}

// What stands before the part of a number; nothing before the first.
fn hole_before<'a>(holes: &[Hole<'a>], number: usize) -> Option<Hole<'a>> {
    holes.get(number.checked_sub(1)?).copied()
}

// Adds what stands in a hole.
fn push_hole(alloc: Global, text: &mut String, hole: Hole) -> Result<(), AllocError> {
    let words = made(alloc, hole)?;
    text.push_str(words.as_str())
}

// What stands in a hole, as a text of its own.
fn made(alloc: Global, hole: Hole) -> Result<String, AllocError> {
    match hole {
        Hole::Name(name) => shown(alloc, name),
        Hole::File(name) => file_name(alloc, name),
        Hole::Asked(word) => shown_word(alloc, word),
        Hole::Given(word) => shown_bytes(alloc, word),
        Hole::Words(words) => format!(in alloc; "{words}"),
        Hole::Number(number) => format!(in alloc; "{number}"),
        Hole::Count(number) => grouped(alloc, number),
        Hole::Letter(letter) => format!(in alloc; "{letter}"),
        Hole::Place(Place { line, column }) => format!(in alloc; "{line}:{column}"),
    }
}
