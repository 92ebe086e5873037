// The lines of cycles.
ghost use Rattle.std.specs.Prelude.{◌≡◌, ◌∷◌, true, false, map, MatchOption, IfOk, IfSome};
ghost use Rattle.std.specs.List.{slice_split};
ghost use Rattle.std.specs.Option.{option_copied};
ghost use Rattle.std.specs.Str.Parse.{digits_value};
ghost use Rattle.sv_trace.specs.Reading.{FitWidths};
ghost use Rattle.sv_trace.specs.Steps.{left_words};
ghost use Rattle.sv_trace.specs.Stimulus.{is_blank, words, are_values};

use crate::fields::{read_value, split_first};
use std::alloc::{AllocError, Global};

/// The values of a cycle, one for each width; None where the line is wrong.
pub fn read_cycle(alloc: Global, widths: &[u8], line: &[u8]) -> Result<Option<Vec<u64>>, AllocError>
    ensures right { IfOk result (λ found. MatchOption found
        (are_values widths.now (words line.now) ≡ false)
        (λ values. are_values widths.now (words line.now) ≡ true)) }
    ensures values { IfOk result (λ found. IfSome found (λ values.
        values.items ≡ map (digits_value 16) (words line.now))) }
    ensures fits { IfOk result (λ found. IfSome found (λ values.
        FitWidths widths.now values.items)) }
{
    let mut values = Vec::with_capacity(alloc, widths.len())?;
    let mut rest = first_word(line);
    'words: for width in widths {
        let Some(text) = rest else {
            return Ok(None);
        };
        let (word, after) = next_word(text);
        let Some(value) = read_value(word, *width) else {
            return Ok(None);
        };
        values.push(value)?;
        rest = after;
    }
    if rest.is_some() {
        return Ok(None);
    }
    Ok(Some(values))
}

// The line, if it has a word.
fn first_word(line: &[u8]) -> Option<&[u8]>
    ensures { left_words (option_copied result) ≡ words line.now }
{
    if line.is_empty() {
        return None;
    }
    Some(line)
}

// The first word, and what follows its blank if it has one.
fn next_word(text: &[u8]) -> (&[u8], Option<&[u8]>)
    ensures { slice_split is_blank text.now ≡
        result.0.now ∷ left_words (option_copied result.1) }
{
    match split_first(text, b' ') {
        Some(parts) => (parts.0, Some(parts.1)),
        None => (text, None),
    }
}
