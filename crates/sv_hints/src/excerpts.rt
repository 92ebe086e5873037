// The line of a text at a place, and a caret below it.
use std::alloc::{AllocError, Global};
use sv_num::Place;

// How much of a long line is shown, and how much of that stands before the place.
const MOST: usize = 160;

const BEFORE: usize = 100;

// Where a line ends that begins here.
fn line_end(rest: &[u8]) -> usize {
    for (number, byte) in rest.iter().enumerate() {
        if *byte == b'\n' {
            return number;
        }
    }
    rest.len()
}

// What stands behind a line that begins here.
fn behind_line(rest: &[u8]) -> &[u8] {
    let end = line_end(rest);
    match rest.get(end..) {
        Some([_, behind @ ..]) => behind,
        _ => b"",
    }
}

/// A line of a text, by its number from 1, without its end. It is empty where there is none.
pub fn line_of(text: &[u8], line: u32) -> &[u8] {
    let mut rest = text;
    for _ in 1..line {
        rest = behind_line(rest);
    }
    rest.get(..line_end(rest)).unwrap_or(b"")
}

// Whether a character is seen by nobody and moves what stands beside it: a mark of a format, or the
// end of a line or paragraph (Unicode 15, categories Cf, Zl and Zp).
fn is_format(c: char) -> bool {
    matches!(
        c as u32,
        0xad
            | 0x600..=0x605
            | 0x61c
            | 0x6dd
            | 0x70f
            | 0x890..=0x891
            | 0x8e2
            | 0x180e
            | 0x200b..=0x200f
            | 0x2028..=0x202e
            | 0x2060..=0x2064
            | 0x2066..=0x206f
            | 0xfeff
            | 0xfff9..=0xfffb
            | 0x110bd
            | 0x110cd
            | 0x13430..=0x1343f
            | 0x1bca0..=0x1bca3
            | 0x1d173..=0x1d17a
            | 0xe0001
            | 0xe0020..=0xe007f
    )
}

// A character that may be shown: tabs stay, and other control characters do not.
fn shown(c: char) -> char {
    if c == '\t' || !c.is_control() && !is_format(c) {
        c
    } else {
        '\u{fffd}'
    }
}

// Blanks that take as much room as a character: none for a mark on the letter before, and two for a
// wide letter.
fn blanks(c: char) -> &'static str {
    match c as u32 {
        0x9 => "\t",
        0x300..=0x36f => "",
        code if is_wide(code) => "  ",
        _ => " ",
    }
}

// The first and the last of each block of wide letters (Unicode 15, East Asian Width W and F).
const WIDE: [(u32, u32); 14] = [
    (0x1100, 0x115f),
    (0x2e80, 0x303e),
    (0x3041, 0x4dbf),
    (0x4e00, 0xa4cf),
    (0xa960, 0xa97c),
    (0xac00, 0xd7a3),
    (0xf900, 0xfaff),
    (0xfe30, 0xfe6b),
    (0xff01, 0xff60),
    (0xffe0, 0xffe6),
    (0x1f300, 0x1f64f),
    (0x1f680, 0x1f6ff),
    (0x1f900, 0x1f9ff),
    (0x20000, 0x3fffd),
];

fn is_wide(code: u32) -> bool {
    for block in &WIDE {
        if block.0 <= code && code <= block.1 {
            return true;
        }
    }
    false
}

fn push_shown(lines: &mut String, text: &str) -> Result<(), AllocError> {
    for c in text.chars() {
        lines.push(shown(c))?;
    }
    Ok(())
}

fn push_blanks(lines: &mut String, text: &str) -> Result<(), AllocError> {
    for c in text.chars() {
        lines.push_str(blanks(c))?;
    }
    Ok(())
}

/// Adds the line of a text at a place and a line with a caret below that place, each behind two
/// blanks; nothing where the line is empty. Of a long line the part around the place is shown.
pub fn push_excerpt(
    alloc: Global,
    lines: &mut String,
    text: &[u8],
    place: Place,
) -> Result<(), AllocError> {
    let line = line_of(text, place.line);
    if line.is_empty() {
        return Ok(());
    }
    let at = (place.column as usize).saturating_sub(1).min(line.len());
    let from = at.saturating_sub(BEFORE);
    let to = from.saturating_add(MOST).min(line.len());
    let from = if line.len() <= MOST { 0 } else { from };
    let front = String::from_utf8_lossy(alloc, line.get(from..at).unwrap_or(b""))?;
    let rest = String::from_utf8_lossy(alloc, line.get(at..to).unwrap_or(b""))?;
    lines.push_str("  ")?;
    push_shown(lines, front.as_str())?;
    push_shown(lines, rest.as_str().trim_end())?;
    lines.push_str("\n  ")?;
    push_blanks(lines, front.as_str())?;
    lines.push_str("^\n")
}
