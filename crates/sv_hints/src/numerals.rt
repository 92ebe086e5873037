// What is said of numbers that cannot be.
use crate::cases::{Case, owned};
use crate::excerpts::line_of;
use crate::sentences::{Hole, told};
use std::alloc::{AllocError, Global};

const BAD_NUMBER: &str =
    "this is no number that can be: without a size it is below 2^32; with one, \
     as in 8'hff, it has 1 to 64 bits and digits of its base; and no letter follows it";

// How many bytes at the front are digits of a decimal, or `_` between them.
fn decimal_length(bytes: &[u8]) -> usize {
    for (number, byte) in bytes.iter().enumerate() {
        if !byte.is_ascii_digit() && *byte != b'_' {
            return number;
        }
    }
    bytes.len()
}

// The value of decimal digits, at most 2^64 - 1.
fn decimal(bytes: &[u8]) -> u64 {
    let mut value = 0u64;
    for byte in bytes {
        if let Some(digit) = byte.checked_sub(b'0') {
            if digit < 10 {
                value = value.saturating_mul(10).saturating_add(digit as u64);
            }
        }
    }
    value
}

// A base: its letter, how many digits it has, and its name.
#[derive(Clone, Copy)]
struct Base {
    letter: u8,
    count: u32,
    name: &'static str,
}

const BASES: [Base; 4] = [
    Base {
        letter: b'b',
        count: 2,
        name: "binary",
    },
    Base {
        letter: b'o',
        count: 8,
        name: "octal",
    },
    Base {
        letter: b'd',
        count: 10,
        name: "decimal",
    },
    Base {
        letter: b'h',
        count: 16,
        name: "hexadecimal",
    },
];

// The base of a letter.
fn base_of(letter: u8) -> Option<Base> {
    for base in &BASES {
        if base.letter == letter.to_ascii_lowercase() {
            return Some(*base);
        }
    }
    None
}

// What stands behind the sign of a base, which is given too; nothing where there is none.
fn behind_base(bytes: &[u8]) -> Option<(Base, &[u8])> {
    match bytes {
        [b'\'', b's' | b'S', letter, rest @ ..] => Some((base_of(*letter)?, rest)),
        [b'\'', letter, rest @ ..] => Some((base_of(*letter)?, rest)),
        _ => None,
    }
}

// How many bytes at the front are letters, digits or `_`.
fn word_length(bytes: &[u8]) -> usize {
    for (number, byte) in bytes.iter().enumerate() {
        if !byte.is_ascii_alphanumeric() && *byte != b'_' && *byte != b'$' {
            return number;
        }
    }
    bytes.len()
}

// The first letter or digit that is no digit of a base.
fn wrong_digit(base: u32, digits: &[u8]) -> Option<u8> {
    for byte in digits {
        let is_digit = match char::from(*byte).to_digit(16) {
            Some(digit) => digit < base,
            None => false,
        };
        if *byte != b'_' && !is_digit {
            return Some(*byte);
        }
    }
    None
}

/// Of a number that cannot be.
pub fn bad_number(alloc: Global, case: &Case) -> Result<String, AllocError> {
    let line = line_of(case.origin.text, case.place.line);
    let at = (case.place.column as usize).saturating_sub(1);
    let bytes = line.get(at..).unwrap_or(b"");
    let count = decimal_length(bytes);
    let front = bytes.get(..count).unwrap_or(b"");
    let rest = bytes.get(count..).unwrap_or(b"");
    match behind_base(rest) {
        Some((base, digits)) => based(alloc, front, base, digits),
        None => plain(alloc, front, rest),
    }
}

// Of a decimal, and what stands behind it.
fn plain(alloc: Global, digits: &[u8], rest: &[u8]) -> Result<String, AllocError> {
    if digits.is_empty() {
        return owned(alloc, BAD_NUMBER);
    }
    let value = decimal(digits);
    if value < 0x1_0000_0000 {
        return told(
            alloc,
            "`{}` stands right behind the number {}: a name begins with no digit, and a number has \
             a base, as in 8'hff, or is decimal",
            &[Hole::Name(word_of(rest)), Hole::Name(digits)],
        );
    }
    if value == u64::MAX {
        return told(
            alloc,
            "the number {} has over 64 bits, which are the most",
            &[Hole::Name(digits)],
        );
    }
    told(
        alloc,
        "{} has no size, so it has to be below 2^32: write its size before it, as in 64'd{}",
        &[Hole::Name(digits), Hole::Name(digits)],
    )
}

// The letters, digits and `_` at the front.
fn word_of(bytes: &[u8]) -> &[u8] {
    bytes.get(..word_length(bytes)).unwrap_or(b"")
}

// Of the digits of a size, a base, and what stands behind it.
fn based(alloc: Global, front: &[u8], base: Base, rest: &[u8]) -> Result<String, AllocError> {
    let size = decimal(front);
    if !front.is_empty() && (size == 0 || size > 64) {
        return told(
            alloc,
            "this number has a size of {} bits, and 1 to 64 there may be",
            &[Hole::Count(size)],
        );
    }
    let digits = word_of(rest);
    match digits.first() {
        None => told(
            alloc,
            "this number has no {} digit behind its base",
            &[Hole::Words(base.name)],
        ),
        Some(b'_') => owned(
            alloc,
            "a digit stands right behind a base, and `_` only later",
        ),
        Some(_) => by_digits(alloc, front.is_empty(), base, digits),
    }
}

// Of the digits behind a base, and whether a size is missing before it.
fn by_digits(
    alloc: Global,
    is_unsized: bool,
    base: Base,
    digits: &[u8],
) -> Result<String, AllocError> {
    if let Some(wrong) = wrong_digit(base.count, digits) {
        return told(
            alloc,
            "`{}` is no {} digit",
            &[Hole::Letter(char::from(wrong)), Hole::Words(base.name)],
        );
    }
    let sentence = if is_unsized {
        "the {} number {} has no size, so it has to be below 2^32: write its size before the `'`, \
         as in 64'hff"
    } else {
        "the {} number {} is 2^128 or more, and 64 bits there may be"
    };
    told(
        alloc,
        sentence,
        &[Hole::Words(base.name), Hole::Name(digits)],
    )
}
