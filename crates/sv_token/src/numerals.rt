// Numbers (IEEE 1364-2005, clause 3.5).
ghost use Rattle.std.specs.Prelude.{◌≡◌, ℕ, ◌+◌, ◌-◌, ◌%◌, ◌^◌, ◌<◌, ◌≤◌, false, Some, Option};
ghost use Rattle.std.specs.Prelude.{length, take, drop, slice_index, option_map, MatchOption};
ghost use Rattle.std.specs.Prelude.{IfSome, is_some, unwrap_or, ◌||◌, nat_lt};
ghost use Rattle.std.specs.List.{prefix_len, list_all, list_any};
ghost use Rattle.sv_token.specs.Lexemes.{literal_of};
ghost use Rattle.sv_token.specs.Bytes.{is_underscore, next_is};
ghost use Rattle.sv_token.specs.Numerals.{digit_value, value_in, are_digits_in, begins_fraction};
ghost use Rattle.sv_token.specs.Numerals.{spoils_decimal, continues_decimal, continues_digits};
ghost use Rattle.sv_token.specs.Numerals.{base_of, head_at, quoted_head_at, is_four_state, is_size};
ghost use Rattle.sv_token.specs.Numerals.{value_bound, based_literal, plain_literal, based_at};
ghost use Rattle.sv_token.specs.Numerals.{decimal_at, number_at, unsized_number_at};
ghost use Rattle.sv_token.specs.Views.{front_of, head_behind, literal_value};

use crate::fronts::{Front, OmittedForm, TokenBreach};
use crate::tokens::{Lit, TokenKind};
use sv_num::Bits;

// What a digit stands for, letters for 10 and more; other bytes are over every base.
fn digit_value(byte: u8) -> u8
    ensures { result ≡ digit_value byte }
{
    match byte {
        b'0'..=b'9' => byte - b'0',
        b'a'..=b'z' => byte - b'a' + 10,
        b'A'..=b'Z' => byte - b'A' + 10,
        _ => 36,
    }
}

// The number that digits spell in a base. None from 2^128 on.
fn value_in(base: u8, digits: &[u8]) -> Option<u128>
    requires { 1 ≤ base }
    ensures { MatchOption result (2 ^ 128 ≤ value_in base digits.now) (λ value.
        value ≡ value_in base digits.now) }
{
    let mut value: u128 = 0;
    for byte in digits {
        if *byte != b'_' {
            value = value
                .checked_mul(u128::from(base))?
                .checked_add(u128::from(digit_value(*byte)))?;
        }
    }
    Some(value)
}

// Whether all bytes are digits of the base or `_`.
fn are_below(base: u8, digits: &[u8]) -> bool
    ensures { result ≡ list_all (λ b. is_underscore b || nat_lt (digit_value b) base) digits.now }
{
    digits
        .iter()
        .all(|byte| *byte == b'_' || digit_value(*byte) < base)
}

// Whether there are digits, and all are digits of the base.
fn are_digits_in(base: u8, digits: &[u8]) -> bool
    ensures { result ≡ are_digits_in base digits.now }
{
    !digits.is_empty() && are_below(base, digits)
}

// Plain decimals.

// Whether the byte can go on a decimal.
fn continues_decimal(byte: u8) -> bool
    ensures { result ≡ continues_decimal byte }
{
    byte.is_ascii_digit() || byte == b'_'
}

// How many bytes at the front go on a decimal.
fn decimal_length(bytes: &[u8]) -> usize
    ensures is { result ≡ prefix_len continues_decimal bytes.now }
    ensures within { result ≤ length bytes.now }
{
    bytes
        .iter()
        .take_while(|byte| continues_decimal(**byte))
        .count()
}

// Whether `.` and a digit come next.
fn begins_fraction(bytes: &[u8]) -> bool
    ensures { result ≡ begins_fraction bytes.now }
{
    match bytes {
        [dot, digit, ..] => *dot == b'.' && digit.is_ascii_digit(),
        _ => false,
    }
}

// Whether the next byte spoils a decimal.
fn is_spoiled(bytes: &[u8]) -> bool
    ensures { result ≡ next_is spoils_decimal bytes.now }
{
    match bytes {
        [] => false,
        [next, ..] => next.is_ascii_alphabetic() || *next == b'$',
    }
}

// A plain decimal by its length.
fn decimal_at(bytes: &[u8], count: usize) -> Front
    requires some { 1 ≤ count }
    requires within { count ≤ length bytes.now }
    ensures { front_of bytes.now result ≡
        decimal_at (slice_index bytes.now 0) (take (count - 1) (drop 1 bytes.now))
        (drop count bytes.now) }
{
    let rest = &bytes[count..];
    if begins_fraction(rest) {
        return Front::left_out(OmittedForm::Real);
    }
    match value_in(10, &bytes[..count]) {
        Some(value) if value < 1 << 32 && !is_spoiled(rest) => {
            let bits = Bits::of_type(32, true, value as u64);
            Front::Token(TokenKind::Number(Lit { bits, sized: false }), count - 1)
        }
        _ => Front::Broken(TokenBreach::BadNumber),
    }
}

// Based literals.

// The head of a based literal: its signedness and its base, and how many bytes it has behind the
// `'`.
#[derive(Clone, Copy)]
struct Head {
    signed: bool,
    base: u8,
    length: usize,
}

// The base that a letter stands for.
fn base_of(letter: u8) -> Option<u8>
    ensures is { result ≡ base_of letter }
    ensures range { IfSome result (λ base. (2 ≤ base) × (base ≤ 16)) }
{
    match letter {
        b'b' | b'B' => Some(2),
        b'o' | b'O' => Some(8),
        b'd' | b'D' => Some(10),
        b'h' | b'H' => Some(16),
        _ => None,
    }
}

// Behind `'`: `s` or none, and a letter of a base.
fn head_at(bytes: &[u8]) -> Option<Head>
    ensures is { option_map (head_behind bytes.now 0) result ≡ head_at bytes.now }
    ensures range { IfSome result (λ head. (2 ≤ head.base) × (head.length ≤ length bytes.now)) }
{
    let [first, ..] = bytes else {
        return None;
    };
    let signed = matches!(*first, b's' | b'S');
    let letter = *bytes.get(usize::from(signed))?;
    Some(Head {
        signed,
        base: base_of(letter)?,
        length: usize::from(signed) + 1,
    })
}

// The same from `'` on, where it comes next.
fn quoted_head_at(bytes: &[u8]) -> Option<Head>
    ensures is { option_map (head_behind bytes.now 1) result ≡ quoted_head_at bytes.now }
    ensures range { IfSome result (λ head. (2 ≤ head.base) × (1 + head.length ≤ length bytes.now)) }
{
    match bytes {
        [quote, rest @ ..] if *quote == b'\'' => head_at(rest),
        _ => None,
    }
}

// Whether the byte can go on the digits.
fn continues_digits(byte: u8) -> bool
    ensures { result ≡ continues_digits byte }
{
    byte.is_ascii_alphanumeric() || byte == b'_' || byte == b'?'
}

// How many bytes at the front go on the digits.
fn digits_length(bytes: &[u8]) -> usize
    ensures is { result ≡ prefix_len continues_digits bytes.now }
    ensures within { result ≤ length bytes.now }
{
    bytes
        .iter()
        .take_while(|byte| continues_digits(**byte))
        .count()
}

// Whether the byte stands for no value of two.
fn is_four_state(byte: u8) -> bool
    ensures { result ≡ is_four_state byte }
{
    matches!(byte, b'x' | b'X' | b'z' | b'Z' | b'?')
}

// Whether a byte stands for no value of two.
fn has_four_state(digits: &[u8]) -> bool
    ensures { result ≡ list_any is_four_state digits.now }
{
    digits.iter().any(|byte| is_four_state(*byte))
}

// Whether `_` comes next.
fn underscore_is_next(digits: &[u8]) -> bool
    ensures { result ≡ next_is is_underscore digits.now }
{
    match digits {
        [] => false,
        [next, ..] => *next == b'_',
    }
}

// The literal of a value: bits over its length are lost.
fn based_literal(size: Option<u8>, signed: bool, value: u128) -> Lit
    requires some { 1 ≤ unwrap_or size 32 }
    requires few { unwrap_or size 32 ≤ 64 }
    ensures { literal_of result ≡ based_literal size signed value }
{
    let width = size.unwrap_or(32);
    let value = (value % (1 << width)) as u64;
    Lit {
        bits: Bits::of_type(width, signed, value),
        sized: size.is_some(),
    }
}

// The value of digits that are digits of the base. None where they are not, or where the value is
// too large.
fn checked_value(size: Option<u8>, base: u8, digits: &[u8]) -> Option<u128>
    requires { 1 ≤ base }
    ensures { result ≡ literal_value size base digits.now }
{
    if !are_digits_in(base, digits) {
        return None;
    }
    let value = value_in(base, digits)?;
    if size.is_none() && value >= 1 << 32 {
        return None;
    }
    Some(value)
}

// A based literal by the place of its `'`, its size and its head.
fn based_at(bytes: &[u8], quote: usize, size: Option<u8>, head: Head) -> Front
    requires within { quote + 1 + head.length ≤ length bytes.now }
    requires base { 2 ≤ head.base }
    requires some { 1 ≤ unwrap_or size 32 }
    requires few { unwrap_or size 32 ≤ 64 }
    ensures { front_of bytes.now result ≡
        based_at (drop 1 bytes.now) size (head_behind bytes.now (quote + 1) head) }
{
    let start = quote + 1 + head.length;
    let rest = &bytes[start..];
    let digits = &rest[..digits_length(rest)];
    if underscore_is_next(digits) {
        return Front::Broken(TokenBreach::BadNumber);
    }
    if has_four_state(digits) {
        return Front::left_out(OmittedForm::FourState);
    }
    match checked_value(size, head.base, digits) {
        Some(value) => Front::Token(
            TokenKind::Number(based_literal(size, head.signed, value)),
            start + digits.len() - 1,
        ),
        None => Front::Broken(TokenBreach::BadNumber),
    }
}

// The size that digits spell. None unless it is 1 to 64.
fn size_in(digits: &[u8]) -> Option<u8>
    ensures { MatchOption result (is_size (Some (value_in 10 digits.now)) ≡ false) (λ n.
        (n ≡ value_in 10 digits.now) × (1 ≤ n) × (n ≤ 64)) }
{
    match value_in(10, digits) {
        Some(size) if 1 <= size && size <= 64 => Some(size as u8),
        _ => None,
    }
}

// Either at the front.

/// From a digit on: a based literal, of which the digits are the size, or else a plain decimal.
pub fn number_at(bytes: &[u8]) -> Front
    requires { 0 < length bytes.now }
    ensures { front_of bytes.now result ≡ number_at (slice_index bytes.now 0) (drop 1 bytes.now) }
{
    let count = 1 + decimal_length(&bytes[1..]);
    let Some(head) = quoted_head_at(&bytes[count..]) else {
        return decimal_at(bytes, count);
    };
    match size_in(&bytes[..count]) {
        Some(size) => based_at(bytes, count, Some(size), head),
        None => Front::Broken(TokenBreach::BadNumber),
    }
}

/// From `'` on: a based literal without a size.
pub fn unsized_number_at(bytes: &[u8]) -> Front
    requires { 0 < length bytes.now }
    ensures { front_of bytes.now result ≡ unsized_number_at (drop 1 bytes.now) }
{
    match head_at(&bytes[1..]) {
        Some(head) => based_at(bytes, 0, None, head),
        None => Front::Broken(TokenBreach::BadByte),
    }
}
