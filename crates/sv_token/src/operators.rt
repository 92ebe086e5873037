// Signs by their texts.
ghost use Rattle.std.specs.Prelude.{◌≡◌, ◌<◌, ◌≤◌, length, take, option_map, None, nat_le};
ghost use Rattle.std.specs.Prelude.{if◌then◌else◌};
ghost use Rattle.sv_token.specs.Bytes.{entry};
ghost use Rattle.sv_token.specs.Signs.{punctuation, row_of, binary_spellings, unary_spellings};
ghost use Rattle.sv_token.specs.Signs.{operator_of, left_out_signs, sign_of, sign_at};
ghost use Rattle.sv_token.specs.Views.{form_word, front_of, spelled};

use crate::fronts::{Front, OmittedForm, TokenBreach};
use crate::signs::{Operator, SignKind};
use crate::tokens::TokenKind;
use sv_num::{BINARY, UNARY, find, find_unary};

// The punctuation that the text is.
fn punctuation_of(text: &[u8]) -> Option<SignKind>
    ensures { result ≡ entry punctuation text.now }
{
    let [byte] = text else {
        return None;
    };
    match *byte {
        b'?' => Some(SignKind::Question),
        b':' => Some(SignKind::Colon),
        b';' => Some(SignKind::Semicolon),
        b',' => Some(SignKind::Comma),
        b'.' => Some(SignKind::Dot),
        b'(' => Some(SignKind::OpenParenthesis),
        b')' => Some(SignKind::CloseParenthesis),
        b'[' => Some(SignKind::OpenBracket),
        b']' => Some(SignKind::CloseBracket),
        b'{' => Some(SignKind::OpenBrace),
        b'}' => Some(SignKind::CloseBrace),
        b'=' => Some(SignKind::Equals),
        b'#' => Some(SignKind::Hash),
        b'@' => Some(SignKind::At),
        _ => None,
    }
}

// The row of the text among the binary operators.
fn binary_row(text: &[u8]) -> Option<u8>
    ensures { result ≡ row_of binary_spellings text.now }
{
    find(&BINARY, text).map(|row| row as u8)
}

// The row of the text among the unary operators.
fn unary_row(text: &[u8]) -> Option<u8>
    ensures { result ≡ row_of unary_spellings text.now }
{
    find_unary(&UNARY, text).map(|row| row as u8)
}

// The operator that the text spells.
fn operator_of(text: &[u8]) -> Option<SignKind>
    ensures { result ≡ operator_of text.now }
{
    let binary = binary_row(text);
    let unary = unary_row(text);
    if binary.is_none() && unary.is_none() {
        return None;
    }
    Some(SignKind::Operator(Operator { binary, unary }))
}

// The sign that the text spells.
#[tactic(auto, unfolding(crate::specs::Signs::sign_of))]
fn sign_of(text: &[u8]) -> Option<SignKind>
    ensures { result ≡ sign_of text.now }
{
    match punctuation_of(text) {
        Some(sign) => Some(sign),
        None => operator_of(text),
    }
}

// The form that is left out whose sign the text is.
fn form_of(text: &[u8]) -> Option<OmittedForm>
    ensures { option_map form_word result ≡ entry left_out_signs text.now }
{
    if text == b"===".as_slice() || text == b"!==".as_slice() {
        Some(OmittedForm::CaseEquality)
    } else if text == b"**".as_slice() {
        Some(OmittedForm::Power)
    } else if text == b"+:".as_slice() || text == b"-:".as_slice() {
        Some(OmittedForm::IndexedPart)
    } else if text == b"->".as_slice() {
        Some(OmittedForm::Event)
    } else {
        None
    }
}

// What so many bytes at the front are, where there are so many and they spell a sign.
fn spelled(bytes: &[u8], count: usize) -> Option<Front>
    requires { 1 ≤ count }
    ensures { option_map (front_of bytes.now) result ≡
        (if nat_le count (length bytes.now) then spelled (take count bytes.now) else None) }
{
    let text = bytes.get(..count)?;
    if let Some(form) = form_of(text) {
        return Some(Front::left_out(form));
    }
    let sign = sign_of(text)?;
    Some(Front::Token(TokenKind::Sign(sign), count - 1))
}

/// The longest sign that begins here.
pub fn sign_at(bytes: &[u8]) -> Front
    requires { 0 < length bytes.now }
    ensures { front_of bytes.now result ≡ sign_at bytes.now }
{
    spelled(bytes, 3)
        .or_else(|| spelled(bytes, 2))
        .or_else(|| spelled(bytes, 1))
        .unwrap_or(Front::Broken(TokenBreach::BadByte))
}
