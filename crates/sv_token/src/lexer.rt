// From bytes to tokens.
ghost use Rattle.std.specs.Prelude.{◌≡◌, ◌+◌, ◌-◌, ◌^◌, ◌<◌, ◌≤◌, length, take, drop, slice_index};
ghost use Rattle.std.specs.Prelude.{All, IfOk, IfErr};
ghost use Rattle.sv_token.specs.Tokens.{AreTokensOf, front_at, next_place, place_behind};
ghost use Rattle.sv_token.specs.Lexemes.{placed_tokens};
ghost use Rattle.sv_token.specs.Spans.{IsAtSpan, IsAtPlace, AreInOrder};
ghost use Rattle.sv_token.specs.Faults.{IsFaultOf};
ghost use Rattle.sv_token.specs.Views.{front_of};

use crate::bytes::{begins_name, is_blank, is_digit, rest_of_line};
use crate::fronts::{Front, OmittedForm};
use crate::gaps::{block_comment_at, directive_at};
use crate::numerals::{number_at, unsized_number_at};
use crate::operators::sign_at;
use crate::tokens::Token;
use crate::words::{name_at, system_name_at};
use std::alloc::Global;
use sv_num::{Fault, Place};

// What stands at the front of the bytes.
fn front_at(bytes: &[u8]) -> Front
    requires { 0 < length bytes.now }
    ensures { front_of bytes.now result ≡ front_at (slice_index bytes.now 0) (drop 1 bytes.now) }
{
    let first = bytes[0];
    if is_blank(first) {
        return Front::Gap(0);
    }
    if bytes.starts_with(b"//") {
        return Front::Gap(rest_of_line(&bytes[1..]));
    }
    if bytes.starts_with(b"/*") {
        return block_comment_at(bytes);
    }
    match first {
        b'`' => directive_at(bytes),
        b'\\' => Front::left_out(OmittedForm::EscapedName),
        b'"' => Front::left_out(OmittedForm::Text),
        b'$' => system_name_at(bytes),
        b'\'' => unsized_number_at(bytes),
        _ if is_digit(first) => number_at(bytes),
        _ if begins_name(first) => name_at(bytes),
        _ => sign_at(bytes),
    }
}

/// The place behind a byte: a line feed ends its line.
pub fn next_place(place: Place, byte: u8) -> Place
    requires line { place.line + 1 < 2 ^ 32 }
    requires column { place.column + 1 < 2 ^ 32 }
    ensures is { result ≡ next_place place byte }
    ensures line { result.line ≤ place.line + 1 }
    ensures column { result.column ≤ place.column + 1 }
{
    if byte == b'\n' {
        Place {
            line: place.line + 1,
            column: 1,
        }
    } else {
        Place {
            line: place.line,
            column: place.column + 1,
        }
    }
}

// A position among the bytes, with its place.
#[derive(Clone, Copy)]
struct Cursor {
    position: usize,
    place: Place,
}

impl Cursor {
    const START: Cursor = Cursor {
        position: 0,
        place: Place { line: 1, column: 1 },
    };

    // Behind the byte that stands here and so many more.
    fn behind(self, bytes: &[u8], more: usize) -> Cursor
        requires within { self.position + more < length bytes.now }
        requires line { self.place.line + more + 1 < 2 ^ 32 }
        requires column { self.place.column + more + 1 < 2 ^ 32 }
        ensures position { result.position ≡ self.position + more + 1 }
        ensures line { result.place.line ≤ self.place.line + more + 1 }
        ensures column { result.place.column ≤ self.place.column + more + 1 }
        ensures place { result.place ≡
            place_behind self.place (take (more + 1) (drop self.position bytes.now)) }
    {
        let position = self.position + more + 1;
        let mut place = self.place;
        for byte in &bytes[self.position..position] {
            place = next_place(place, *byte);
        }
        Cursor { position, place }
    }
}

/// The tokens of a text (IEEE 1364-2005, clause 3), each with the bytes that it spans and its
/// place. A text that breaks a rule on tokens is refused at the first place where it does: rule 101
/// where a byte begins no token, 102 where a number is none, 103 where a comment has no end, 104,
/// with the word for the form, where a form of the standard is left out. Each byte is read a
/// bounded number of times, and memory is taken only for the tokens and for a refusal.
pub fn lex(alloc: Global, bytes: &[u8]) -> Result<Vec<Token>, Fault>
    requires { length bytes.now < 2 ^ 32 - 1 }
    ensures tokens { IfOk result (λ tokens.
        AreTokensOf bytes.now (placed_tokens bytes.now tokens.items)) }
    ensures spans { IfOk result (λ tokens. All (IsAtSpan bytes.now) tokens.items) }
    ensures places { IfOk result (λ tokens. All (IsAtPlace bytes.now) tokens.items) }
    ensures order { IfOk result (λ tokens. AreInOrder 0 tokens.items) }
    ensures refusal { IfErr result (λ fault. IsFaultOf bytes.now fault) }
{
    let mut tokens = Vec::new(alloc);
    let mut here = Cursor::START;
    while here.position < bytes.len() {
        match front_at(&bytes[here.position..]) {
            Front::Gap(more) => here = here.behind(bytes, more),
            Front::Token(kind, more) => {
                let next = here.behind(bytes, more);
                tokens.push(Token {
                    kind,
                    start: here.position,
                    end: next.position,
                    place: here.place,
                })?;
                here = next;
            }
            Front::Broken(breach) => return Err(breach.fault(alloc, here.place)?),
        }
    }
    Ok(tokens)
}
