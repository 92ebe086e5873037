// What is said of rules on tokens and on the grammar.
use crate::cases::{Case, owned};
use crate::contexts::{
    Spot, are_before_event, are_before_form, are_declaring, bytes_at, bytes_of, hold_module,
    is_parameter_word, is_type_word, last_open, opens_label, opens_list, opens_selectors, spot_at,
};
use crate::forms::grammar_form;
use crate::mistakes::{by_words, foreign, in_block, in_nothing, may_end, ranged};
use crate::sentences::{Hole, told};
use crate::tables::is_among;
use std::alloc::{AllocError, Global};
use sv_num::Place;
use sv_token::{Token, TokenKind, WordKind};

/// Of a byte that begins no token.
pub fn bad_byte(alloc: Global, case: &Case) -> Result<String, AllocError> {
    let byte = byte_at(case.origin.text, case.place);
    if let Some(words) = byte_words(case, byte) {
        return owned(alloc, words);
    }
    match byte {
        Some(byte) if byte.is_ascii_graphic() => told(
            alloc,
            "no token begins with `{}` here",
            &[Hole::Letter(byte as char)],
        ),
        Some(byte) => {
            format!(in alloc; "the byte {byte:#04x} stands in no Verilog text but in comments")
        }
        None => owned(alloc, "this byte stands in no Verilog text but in comments"),
    }
}

// What is said of a byte without telling it.
fn byte_words(case: &Case, byte: Option<u8>) -> Option<&'static str> {
    if has_mark(case) {
        return Some(
            "the file begins with a byte order mark: store it as ASCII or UTF-8 without one",
        );
    }
    match byte? {
        b'\'' => Some(
            "behind `'` the base of a number is missing: one of b, o, d and h, with no blank \
             before it, as in 8'hff",
        ),
        b'$' => Some("`$` alone is no token: it stands inside a name, as in `a$b`"),
        byte if byte >= 128 => Some(
            "characters beyond ASCII stand in comments alone: write a name with letters a to z, \
             and blanks, dashes and quotes of ASCII",
        ),
        _ => None,
    }
}

// The marks of UTF-8 and UTF-16.
const MARKS: [&[u8]; 3] = [b"\xef\xbb\xbf", b"\xfe\xff", b"\xff\xfe"];

// Whether a byte order mark is at the place.
fn has_mark(case: &Case) -> bool {
    case.place == (Place { line: 1, column: 1 }) && begins_with(case.origin.text, &MARKS)
}

// Whether a text begins with one of these.
fn begins_with(text: &[u8], fronts: &[&[u8]]) -> bool {
    for front in fronts {
        if text.starts_with(*front) {
            return true;
        }
    }
    false
}

// The byte at a place.
fn byte_at(text: &[u8], place: Place) -> Option<u8> {
    let line = crate::excerpts::line_of(text, place.line);
    let before = (place.column as usize).checked_sub(1)?;
    line.get(before).copied()
}

/// Of a token that no text goes on with.
pub fn unexpected(alloc: Global, case: &Case) -> Result<String, AllocError> {
    let tokens = case.origin.tokens(alloc)?;
    unexpected_at(alloc, spot_at(case.origin.text, &tokens, case.place))
}

// Of the token at a spot, or of the end of the text.
fn unexpected_at(alloc: Global, spot: Spot) -> Result<String, AllocError> {
    match (spot.here, spot.front.last()) {
        (Some(here), Some(before)) => unexpected_behind(alloc, spot, here, before),
        (Some(here), None) => told(
            alloc,
            "a text does not begin with `{}`: it begins with `module`, or with `lattice` or \
             `labelmap`",
            &[Hole::Name(bytes_of(spot.text, here))],
        ),
        (None, Some(before)) => too_early(alloc, spot, bytes_of(spot.text, before)),
        (None, None) => owned(alloc, "there is no module in this text"),
    }
}

// Of a text that ends too early, behind a word.
fn too_early<'a>(alloc: Global, spot: Spot<'a>, word: &'a [u8]) -> Result<String, AllocError> {
    let word = Hole::Name(word);
    match open_at(spot) {
        Some(open) => told(
            alloc,
            "the text ends too early, behind `{}`: the `{}` of {} is open",
            &[
                word,
                Hole::Name(bytes_of(spot.text, open)),
                Hole::Place(open.place),
            ],
        ),
        None if !hold_module(spot.front) => told(
            alloc,
            "the text ends too early, behind `{}`: a module is missing",
            &[word],
        ),
        None => told(
            alloc,
            "the text ends too early, behind `{}`: is an `end`, `endcase` or `endmodule` missing?",
            &[word],
        ),
    }
}

// What is open last before a spot.
fn open_at(spot: Spot) -> Option<&Token> {
    spot.front.get(last_open(spot.text, spot.front)?)
}

// The usual mistake behind a token that cannot stand where it does: one of which a sentence tells,
// something that is missing behind the token before, or something that is open still.
#[derive(Clone, Copy)]
enum Mistake<'a> {
    Usual(&'static str),
    Missing(&'static str),
    Open(&'a Token),
}

// Of a token behind another one.
fn unexpected_behind<'a>(
    alloc: Global,
    spot: Spot<'a>,
    here: &'a Token,
    before: &'a Token,
) -> Result<String, AllocError> {
    let word = Hole::Name(bytes_of(spot.text, here));
    let last = Hole::Name(bytes_of(spot.text, before));
    match mistake_of(spot, here, before) {
        Some(Mistake::Usual(hint)) => told(
            alloc,
            "`{}` cannot stand behind `{}`: {}",
            &[word, last, Hole::Words(hint)],
        ),
        Some(Mistake::Missing(what)) => told(
            alloc,
            "`{}` cannot stand behind `{}` of {}: is {} missing there?",
            &[word, last, Hole::Place(before.place), Hole::Words(what)],
        ),
        Some(Mistake::Open(open)) => told(
            alloc,
            "`{}` cannot stand behind `{}`: the `{}` of {} is open",
            &[
                word,
                last,
                Hole::Name(bytes_of(spot.text, open)),
                Hole::Place(open.place),
            ],
        ),
        None => told(alloc, "`{}` cannot stand behind `{}`", &[word, last]),
    }
}

// The usual mistake, if one is seen.
fn mistake_of<'a>(spot: Spot<'a>, here: &Token, before: &Token) -> Option<Mistake<'a>> {
    if let Some(hint) = misplaced(spot, here, before) {
        return Some(Mistake::Usual(hint));
    }
    match last_open(spot.text, spot.front) {
        Some(number) => mistake_inside(spot, here, before, number),
        None if asks_end(spot, here, before) => Some(Mistake::Missing("a `;`")),
        None => Some(Mistake::Usual(in_nothing(spot, here)?)),
    }
}

// Whether a `;` may be missing behind the token before, which may be the last of a form: a line
// ends there, or a word begins another form.
fn asks_end(spot: Spot, here: &Token, before: &Token) -> bool {
    let begins = match here.kind {
        TokenKind::Word(WordKind::Input | WordKind::Output | WordKind::Signed) => false,
        TokenKind::Word(_) => true,
        _ => false,
    };
    (begins || here.place.line > before.place.line) && may_end(spot.text, before)
}

// Of a label, a label map or a lattice where none stands, and of what stands there in place of
// something else.
fn misplaced(spot: Spot, here: &Token, before: &Token) -> Option<&'static str> {
    if let Some(hint) = misplaced_word(spot, here.kind, before.kind) {
        return Some(hint);
    }
    if is_selector(spot) {
        if let Some(hint) = no_selector(spot, here) {
            return Some(hint);
        }
    }
    if let Some(hint) = foreign(spot, here) {
        return Some(hint);
    }
    match misplaced_label(spot, here, before) {
        Some(hint) => Some(hint),
        None => by_words(spot, here, before),
    }
}

// Of a word of labels where it cannot stand.
fn misplaced_word(spot: Spot, here: TokenKind, before: TokenKind) -> Option<&'static str> {
    let TokenKind::Word(kind) = here else {
        return None;
    };
    if is_reserved(spot, kind) {
        return Some("it is a reserved word: take another name");
    }
    match kind {
        WordKind::Labelmap if hold_module(spot.front) => {
            Some("a label map stands before all modules")
        }
        WordKind::Lattice if ends_head(before) || hold_module(spot.front) => {
            Some("a text has one lattice, before its label maps and modules")
        }
        _ => None,
    }
}

// Of a token that stands for a selector and is no name.
fn no_selector(spot: Spot, here: &Token) -> Option<&'static str> {
    if let TokenKind::Number(_) = here.kind {
        return Some("a signal picks the row of a label map; for a constant write the point");
    }
    if is_among(bytes_of(spot.text, here), &[b",", b")"]) {
        None
    } else {
        Some("a whole signal picks the row: name the bit or the expression by a `wire`")
    }
}

// Of a label that stands too late or too early in a declaration.
fn misplaced_label(spot: Spot, here: &Token, before: &Token) -> Option<&'static str> {
    let is_late = is_label_late(spot, here);
    if is_late && bytes_of(spot.text, before) == b",".as_slice() {
        return Some(
            "a further name has the label of the one before; declare it on its own, as in `input \
             {H} b`",
        );
    }
    if is_late || is_label_early(spot, here) {
        Some("a label stands behind the range, right before the name")
    } else {
        None
    }
}

// Whether a word of labels stands in a module where no item begins.
fn is_reserved(spot: Spot, kind: WordKind) -> bool {
    let is_of_labels = matches!(
        kind,
        WordKind::Point | WordKind::Lattice | WordKind::Labelmap | WordKind::Invariant
    );
    is_of_labels && hold_module(spot.front) && !are_before_form(spot.text, spot.front)
}

// Whether a word ends a lattice or a label map.
fn ends_head(kind: TokenKind) -> bool {
    matches!(
        kind,
        TokenKind::Word(WordKind::Endlattice | WordKind::Endlabelmap)
    )
}

// Whether a selector of a label stands at a spot.
fn is_selector(spot: Spot) -> bool {
    match last_open(spot.text, spot.front) {
        Some(number) => opens_selectors(spot.text, spot.front, number),
        None => false,
    }
}

// What goes on with a declaration's type.
const TYPE_GOES_ON: [&[u8]; 4] = [b"[", b"signed", b"wire", b"reg"];

// Whether a declaration's type goes on behind its label.
fn is_label_early(spot: Spot, here: &Token) -> bool {
    let Some((last, front)) = spot.front.split_last() else {
        return false;
    };
    bytes_of(spot.text, last) == b"}".as_slice()
        && is_among(bytes_of(spot.text, here), &TYPE_GOES_ON)
        && are_in_label(spot.text, front)
}

// Whether a label is open last among these tokens.
fn are_in_label(text: &[u8], tokens: &[Token]) -> bool {
    match last_open(text, tokens) {
        Some(number) => opens_label(text, tokens, number),
        None => false,
    }
}

// Whether a label stands in a declaration where none can.
fn is_label_late(spot: Spot, here: &Token) -> bool {
    bytes_of(spot.text, here) == b"{".as_slice() && are_declaring(spot.text, spot.front)
}

// The usual mistake inside what the token of a number opens.
fn mistake_inside<'a>(
    spot: Spot<'a>,
    here: &Token,
    before: &Token,
    number: usize,
) -> Option<Mistake<'a>> {
    let open = bytes_at(spot.text, spot.front, Some(number));
    if is_among(open, &[b"begin", b"case"]) {
        if let Some(hint) = in_block(spot, here, bytes_of(spot.text, before), open) {
            return Some(Mistake::Usual(hint));
        }
        if asks_end(spot, here, before) {
            return Some(Mistake::Missing("a `;`"));
        }
        if !ends_inside(spot, here, before, open) {
            return None;
        }
    } else {
        if asks_bracket(spot, here, before) {
            return Some(Mistake::Missing(wanted_in(spot, number)));
        }
        if !ends_brackets(spot, here, open) {
            return None;
        }
    }
    Some(Mistake::Open(spot.front.get(number)?))
}

// Whether a token ends what is around a `begin` or a `case`, or begins an arm around a `begin`, and
// stands in none.
fn ends_inside(spot: Spot, here: &Token, before: &Token, open: &[u8]) -> bool {
    let is_in_begin = open == b"begin".as_slice();
    match here.kind {
        TokenKind::Word(
            WordKind::Endmodule | WordKind::Module | WordKind::Always | WordKind::Assign,
        ) => true,
        TokenKind::Word(WordKind::Endcase) => is_in_begin,
        TokenKind::Word(WordKind::End) => !is_in_begin,
        TokenKind::Word(WordKind::Default) | TokenKind::Number(_) => {
            is_in_begin && is_among(bytes_of(spot.text, before), &[b";", b"end"])
        }
        _ => false,
    }
}

// Whether a sign may be missing before a token inside brackets: a line or a member of a list begins
// with it.
fn asks_bracket(spot: Spot, here: &Token, before: &Token) -> bool {
    may_end(spot.text, before)
        && (begins_member(spot, here) || here.place.line > before.place.line)
        && bytes_of(spot.text, here) != b";".as_slice()
}

// Whether a member of a list begins with a token.
fn begins_member(spot: Spot, here: &Token) -> bool {
    match here.kind {
        TokenKind::Word(WordKind::Input | WordKind::Output | WordKind::Parameter) => true,
        _ => bytes_of(spot.text, here) == b".".as_slice(),
    }
}

// Brackets, what shuts each and what opens it.
const BRACKETS: [(&[u8], &[u8]); 3] = [(b")", b"("), (b"]", b"["), (b"}", b"{")];

// What opens the bracket that a word shuts.
fn opening_of(word: &[u8]) -> Option<&'static [u8]> {
    for bracket in &BRACKETS {
        if bracket.0 == word {
            return Some(bracket.1);
        }
    }
    None
}

// Whether a token stands in no brackets, or shuts others than the one that is open.
fn ends_brackets(spot: Spot, here: &Token, open: &[u8]) -> bool {
    let word = bytes_of(spot.text, here);
    match opening_of(word) {
        Some(opening) => open != opening,
        None => word == b";".as_slice() || is_word(here.kind) && !is_type_word(here.kind),
    }
}

fn is_word(kind: TokenKind) -> bool {
    matches!(kind, TokenKind::Word(_))
}

// What goes on behind a member of the brackets that the token of a number opens.
fn wanted_in(spot: Spot, number: usize) -> &'static str {
    let open = bytes_at(spot.text, spot.front, Some(number));
    if open == b"[".as_slice() {
        "a `]`"
    } else if open == b"{".as_slice() {
        if opens_label(spot.text, spot.front, number) {
            "a `}`"
        } else {
            "a `,` or `}`"
        }
    } else if opens_list(spot.text, spot.front, number) {
        "a `,` or `)`"
    } else {
        "a `)`"
    }
}

/// Of a form of the grammar that is left out.
pub fn left_out(alloc: Global, case: &Case) -> Result<String, AllocError> {
    let tokens = case.origin.tokens(alloc)?;
    let spot = spot_at(case.origin.text, &tokens, case.place);
    let word = case.name();
    match form_words(spot, word) {
        Some(words) => owned(alloc, words),
        None => told(
            alloc,
            "`{}` is a reserved word of Verilog: take another name",
            &[Hole::Name(word)],
        ),
    }
}

// What is said of a form that is left out, by its word; nothing where a name is wanted.
fn form_words(spot: Spot, word: &[u8]) -> Option<&'static str> {
    if word == b"memory".as_slice() {
        if let Some(words) = ranged(spot) {
            return Some(words);
        }
    }
    if is_name(spot, word) {
        return None;
    }
    if word == b"or".as_slice() && !are_before_event(spot.text, spot.front) {
        return Some(grammar_form(b"nor"));
    }
    Some(grammar_form(word))
}

// The reserved words of types that are left out.
const TYPES: [&[u8]; 18] = [
    b"integer",
    b"real",
    b"realtime",
    b"time",
    b"tri",
    b"tri0",
    b"tri1",
    b"triand",
    b"trior",
    b"trireg",
    b"wand",
    b"wor",
    b"supply0",
    b"supply1",
    b"uwire",
    b"unsigned",
    b"vectored",
    b"scalared",
];

// Whether a reserved word stands at a spot where a name is wanted.
fn is_name(spot: Spot, word: &[u8]) -> bool {
    let Some(here) = spot.here else {
        return false;
    };
    bytes_of(spot.text, here) == word
        && !are_before_form(spot.text, spot.front)
        && !is_form(spot, word)
}

// The reserved words of events that are left out.
const EVENTS: [&[u8]; 3] = [b"or", b"negedge", b"edge"];

// Whether a reserved word begins a form that is left out at a spot where no item or statement
// begins.
fn is_form(spot: Spot, word: &[u8]) -> bool {
    if word == b"inout".as_slice() {
        is_before_port(spot)
    } else if is_among(word, &EVENTS) {
        are_before_event(spot.text, spot.front)
    } else {
        is_among(word, &TYPES) && is_type(spot)
    }
}

// Whether a port may begin at a spot.
fn is_before_port(spot: Spot) -> bool {
    match spot.front.last() {
        Some(last) => is_among(bytes_of(spot.text, last), &[b"(", b","]),
        None => false,
    }
}

// Whether a word of a type stands at a spot: behind a word of a declaration, and before a name or
// more of the type.
fn is_type(spot: Spot) -> bool {
    let (Some(before), Some(next)) = (spot.front.last(), spot.behind.first()) else {
        return false;
    };
    (is_type_word(before.kind) || is_parameter_word(before.kind)) && goes_on(spot.text, next)
}

// Whether a declaration goes on with a token behind the word of its type.
fn goes_on(text: &[u8], next: &Token) -> bool {
    match next.kind {
        TokenKind::Name | TokenKind::Word(WordKind::Signed) => true,
        _ => is_among(bytes_of(text, next), &[b"[", b"{"]),
    }
}

/// Of an expression or a `case` that is too long.
pub fn too_long(alloc: Global, case: &Case) -> Result<String, AllocError> {
    let tokens = case.origin.tokens(alloc)?;
    let spot = spot_at(case.origin.text, &tokens, case.place);
    owned(alloc, length_words(spot))
}

// What is too long at a spot: a `case` where a statement ends before it, else an expression.
fn length_words(spot: Spot) -> &'static str {
    let last = bytes_at(spot.text, spot.front, spot.front.len().checked_sub(1));
    if is_among(last, &[b";", b"end", b"endcase"]) {
        "this is the 257th arm of a `case`, which has at most 256: ask the highest bit of its \
         selector by an `if` before"
    } else {
        "this is the 1,025th token of an expression, which has at most 1,024: name a part of it by \
         a `wire`"
    }
}

/// The sign of the assignment whose target stands at a place: true for `=`, false for `<=`.
pub fn is_blocking_at(alloc: Global, case: &Case) -> Result<Option<bool>, AllocError> {
    let tokens = case.origin.tokens(alloc)?;
    Ok(sign_behind(case.origin.text, &tokens, case.place))
}

// The sign of the assignment whose target stands at a place of some tokens.
fn sign_behind(text: &[u8], tokens: &[Token], place: Place) -> Option<bool> {
    let mut depth = 0i64;
    let mut inside = false;
    for token in tokens {
        inside = inside || token.place == place;
        if inside {
            let word = bytes_of(text, token);
            if depth <= 0 && is_among(word, &[b"=", b"<="]) {
                return Some(word == b"=".as_slice());
            }
            depth = depth_behind(depth, word);
        }
    }
    None
}

// How many brackets are open behind a word.
fn depth_behind(depth: i64, word: &[u8]) -> i64 {
    if is_among(word, &[b"[", b"{", b"("]) {
        depth.saturating_add(1)
    } else if opening_of(word).is_some() {
        depth.saturating_sub(1)
    } else {
        depth
    }
}
