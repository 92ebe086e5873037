// Where a token stands: what is before it, and what is open there.
use crate::tables::is_among;
use sv_num::Place;
use sv_token::{Token, TokenKind, WordKind};

/// A token of a text by its place, with those before it and those behind it; the end of the text
/// where no token has the place.
#[derive(Clone, Copy)]
pub struct Spot<'a> {
    pub text: &'a [u8],
    pub here: Option<&'a Token>,
    pub front: &'a [Token],
    pub behind: &'a [Token],
}

/// The bytes of a token.
pub fn bytes_of<'a>(text: &'a [u8], token: &Token) -> &'a [u8] {
    text.get(token.start..token.end).unwrap_or(b"")
}

/// The token at a place.
pub fn spot_at<'a>(text: &'a [u8], tokens: &'a [Token], place: Place) -> Spot<'a> {
    for (number, token) in tokens.iter().enumerate() {
        if token.place == place {
            return Spot {
                text,
                here: Some(token),
                front: tokens.get(..number).unwrap_or(&[]),
                behind: behind(tokens.get(number..).unwrap_or(&[])),
            };
        }
    }
    Spot {
        text,
        here: None,
        front: tokens,
        behind: &[],
    }
}

// What stands behind the first.
fn behind(tokens: &[Token]) -> &[Token] {
    match tokens {
        [_, behind @ ..] => behind,
        [] => &[],
    }
}

// What a token does to the forms that are open.
#[derive(Clone, Copy)]
enum Bracket {
    Opens,
    Shuts,
    Neither,
}

// What opens a form, and what shuts it.
const OPENING: [&[u8]; 5] = [b"(", b"[", b"{", b"begin", b"case"];

const SHUTTING: [&[u8]; 5] = [b")", b"]", b"}", b"end", b"endcase"];

fn bracket_of(bytes: &[u8]) -> Bracket {
    if is_among(bytes, &OPENING) {
        Bracket::Opens
    } else if is_among(bytes, &SHUTTING) {
        Bracket::Shuts
    } else {
        Bracket::Neither
    }
}

/// The number of the last token among these that opens what none of them shuts: a bracket, a
/// `begin` or a `case`.
pub fn last_open(text: &[u8], tokens: &[Token]) -> Option<usize> {
    let mut shut = 0usize;
    for number in (0..tokens.len()).rev() {
        match bracket_of(bytes_at(text, tokens, Some(number))) {
            Bracket::Opens => match shut.checked_sub(1) {
                Some(less) => shut = less,
                None => return Some(number),
            },
            Bracket::Shuts => shut = shut.saturating_add(1),
            Bracket::Neither => {}
        }
    }
    None
}

/// The bytes of the token of a number; none where there is no such token.
pub fn bytes_at<'a>(text: &'a [u8], tokens: &[Token], number: Option<usize>) -> &'a [u8] {
    match token_at(tokens, number) {
        Some(token) => bytes_of(text, token),
        None => b"",
    }
}

fn token_at(tokens: &[Token], number: Option<usize>) -> Option<&Token> {
    tokens.get(number?)
}

// The token so many before the one of a number.
fn kind_before(tokens: &[Token], number: usize, count: usize) -> Option<TokenKind> {
    let token = tokens.get(number.checked_sub(count)?)?;
    Some(token.kind)
}

/// Whether the word begins a declaration of signals, or stands in one before their names.
pub fn is_type_word(kind: TokenKind) -> bool {
    matches!(
        kind,
        TokenKind::Word(
            WordKind::Input | WordKind::Output | WordKind::Wire | WordKind::Reg | WordKind::Signed
        )
    )
}

/// Whether the word begins a declaration of parameters.
pub fn is_parameter_word(kind: TokenKind) -> bool {
    matches!(
        kind,
        TokenKind::Word(WordKind::Parameter | WordKind::Localparam)
    )
}

/// Whether the bracket of a number opens a label: a brace behind a word of a declaration, or behind
/// its range.
pub fn opens_label(text: &[u8], tokens: &[Token], number: usize) -> bool {
    if bytes_at(text, tokens, Some(number)) != b"{".as_slice() {
        return false;
    }
    match kind_before(tokens, number, 1) {
        Some(kind) if is_type_word(kind) => true,
        _ => bytes_at(text, tokens, number.checked_sub(1)) == b"]".as_slice(),
    }
}

/// Whether the parenthesis of a number opens the selectors of a label: it stands behind a brace and
/// a name.
pub fn opens_selectors(text: &[u8], tokens: &[Token], number: usize) -> bool {
    bytes_at(text, tokens, Some(number)) == b"(".as_slice()
        && matches!(kind_before(tokens, number, 1), Some(TokenKind::Name))
        && bytes_at(text, tokens, number.checked_sub(2)) == b"{".as_slice()
}

/// Whether the parenthesis of a number opens a list, of ports, parameters, links or selectors, and
/// no single expression.
pub fn opens_list(text: &[u8], tokens: &[Token], number: usize) -> bool {
    let last = bytes_at(text, tokens, number.checked_sub(1));
    is_among(last, &[b"#", b")"])
        || matches!(kind_before(tokens, number, 1), Some(TokenKind::Name))
            && bytes_at(text, tokens, number.checked_sub(2)) != b".".as_slice()
}

// Where a text stands in a declaration of signals: in the header of a module, where further ones
// may follow, and in one.
#[derive(Clone, Copy)]
struct Declaring {
    is_header: bool,
    declares: bool,
}

/// Whether a declaration of signals goes on behind these tokens: a port's, a `wire`'s or a `reg`'s,
/// up to its value.
pub fn are_declaring(text: &[u8], tokens: &[Token]) -> bool {
    let mut at = Declaring {
        is_header: false,
        declares: false,
    };
    for token in tokens {
        at = match token.kind {
            TokenKind::Word(kind) => behind_word(at, kind),
            _ => behind_sign(at, bytes_of(text, token)),
        };
    }
    at.declares
}

// Where it stands behind a word.
fn behind_word(at: Declaring, kind: WordKind) -> Declaring {
    match kind {
        WordKind::Module => Declaring {
            is_header: true,
            declares: false,
        },
        WordKind::Signed => at,
        _ => Declaring {
            is_header: at.is_header,
            declares: is_type_word(TokenKind::Word(kind)),
        },
    }
}

// Where it stands behind another token.
fn behind_sign(at: Declaring, sign: &[u8]) -> Declaring {
    let is_end = sign == b";".as_slice();
    let is_value = sign == b"=".as_slice();
    let opens = sign == b"(".as_slice();
    Declaring {
        is_header: at.is_header && !is_end,
        declares: !is_end && !is_value && (at.declares || at.is_header && opens),
    }
}

/// Whether a module begins among these tokens.
pub fn hold_module(tokens: &[Token]) -> bool {
    for token in tokens {
        if let TokenKind::Word(WordKind::Module) = token.kind {
            return true;
        }
    }
    false
}

// Behind what an item or a statement may begin.
const BEFORE_FORM: [&[u8]; 11] = [
    b";",
    b")",
    b":",
    b"*",
    b"begin",
    b"end",
    b"endcase",
    b"else",
    b"endmodule",
    b"endlattice",
    b"endlabelmap",
];

/// Whether the tokens are before an item or a statement, where a form may begin.
pub fn are_before_form(text: &[u8], tokens: &[Token]) -> bool {
    match tokens.last() {
        Some(last) => {
            is_among(bytes_of(text, last), &BEFORE_FORM) || are_before_block(text, tokens)
        }
        None => true,
    }
}

// Whether the last of them is the name of a block.
fn are_before_block(text: &[u8], tokens: &[Token]) -> bool {
    let count = tokens.len();
    bytes_at(text, tokens, count.checked_sub(2)) == b":".as_slice()
        && bytes_at(text, tokens, count.checked_sub(3)) == b"begin".as_slice()
}

/// Whether the tokens are before an event: in the parentheses behind an `@`.
pub fn are_before_event(text: &[u8], tokens: &[Token]) -> bool {
    match last_open(text, tokens) {
        Some(number) => bytes_at(text, tokens, number.checked_sub(1)) == b"@".as_slice(),
        None => false,
    }
}

/// Whether the name at a place stands in the value of the parameter whose name is at another one.
pub fn is_in_value(text: &[u8], tokens: &[Token], parameter: Place, place: Place) -> bool {
    let mut depth = None;
    for token in tokens {
        if token.place == place {
            return depth.is_some();
        }
        depth = if token.place == parameter {
            Some(0u64)
        } else {
            depth_of_value(depth, bytes_of(text, token))
        };
    }
    false
}

// How many brackets are open in the value of a parameter behind a word; None where the value is at
// its end, or no value was before.
fn depth_of_value(depth: Option<u64>, word: &[u8]) -> Option<u64> {
    let before = depth?;
    match bracket_of(word) {
        Bracket::Opens => Some(before.saturating_add(1)),
        Bracket::Shuts => before.checked_sub(1),
        Bracket::Neither if before == 0 && ends_value(word) => None,
        Bracket::Neither => Some(before),
    }
}

// Whether a token ends the value of a parameter.
fn ends_value(bytes: &[u8]) -> bool {
    is_among(bytes, &[b",", b";"])
}

/// How a name at a spot is used: as a clock, as a bound of a range in a declaration, as what a
/// statement assigns, whole or a part of it, or as a value.
#[derive(Clone, Copy)]
pub enum Use {
    Clock,
    Bound,
    Register,
    RegisterPart,
    Value,
}

/// How the name at a spot is used.
pub fn use_at(spot: Spot) -> Use {
    let count = spot.front.len();
    if bytes_at(spot.text, spot.front, count.checked_sub(1)) == b"posedge".as_slice() {
        return Use::Clock;
    }
    if is_bound(spot) {
        return Use::Bound;
    }
    let is_joined = is_in_joined_target(spot);
    if is_joined || are_before_form(spot.text, spot.front) {
        use_as_target(spot, is_joined)
    } else {
        Use::Value
    }
}

// How the name at a spot is used where a statement may begin with it, or where it stands in the
// braces of a target.
fn use_as_target(spot: Spot, is_joined: bool) -> Use {
    let is_part = bytes_at(spot.text, spot.behind, Some(0)) == b"[".as_slice();
    if is_part && (is_joined || is_assigned(spot.text, behind_select(spot))) {
        Use::RegisterPart
    } else if is_joined || is_assigned(spot.text, spot.behind) {
        Use::Register
    } else {
        Use::Value
    }
}

// Whether an assignment's sign comes next.
fn is_assigned(text: &[u8], tokens: &[Token]) -> bool {
    is_among(bytes_at(text, tokens, Some(0)), &[b"=", b"<="])
}

// Whether a spot is in the braces of a target: in those with which a statement begins.
fn is_in_joined_target(spot: Spot) -> bool {
    let Some(number) = last_open(spot.text, spot.front) else {
        return false;
    };
    bytes_at(spot.text, spot.front, Some(number)) == b"{".as_slice()
        && are_before_form(spot.text, spot.front.get(..number).unwrap_or(&[]))
}

// What stands behind the select that comes next.
fn behind_select(spot: Spot) -> &[Token] {
    let mut depth = 0usize;
    for (number, token) in spot.behind.iter().enumerate() {
        match bracket_of(bytes_of(spot.text, token)) {
            Bracket::Opens => depth = depth.saturating_add(1),
            Bracket::Shuts if depth <= 1 => {
                return behind(spot.behind.get(number..).unwrap_or(&[]));
            }
            Bracket::Shuts => depth = depth.saturating_sub(1),
            Bracket::Neither => {}
        }
    }
    &[]
}

/// Whether a spot is in the range of a declaration.
pub fn is_bound(spot: Spot) -> bool {
    let Some(number) = last_open(spot.text, spot.front) else {
        return false;
    };
    if bytes_at(spot.text, spot.front, Some(number)) != b"[".as_slice() {
        return false;
    }
    match kind_before(spot.front, number, 1) {
        Some(kind) => is_type_word(kind) || is_parameter_word(kind),
        None => false,
    }
}
