// Usual mistakes in the grammar, by what stands around a token: what is said of each.
use crate::contexts::{
    Spot, are_before_form, bytes_at, bytes_of, hold_module, is_parameter_word, is_type_word,
    last_open,
};
use crate::tables::{Hint, PairHint, hint_on, hint_on_pair, is_among};
use sv_token::{Token, TokenKind, WordKind};

const SYSTEM_VERILOG: &str = "this is SystemVerilog, and Verilog of 2005 is read";

const ELSE: &str = "no `if` waits for it: is an `end` missing before it, or `begin` and `end` \
                    around several statements behind the `if`?";

const ARM: &str = "an arm has one statement: several stand in `begin` and `end`";

/// Of words of SystemVerilog, which are read as names where an item or a declaration begins, and of
/// an assignment outside a block.
pub fn foreign(spot: Spot, here: &Token) -> Option<&'static str> {
    let (name, front) = spot.front.split_last()?;
    if matches!(name.kind, TokenKind::Name) && begins_item(spot, front) {
        if let Some(hint) = foreign_name(spot, here, name, front) {
            return Some(hint);
        }
    }
    let (word, front) = front.split_last()?;
    foreign_word(spot, word, front)
}

// Of a name with which an item begins behind these tokens.
fn foreign_name(spot: Spot, here: &Token, name: &Token, front: &[Token]) -> Option<&'static str> {
    match hint_on(bytes_of(spot.text, name), &FOREIGN) {
        Some(hint) => Some(hint),
        None if is_assignment(spot, here, front) => Some(
            "an assignment stands behind `assign`, or in an `always`, where several stand in \
             `begin` and `end`",
        ),
        None => None,
    }
}

// Of a word where an item or a declaration begins behind these tokens.
fn foreign_word(spot: Spot, word: &Token, front: &[Token]) -> Option<&'static str> {
    if begins_item(spot, front) {
        hint_on(bytes_of(spot.text, word), &FOREIGN)
    } else {
        None
    }
}

// Words of SystemVerilog.
const FOREIGN: [Hint; 16] = [
    (b"logic", "`logic` is left out: declare a `wire` or a `reg`"),
    (b"always_comb", "write `always @*`"),
    (b"always_ff", "write `always @(posedge clk)`"),
    (b"always_latch", SYSTEM_VERILOG),
    (b"assert", SYSTEM_VERILOG),
    (b"bit", SYSTEM_VERILOG),
    (b"byte", SYSTEM_VERILOG),
    (b"enum", SYSTEM_VERILOG),
    (b"import", SYSTEM_VERILOG),
    (b"int", SYSTEM_VERILOG),
    (b"interface", SYSTEM_VERILOG),
    (b"package", SYSTEM_VERILOG),
    (b"priority", SYSTEM_VERILOG),
    (b"struct", SYSTEM_VERILOG),
    (b"typedef", SYSTEM_VERILOG),
    (b"unique", SYSTEM_VERILOG),
];

// Whether an item or a declaration begins, or its type goes on, behind these tokens.
fn begins_item(spot: Spot, front: &[Token]) -> bool {
    match front.last() {
        Some(last) if is_type_word(last.kind) || is_parameter_word(last.kind) => true,
        _ => are_before_form(spot.text, front),
    }
}

// Whether a token is the sign of an assignment in a module, in no block, whose target begins behind
// these tokens.
fn is_assignment(spot: Spot, here: &Token, front: &[Token]) -> bool {
    is_among(bytes_of(spot.text, here), &[b"=", b"<="])
        && hold_module(front)
        && are_before_form(spot.text, front)
        && last_open(spot.text, front).is_none()
}

const NO_COMMA: &str = "take the `,` away";

const NO_SEMICOLON: &str = "take the `;` away";

const NAMED_LINK: &str = "link each port, as in `.a(b)`";

const ASSIGN: &str = "an `assign` takes `=`";

// Of two tokens side by side.
const BESIDE: [PairHint; 7] = [
    (b",", b")", NO_COMMA),
    (b",", b"}", NO_COMMA),
    (b",", b";", NO_COMMA),
    (b";", b";", NO_SEMICOLON),
    (b"end", b";", NO_SEMICOLON),
    (b"endcase", b";", NO_SEMICOLON),
    (b"endmodule", b";", NO_SEMICOLON),
];

// Of two tokens with one between.
const APART: [PairHint; 4] = [
    (b".", b",", NAMED_LINK),
    (b".", b")", NAMED_LINK),
    (b"assign", b"<=", ASSIGN),
    (b"assign", b"==", ASSIGN),
];

/// Of a token and the two before it.
pub fn by_words(spot: Spot, here: &Token, before: &Token) -> Option<&'static str> {
    let word = bytes_of(spot.text, here);
    if let Some(hint) = hint_on_pair(bytes_of(spot.text, before), word, &BESIDE) {
        return Some(hint);
    }
    if let TokenKind::Word(WordKind::If | WordKind::Case) = before.kind {
        return Some("what it asks stands in `(` and `)`");
    }
    let earlier = bytes_at(spot.text, spot.front, spot.front.len().checked_sub(2));
    hint_on_pair(earlier, word, &APART)
}

/// Of a token where no bracket, `begin` or `case` is open.
pub fn in_nothing(spot: Spot, here: &Token) -> Option<&'static str> {
    match here.kind {
        TokenKind::Word(WordKind::Input | WordKind::Output) => {
            Some("ports are declared in the header, as in `module m(input a, output y);`")
        }
        TokenKind::Word(WordKind::If | WordKind::Case | WordKind::Begin)
            if are_before_form(spot.text, spot.front) => {
            Some("a statement stands in an `always`")
        }
        TokenKind::Word(WordKind::Else) if hold_module(spot.front) => Some(ELSE),
        TokenKind::Word(WordKind::End) => Some("no `begin` is open here"),
        TokenKind::Word(WordKind::Module) if hold_module(spot.front) => {
            Some("is an `endmodule` missing before it?")
        }
        _ => None,
    }
}

/// Of a token in a `begin` or a `case`.
pub fn in_block(spot: Spot, here: &Token, last: &[u8], open: &[u8]) -> Option<&'static str> {
    let begins = are_before_form(spot.text, spot.front) && last != b")".as_slice();
    match here.kind {
        TokenKind::Word(WordKind::Else) if begins => Some(ELSE),
        TokenKind::Word(WordKind::Reg | WordKind::Wire) if begins => {
            Some(
                "no signal is declared in a block: declare it before the `always`, or is an `end` \
                 missing?",
            )
        }
        _ if open == b"case".as_slice() && is_second(spot, here) => Some(ARM),
        _ => None,
    }
}

// Whether a statement behind that of an arm is read up to this token, as an item of a next arm.
fn is_second(spot: Spot, here: &Token) -> bool {
    let word = bytes_of(spot.text, here);
    let before = bytes_at(spot.text, spot.front, spot.front.len().checked_sub(2));
    if word == b"=".as_slice() {
        is_among(before, &[b";", b"end"])
    } else {
        word == b";".as_slice() && before == b"<=".as_slice()
    }
}

/// Of a range behind a word of SystemVerilog, which is read as a name.
pub fn ranged(spot: Spot) -> Option<&'static str> {
    let (before, front) = spot.front.split_last()?;
    foreign_word(spot, before, front)
}

/// Whether a token may be the last one of an expression, and before a `;`.
pub fn may_end(text: &[u8], token: &Token) -> bool {
    match token.kind {
        TokenKind::Name | TokenKind::Number(_) => true,
        _ => is_among(bytes_of(text, token), &[b")", b"]", b"}"]),
    }
}
