// Words.
ghost use Rattle.std.specs.Prelude.{◌≡◌, ◌<◌, length, drop, map, find, option_copied, slice_index};
ghost use Rattle.std.specs.Str.{bytes_eq};
ghost use Rattle.sv_token.specs.Bytes.{entry};
ghost use Rattle.sv_token.specs.Words.{word_of, name_at, system_name_at};
ghost use Rattle.sv_token.specs.Views.{front_of, HasWordsFrom};

use crate::bytes::{name_is_next, name_length};
use crate::fronts::{Front, OmittedForm, TokenBreach};
use crate::keywords::WordKind;
use crate::tokens::TokenKind;

// A word and its kind.
type Row = (&'static [u8], WordKind);

// The first of the rows with the text.
fn row_among<'a>(text: &[u8], rows: &'a [Row]) -> Option<&'a Row>
    ensures { option_copied result ≡ find (λ row. bytes_eq row.0.now text.now) rows.now }
{
    rows.iter().find(|row| row.0 == text)
}

// The kind of the word that the text is, among these.
fn kind_among(text: &[u8], rows: &[Row]) -> Option<WordKind>
    ensures { result ≡ entry (map (λ row. (row.0.now, row.1)) rows.now) text.now }
{
    row_among(text, rows).map(|row| row.1)
}

// The words of the grammar with the first byte `e`.
const E_ROWS: [Row; 6] = [
    (b"else", WordKind::Else),
    (b"end", WordKind::End),
    (b"endcase", WordKind::Endcase),
    (b"endmodule", WordKind::Endmodule),
    (b"endlattice", WordKind::Endlattice),
    (b"endlabelmap", WordKind::Endlabelmap),
];

// The words of the grammar with the first byte.
#[tactic(auto, unfolding(crate::specs::Words::word_of))]
fn rows_from(first: u8) -> &'static [Row]
    ensures { HasWordsFrom first (map (λ row. (row.0.now, row.1)) result.now) }
{
    match first {
        b'$' => &[(b"$release", WordKind::Release)],
        b'a' => &[(b"always", WordKind::Always), (b"assign", WordKind::Assign)],
        b'b' => &[(b"begin", WordKind::Begin)],
        b'c' => &[(b"case", WordKind::Case)],
        b'd' => &[(b"default", WordKind::Default)],
        b'e' => &E_ROWS,
        b'i' => &[
            (b"if", WordKind::If),
            (b"input", WordKind::Input),
            (b"invariant", WordKind::Invariant),
        ],
        b'l' => &[
            (b"localparam", WordKind::Localparam),
            (b"lattice", WordKind::Lattice),
            (b"labelmap", WordKind::Labelmap),
        ],
        b'm' => &[(b"module", WordKind::Module)],
        b'o' => &[(b"output", WordKind::Output)],
        b'p' => &[
            (b"parameter", WordKind::Parameter),
            (b"posedge", WordKind::Posedge),
            (b"point", WordKind::Point),
        ],
        b'r' => &[(b"reg", WordKind::Reg)],
        b's' => &[(b"signed", WordKind::Signed)],
        b'w' => &[(b"wire", WordKind::Wire)],
        _ => &[],
    }
}

// The word of the grammar that the text spells, sought among those with its first byte.
#[tactic(auto, unfolding(crate::specs::Words::word_of))]
fn word_of(text: &[u8]) -> Option<WordKind>
    ensures { result ≡ word_of text.now }
{
    kind_among(text, rows_from(*text.first()?))
}

/// From a letter or `_` on: a word of the grammar, or else a name.
pub fn name_at(bytes: &[u8]) -> Front
    requires { 0 < length bytes.now }
    ensures { front_of bytes.now result ≡ name_at (slice_index bytes.now 0) (drop 1 bytes.now) }
{
    let more = name_length(&bytes[1..]);
    match word_of(&bytes[..more + 1]) {
        Some(word) => Front::Token(TokenKind::Word(word), more),
        None => Front::Token(TokenKind::Name, more),
    }
}

/// From `$` on: a word of the grammar.
pub fn system_name_at(bytes: &[u8]) -> Front
    requires some { 0 < length bytes.now }
    requires dollar { slice_index bytes.now 0 ≡ 36 }
    ensures { front_of bytes.now result ≡ system_name_at (drop 1 bytes.now) }
{
    let more = name_length(&bytes[1..]);
    match word_of(&bytes[..more + 1]) {
        Some(word) => Front::Token(TokenKind::Word(word), more),
        None if name_is_next(&bytes[1..more + 1]) => Front::left_out(OmittedForm::SystemName),
        None => Front::Broken(TokenBreach::BadByte),
    }
}
