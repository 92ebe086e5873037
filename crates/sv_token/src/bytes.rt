// Bytes and what they can stand in.
ghost use Rattle.std.specs.Prelude.{◌≡◌, ◌≤◌, length};
ghost use Rattle.std.specs.List.{prefix_len, position_or_len};
ghost use Rattle.sv_token.specs.Bytes.{is_blank, is_digit, is_line_feed, begins_name};
ghost use Rattle.sv_token.specs.Bytes.{continues_name, next_is};

use memchr::memchr;

/// Whether the byte is a blank (IEEE 1364-2005, clause 3).
pub fn is_blank(byte: u8) -> bool
    ensures { result ≡ is_blank byte }
{
    matches!(byte, b' ' | b'\t' | b'\r' | b'\n' | 0x0c)
}

/// Whether the byte is a digit.
pub fn is_digit(byte: u8) -> bool
    ensures { result ≡ is_digit byte }
{
    byte.is_ascii_digit()
}

/// Whether a name can begin with the byte.
pub fn begins_name(byte: u8) -> bool
    ensures { result ≡ begins_name byte }
{
    byte.is_ascii_alphabetic() || byte == b'_'
}

// Whether the byte can go on a name.
fn continues_name(byte: u8) -> bool
    ensures { result ≡ continues_name byte }
{
    begins_name(byte) || is_digit(byte) || byte == b'$'
}

/// How many bytes at the front go on a name.
pub fn name_length(bytes: &[u8]) -> usize
    ensures is { result ≡ prefix_len continues_name bytes.now }
    ensures within { result ≤ length bytes.now }
{
    bytes
        .iter()
        .take_while(|byte| continues_name(**byte))
        .count()
}

/// Whether a name begins here.
pub fn name_is_next(bytes: &[u8]) -> bool
    ensures { result ≡ next_is begins_name bytes.now }
{
    match bytes {
        [] => false,
        [next, ..] => begins_name(*next),
    }
}

/// How many bytes stand before the line feed, or how many there are where there is none.
#[tactic(auto, using(crate::proofs::LineLaws::line_end))]
pub fn rest_of_line(bytes: &[u8]) -> usize
    ensures { result ≡ position_or_len is_line_feed bytes.now }
{
    memchr(b'\n', bytes).unwrap_or(bytes.len())
}
