// Comments and directives.
ghost use Rattle.std.specs.Prelude.{◌≡◌, ◌<◌, ◌≤◌, length, drop, IfSome};
ghost use Rattle.std.specs.List.{list_any};
ghost use Rattle.std.specs.Str.{bytes_eq};
ghost use Rattle.sv_token.specs.Gaps.{close_length, skipped_directives, block_comment_at};
ghost use Rattle.sv_token.specs.Gaps.{directive_at};
ghost use Rattle.sv_token.specs.Views.{front_of};

use crate::bytes::{name_is_next, name_length, rest_of_line};
use crate::fronts::{Front, OmittedForm, TokenBreach};
use memchr::memmem;

// The number of bytes up to the first `*/` and with it.
fn close_length(bytes: &[u8]) -> Option<usize>
    ensures is { result ≡ close_length bytes.now }
    ensures within { IfSome result (λ n. n ≤ length bytes.now) }
{
    let place = memmem::find(bytes, b"*/")?;
    Some(place + 2)
}

/// From the `/` of `/*` on: the comment, which has an end.
pub fn block_comment_at(bytes: &[u8]) -> Front
    requires { 2 ≤ length bytes.now }
    ensures { front_of bytes.now result ≡ block_comment_at (drop 1 bytes.now) }
{
    match close_length(&bytes[2..]) {
        Some(length) => Front::Gap(length + 1),
        None => Front::Broken(TokenBreach::OpenComment),
    }
}

// Whether the name is that of a directive whose line is skipped.
fn is_skipped(name: &[u8]) -> bool
    ensures { result ≡ list_any (bytes_eq name.now) skipped_directives }
{
    name == b"timescale".as_slice() || name == b"default_nettype".as_slice()
}

/// From a backquote on: a directive.
pub fn directive_at(bytes: &[u8]) -> Front
    requires { 0 < length bytes.now }
    ensures { front_of bytes.now result ≡ directive_at (drop 1 bytes.now) }
{
    let rest = &bytes[1..];
    let name = &rest[..name_length(rest)];
    if is_skipped(name) {
        Front::Gap(rest_of_line(rest))
    } else if name_is_next(rest) {
        Front::left_out(OmittedForm::Directive)
    } else {
        Front::Broken(TokenBreach::BadByte)
    }
}
