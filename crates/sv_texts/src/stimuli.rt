// Wrong lines of a stimulus.
ghost use Rattle.std.specs.Prelude.{◌≡◌, IfOk};
ghost use Rattle.sv_texts.specs.Texts.{source_word, kind_word, stimulus_text};

use std::alloc::{AllocError, Global};

/// Where a stimulus comes from.
#[derive(Clone, Copy, Debug, PartialEq, Eq)]
pub enum StimSource {
    /// The input.
    Input,
    /// The first of two files.
    FileA,
    /// The second of two files.
    FileB,
}

/// What is wrong with a line of a stimulus. The kinds are asked in this order.
#[derive(Clone, Copy, Debug, PartialEq, Eq)]
pub enum StimKind {
    /// It has more than 1,048,576 bytes before its line feed.
    TooLong,
    /// It stands before the header, does not begin with `start ` and is not the header; or the text
    /// ends before the header.
    Header,
    /// It is the start of an unknown register, or of one that was started before.
    Name,
    /// Anything else.
    Value,
}

fn source_word(source: StimSource) -> &'static str
    ensures { result.now ≡ source_word source }
{
    match source {
        StimSource::Input => "input",
        StimSource::FileA => "A",
        StimSource::FileB => "B",
    }
}

fn kind_word(kind: StimKind) -> &'static str
    ensures { result.now ≡ kind_word kind }
{
    match kind {
        StimKind::TooLong => "too-long",
        StimKind::Header => "header",
        StimKind::Name => "name",
        StimKind::Value => "value",
    }
}

/// That the line of this number is the first wrong one of a stimulus, and what is wrong with it.
pub fn stimulus_text(
    alloc: Global,
    source: StimSource,
    line: u64,
    kind: StimKind,
) -> Result<Vec<u8>, AllocError>
    ensures { IfOk result (λ text. text.items ≡ stimulus_text source line kind) }
{
    let mut text = Vec::from_slice(alloc, b"refused stimulus ")?;
    text.extend_from_slice(source_word(source).as_bytes())?;
    text.extend_from_slice(format!(in alloc; " {line} ")?.as_bytes())?;
    text.extend_from_slice(kind_word(kind).as_bytes())?;
    text.push(b'\n')?;
    Ok(text)
}
