// What is said of wrong lines of stimuli and certificates.
use crate::designs::admitted_design;
use std::alloc::{AllocError, Global};
use sv_design::Design;
use sv_flat::{SigId, Signal};
use sv_hints::{Hole, Origin, Row, owned, shown, told};
use sv_report::StimSource;
use sv_trace::StimKind;
use sv_words::Command;

/// What a command was given besides the text, as far as it is at hand: the second and the third
/// file that it read, and of its input the last lines, of which the first has the number `first`.
/// What is not at hand is empty.
#[derive(Clone, Copy)]
pub struct Given<'a> {
    pub second: &'a [u8],
    pub third: &'a [u8],
    pub input: &'a [u8],
    pub first: u64,
}

impl<'a> Given<'a> {
    // A line of a stimulus by its number, without its end; None where it is not at hand.
    fn stimulus(&self, source: StimSource, line: u64) -> Option<&'a [u8]> {
        match source {
            StimSource::Input => line_in(self.input, line.checked_sub(self.first)?),
            StimSource::FileA => line_in(self.second, line.checked_sub(1)?),
            StimSource::FileB => line_in(self.third, line.checked_sub(1)?),
        }
    }

    // The same of a certificate.
    fn proof(&self, line: u64) -> Option<&'a [u8]> {
        line_in(self.second, line.checked_sub(1)?)
    }
}

// The line behind so many of a text, without its end; None where there are no more.
fn line_in(text: &[u8], before: u64) -> Option<&[u8]> {
    let mut rest = text;
    for _ in 0..before {
        rest = cut_at(rest, b'\n').1?;
    }
    if rest.is_empty() {
        None
    } else {
        Some(cut_at(rest, b'\n').0)
    }
}

// What stands up to the next of such bytes, and behind it, where there is one.
fn cut_at(text: &[u8], end: u8) -> (&[u8], Option<&[u8]>) {
    for (number, byte) in text.iter().enumerate() {
        if *byte == end {
            let front = text.get(..number).unwrap_or(b"");
            return (front, text.get(number.saturating_add(1)..));
        }
    }
    (text, None)
}

// The name of the file of a stimulus, where it is not the input.
fn file_of(command: &Command, source: StimSource) -> Option<&str> {
    match (source, command) {
        (StimSource::FileA, Command::Compare { a, .. }) => Some(a.as_str()),
        (StimSource::FileB, Command::Compare { b, .. }) => Some(b.as_str()),
        _ => None,
    }
}

/// Of a wrong line of a stimulus, by its source, its number and what is wrong, with what tells the
/// line before it.
pub fn stimulus(
    alloc: Global,
    origin: &Origin,
    command: &Command,
    given: &Given,
    wrong: (StimSource, u64, StimKind),
) -> Result<String, AllocError> {
    let (source, line, kind) = wrong;
    let wanted = match admitted_design(alloc, origin) {
        Some(design) => wanted_in(alloc, &design, kind, given.stimulus(source, line))?,
        None => owned(alloc, "this line of the stimulus is wrong")?,
    };
    match file_of(command, source) {
        Some(file) => told(
            alloc,
            "{}:{}:1: {}\n",
            &[
                Hole::File(file),
                line_number(line),
                Hole::Words(wanted.as_str()),
            ],
        ),
        None => told(
            alloc,
            line_sentence(source),
            &[Hole::Number(line), Hole::Words(wanted.as_str())],
        ),
    }
}

// The number of a line in a hole.
fn line_number(line: u64) -> Hole<'static> {
    Hole::Number(line)
}

// How a line of a stimulus is told of that has no file of its own.
fn line_sentence(source: StimSource) -> &'static str {
    match source {
        StimSource::Input => "secv: line {} of the input: {}\n",
        _ => "line {} of the input: {}\n",
    }
}

const CRLF: &str = "the line ends with CR and LF: let each line end with LF alone, as \
                    `tr -d '\\r'` makes it";

// Whether a line ends with a carriage return.
fn ends_with_return(found: Option<&[u8]>) -> bool {
    match found {
        Some(line) => matches!(line.last(), Some(b'\r')),
        None => false,
    }
}

// What is wanted in place of a line of a stimulus of a design.
fn wanted_in(
    alloc: Global,
    design: &Design,
    kind: StimKind,
    found: Option<&[u8]>,
) -> Result<String, AllocError> {
    if kind == StimKind::TooLong {
        return owned(
            alloc,
            "the line has over 1,048,576 bytes, which are the most",
        );
    }
    if ends_with_return(found) {
        return owned(alloc, CRLF);
    }
    match (kind, found) {
        (StimKind::Name, Some(line)) => wrong_name(alloc, design, start_of(line).0),
        (StimKind::Name, None) => wrong_name(alloc, design, b""),
        (StimKind::Value, Some(line)) if line.starts_with(b"start ") => {
            wrong_start(alloc, design, line)
        }
        (StimKind::Value, Some(line)) => wrong_cycle(alloc, design, line),
        (StimKind::Value, None) => owned(
            alloc,
            "behind the header each line has a hexadecimal value for each input, with one blank \
             between; and a line `start REGISTER VALUE` one that fits",
        ),
        _ => with_header(
            alloc,
            design,
            "here is to stand the line `{}`, or before it a line `start REGISTER VALUE`",
        ),
    }
}

// A sentence with the header of a stimulus in its hole.
fn with_header(alloc: Global, design: &Design, sentence: &str) -> Result<String, AllocError> {
    let header = header_of(alloc, design)?;
    told(alloc, sentence, &[Hole::Words(header.as_str())])
}

// The name and the value of a line that starts a register.
fn start_of(line: &[u8]) -> (&[u8], &[u8]) {
    let (_, rest) = cut_at(line, b' ');
    let (name, value) = cut_at(rest.unwrap_or(b""), b' ');
    (name, value.unwrap_or(b""))
}

// The register of a name.
fn register_named<'d>(design: &'d Design, name: &[u8]) -> Option<&'d Signal> {
    for register in design.registers() {
        match signal_of(design, *register) {
            Some(signal) if signal.name.bytes() == name => return Some(signal),
            _ => {}
        }
    }
    None
}

// Of a line that starts what is no register, or is started already.
fn wrong_name(alloc: Global, design: &Design, name: &[u8]) -> Result<String, AllocError> {
    if register_named(design, name).is_some() {
        return told(
            alloc,
            "the register `{}` is started by an earlier line already: take one of the two away",
            &[Hole::Given(name)],
        );
    }
    let registers = signals_in(alloc, design, design.registers())?;
    if name.is_empty() {
        return told(
            alloc,
            "behind `start` stand one blank and the name of a register; the registers are {}",
            &[Hole::Words(registers.as_str())],
        );
    }
    told(
        alloc,
        "there is no register `{}`; the registers are {}",
        &[Hole::Given(name), Hole::Words(registers.as_str())],
    )
}

// Whether digits are a hexadecimal value of so many bits.
fn is_value(digits: &[u8], width: u8) -> bool {
    if digits.is_empty() || digits.len() > 16 {
        return false;
    }
    let mut value = 0u64;
    for digit in digits {
        match char::from(*digit).to_digit(16) {
            Some(low) => value = value.wrapping_mul(16) | u64::from(low),
            None => return false,
        }
    }
    width >= 64 || matches!(value.checked_shr(u32::from(width)), Some(0))
}

// How many bits, as a number in a hole.
fn number_of(width: u8) -> Hole<'static> {
    Hole::Number(width as u64)
}

// The unit of so many bits.
fn unit_of(width: u8) -> Hole<'static> {
    Hole::Words(if width == 1 { "bit" } else { "bits" })
}

// Of a line that starts a register by what is no value of it, or behind the header.
fn wrong_start(alloc: Global, design: &Design, line: &[u8]) -> Result<String, AllocError> {
    let (name, value) = start_of(line);
    match register_named(design, name) {
        Some(register) if !is_value(value, register.width) => told(
            alloc,
            "`{}` is no value of the register `{}`: wanted are 1 to 16 hexadecimal digits that fit \
             in {} {}",
            &[
                Hole::Given(value),
                Hole::Name(name),
                number_of(register.width),
                unit_of(register.width),
            ],
        ),
        _ => with_header(
            alloc,
            design,
            "a line `start REGISTER VALUE` stands before the line `{}`: behind it there are values \
             of inputs alone",
        ),
    }
}

// What is wrong with a line of a cycle: an input has no value, or a word that is none, or behind
// all values something stands.
#[derive(Clone, Copy)]
enum CycleFault<'d, 'l> {
    Missing(&'d Signal),
    Value(&'d Signal, &'l [u8]),
    Behind(Option<&'l [u8]>),
}

// The first thing that is wrong with a line of a cycle.
fn cycle_fault<'d, 'l>(design: &'d Design, line: &'l [u8]) -> CycleFault<'d, 'l> {
    let mut rest = Some(line);
    for input in design.inputs() {
        if let Some(signal) = signal_of(design, *input) {
            let Some(text) = rest else {
                return CycleFault::Missing(signal);
            };
            let (word, behind) = cut_at(text, b' ');
            if !is_value(word, signal.width) {
                return CycleFault::Value(signal, word);
            }
            rest = behind;
        }
    }
    CycleFault::Behind(rest)
}

// Of a line of a cycle: the first input that has no value of its own, or values too many.
fn wrong_cycle(alloc: Global, design: &Design, line: &[u8]) -> Result<String, AllocError> {
    if line.is_empty() {
        return with_header(
            alloc,
            design,
            "this line is empty: each has a value for each name of `{}`",
        );
    }
    match cycle_fault(design, line) {
        CycleFault::Missing(signal) => missing_value(alloc, design, signal),
        CycleFault::Value(signal, word) => wrong_value(alloc, signal, word),
        CycleFault::Behind(Some([])) => {
            owned(alloc, "a blank too many stands at the end of this line")
        }
        CycleFault::Behind(_) => with_header(
            alloc,
            design,
            "this line has more values than there are inputs: each has a value for each name of \
             `{}`",
        ),
    }
}

// Of a line of a cycle that ends before the value of an input.
fn missing_value(alloc: Global, design: &Design, signal: &Signal) -> Result<String, AllocError> {
    let header = header_of(alloc, design)?;
    told(
        alloc,
        "a value of the input `{}`, of {} {}, is missing: each line has a value for each name of \
         `{}`",
        &[
            Hole::Name(signal.name.bytes()),
            number_of(signal.width),
            unit_of(signal.width),
            Hole::Words(header.as_str()),
        ],
    )
}

// Of a word that is no value of an input.
fn wrong_value(alloc: Global, signal: &Signal, word: &[u8]) -> Result<String, AllocError> {
    if word.is_empty() {
        return told(
            alloc,
            "a blank too many stands where a value of the input `{}`, of {} {}, is wanted",
            &[
                Hole::Name(signal.name.bytes()),
                number_of(signal.width),
                unit_of(signal.width),
            ],
        );
    }
    let name = shown(alloc, signal.name.bytes())?;
    told(
        alloc,
        "`{}` is no value of the input `{}`: wanted are 1 to 16 hexadecimal digits that fit in {} \
         {}",
        &[
            Hole::Given(word),
            Hole::Words(name.as_str()),
            number_of(signal.width),
            unit_of(signal.width),
        ],
    )
}

// The header of a stimulus: the names of all inputs.
fn header_of(alloc: Global, design: &Design) -> Result<String, AllocError> {
    let mut header = owned(alloc, "inputs")?;
    for input in design.inputs() {
        if let Some(signal) = signal_of(design, *input) {
            push_name(alloc, &mut header, signal)?;
        }
    }
    Ok(header)
}

// Adds a blank and the name of a signal.
fn push_name(alloc: Global, header: &mut String, signal: &Signal) -> Result<(), AllocError> {
    let name = told(alloc, " {}", &[Hole::Name(signal.name.bytes())])?;
    header.push_str(name.as_str())
}

fn signal_of(design: &Design, signal: SigId) -> Option<&Signal> {
    design.signals().get(signal.0 as usize)
}

// Signals with their widths, in a row.
fn signals_in(alloc: Global, design: &Design, listed: &[SigId]) -> Result<String, AllocError> {
    let mut row = Row::new(alloc);
    for signal in listed {
        if let Some(signal) = signal_of(design, *signal) {
            add_signal(alloc, &mut row, signal)?;
        }
    }
    row.finish()
}

// Adds a signal with its width.
fn add_signal(alloc: Global, row: &mut Row, signal: &Signal) -> Result<(), AllocError> {
    let behind = told(
        alloc,
        " ({} {})",
        &[number_of(signal.width), unit_of(signal.width)],
    )?;
    row.add(signal.name.bytes(), behind.as_str())
}

/// Of a wrong line of a certificate.
pub fn proof(
    alloc: Global,
    command: &Command,
    given: &Given,
    line: u64,
) -> Result<String, AllocError> {
    let name = match command {
        Command::Verify { proof, .. } => proof.as_str(),
        _ => "certificate",
    };
    told(
        alloc,
        "{}:{}:1: {}\n",
        &[
            Hole::File(name),
            line_number(line),
            Hole::Words(proof_words(given.proof(line), line)),
        ],
    )
}

// What is said of the line of a number of a certificate.
fn proof_words(found: Option<&[u8]>, line: u64) -> &'static str {
    if ends_with_return(found) {
        return CRLF;
    }
    match line {
        1 => "a certificate begins with the line `secv-proof 1`",
        2 => {
            "the line `obligations N` is to name as many as the design has: if `check` accepts the \
             design, make the certificate anew, by `secv check FILE --proof NAME`"
        }
        _ => {
            "this line has not the form of a certificate, or does not follow from the lines \
             before: if `check` accepts the design, make the certificate anew"
        }
    }
}
