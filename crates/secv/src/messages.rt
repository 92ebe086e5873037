// What is said to a person on standard error. Where it cannot be said nothing else changes.
use crate::HELP;
use std::alloc::Global;
use std::io::{self, Stderr};
use sv_cli::{Broken, Outcome, UsageKind, file_in, top_in};
use sv_hints::{Origin, file_name};
use sv_messages::{Given, OutOfMemory, message, spent_message};
use sv_words::{Command, read_words};

const MEMORY: &str = "secv: memory ran out";

/// Who reads standard error, and what memory the messages take.
#[derive(Clone, Copy)]
pub struct Person {
    pub alloc: Global,
    pub stderr: Stderr,
}

/// The system's error at the last call that failed, of the files, of the input and of the output.
/// `files_read` says how many files were read before one failed.
#[derive(Drop)]
pub struct Causes<'a> {
    pub file: Option<&'a io::Error>,
    pub files_read: u32,
    pub input: Option<&'a io::Error>,
    pub output: Option<&'a io::Error>,
}

/// What messages are made from: the first file that was read, empty where it was not read whole,
/// and what else is at hand.
#[derive(Clone, Copy)]
pub struct AtHand<'a> {
    pub text: &'a [u8],
    pub given: Given<'a>,
}

/// What stood in the way of a verdict, or what else than the printed answer a person may want to
/// know.
pub fn explain(
    person: Person,
    words: &[String],
    outcome: &Outcome,
    at_hand: &AtHand,
    causes: &Causes,
) {
    match outcome {
        Outcome::Done => {}
        Outcome::Refused(broken) => explain_refusal(person, words, broken, at_hand),
        Outcome::Usage(kind) => explain_usage(person, words, *kind),
        Outcome::Unknown(spent) => explain_spent(person, words, spent.obligation, at_hand.text),
        Outcome::ReadFault => explain_read(person, words, causes),
        Outcome::WriteFault => explain_write(person, words, causes),
        Outcome::OutOfMemory => explain_memory(person),
    }
}

/// That memory ran out.
pub fn explain_memory(person: Person) {
    // not used: where this cannot be written, the status tells of it
    let _ = person.stderr.eprintln(MEMORY);
}

// What the words ask for; None where memory runs out, or they ask for nothing.
fn command_of(person: Person, words: &[String]) -> Option<Command> {
    read_words(person.alloc, words).ok()
}

// FILE of a command; `gen` has none, and its text is the sample.
fn text_in(command: &Command) -> &str {
    file_in(command).unwrap_or("sample")
}

// The file that a command reads once it has read so many.
fn next_file(command: &Command, files_read: u32) -> &str {
    match command {
        Command::Verify { proof, .. } if files_read > 0 => proof.as_str(),
        Command::Compare { a, .. } if files_read == 1 => a.as_str(),
        Command::Compare { b, .. } if files_read > 1 => b.as_str(),
        _ => text_in(command),
    }
}

// The file that a command stores.
fn stored_file(command: &Command) -> &str {
    match command {
        Command::Check {
            proof: Some(name),
            ..
        } => name.as_str(),
        _ => text_in(command),
    }
}

// The text that the words ask about.
fn origin_of<'a>(command: &'a Command, text: &'a [u8]) -> Origin<'a> {
    Origin {
        file: text_in(command),
        top: top_in(command),
        text,
    }
}

// Why a text, a certificate or a stimulus is refused.
fn explain_refusal(person: Person, words: &[String], broken: &Broken, at_hand: &AtHand) {
    let Some(command) = command_of(person, words) else {
        return explain_memory(person);
    };
    let origin = origin_of(&command, at_hand.text);
    let lines = message(person.alloc, &origin, &command, &at_hand.given, broken);
    say(person, lines)
}

// That the budget did not suffice for an obligation.
fn explain_spent(person: Person, words: &[String], obligation: u32, text: &[u8]) {
    let Some(command) = command_of(person, words) else {
        return explain_memory(person);
    };
    let origin = origin_of(&command, text);
    say(person, spent_message(person.alloc, &origin, obligation))
}

// Writes the lines of a message; none where memory ran out.
fn say(person: Person, lines: Result<String, OutOfMemory>) {
    if let Ok(lines) = lines {
        // not used: where this cannot be written, the status tells of the refusal
        let _ = person.stderr.eprint(lines.as_str());
    }
}

// The words that a command takes behind its name, as its line of the help text has them.
fn usage_of(command: &str) -> &'static str {
    for line in HELP.lines() {
        if let Some(words) = words_behind(line, command) {
            return words;
        }
    }
    "[OPTIONS]"
}

// What a line of the help text has behind this command, up to what it says of it.
fn words_behind(line: &'static str, command: &str) -> Option<&'static str> {
    let words = line
        .strip_prefix("  secv ")?
        .strip_prefix(command)?
        .strip_prefix(' ')?;
    Some(words.split_once("  ").map_or(words, |(words, _)| words))
}

fn explain_usage(person: Person, words: &[String], kind: UsageKind) {
    match (kind, words) {
        (UsageKind::UnknownCommand, [word, ..]) => {
            // not used: where this cannot be written, the status tells of it
            let _ = eprintln!(person.stderr;
                "secv: there is no command {}; `secv --help` shows all",
                word.as_str().escape_debug()
            );
        }
        (UsageKind::Words, [word, ..]) => {
            let command = word.as_str().escape_debug();
            let usage = usage_of(word.as_str());
            // not used: where this cannot be written, the status tells of it
            let _ = eprintln!(person.stderr;
                "secv: `{command}` does not take these words; usage: secv {command} {usage} \
                 (`secv {command} --help` says more)"
            );
        }
        _ => explain_words(person, "no command is given"),
    }
}

/// What is wrong with the words, and how they are written.
pub fn explain_words(person: Person, fault: &str) {
    // not used: where this cannot be written, the status tells of it
    let _ = eprintln!(person.stderr;
        "secv: {fault}; usage: secv COMMAND FILE [OPTIONS] (`secv --help` says more)"
    );
}

// Why the system did not read the file, or else the input.
fn explain_read(person: Person, words: &[String], causes: &Causes) {
    match (causes.file, command_of(person, words)) {
        (Some(error), Some(command)) => {
            explain_file(person, next_file(&command, causes.files_read), error)
        }
        (Some(_), None) => explain_memory(person),
        (None, _) => explain_input(person, causes.input),
    }
}

// Why the system did not store the certificate, or else did not write the output.
fn explain_write(person: Person, words: &[String], causes: &Causes) {
    match (causes.file, command_of(person, words)) {
        (Some(error), Some(command)) => explain_file(person, stored_file(&command), error),
        (Some(_), None) => explain_memory(person),
        (None, _) => explain_output(person, causes.output),
    }
}

// A file, and why the system did not read or store it. What cannot be seen in the name is escaped.
fn explain_file(person: Person, file: &str, error: &io::Error) {
    let Ok(name) = file_name(person.alloc, file) else {
        return explain_memory(person);
    };
    // not used: where this cannot be written, the status tells of it
    let _ = eprintln!(person.stderr; "secv: {name}: {error}");
}

// Why the system did not read the input.
fn explain_input(person: Person, error: Option<&io::Error>) {
    // not used: where this cannot be written, the status tells of it
    let _ = match error {
        Some(error) => eprintln!(person.stderr; "secv: the input could not be read: {error}"),
        None => person.stderr.eprintln("secv: the input could not be read"),
    };
}

/// Why the system did not write the output.
pub fn explain_output(person: Person, error: Option<&io::Error>) {
    // not used: where this cannot be written, the status tells of it
    let _ = match error {
        Some(error) => eprintln!(person.stderr; "secv: the output could not be written: {error}"),
        None => person
            .stderr
            .eprintln("secv: the output could not be written"),
    };
}
