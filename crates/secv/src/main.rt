//! The program `secv`: the real files and streams, and one call of `run`.
//!
//! `main` makes the files, the input and the output, and takes the words of the system. `answer`
//! gives the exit status: of a text about the program, or of the outcome of `run` over these three.
//! Only `main` holds the runtime: all else reaches the system through these three, memory, standard
//! error and, for what standard error shows of a simulation that takes long, the clock.
//! What a status says of what passed through them stands in `specs/Ends.antt`. `main` itself has no
//! contract.
#![tactic(auto)]

ghost use Rattle.std.specs.Prelude.{◌≡◌, ℕ, List, [], ◌∷◌, codes};
ghost use Rattle.sv_words.specs.Words.{words_of};
ghost use Rattle.secv.specs.Ends.{IsHelp, IsShown, Prints, Ends, traffic};
ghost use Rattle.secv.specs.Shown.{help_text, version_text};

mod kept;
mod messages;
mod progress;

use kept::{KeptFiles, KeptInput};
use messages::{AtHand, Causes, Person, explain, explain_memory, explain_output, explain_words};
use progress::ProgressLine;
use std::io::{self, ErrorKind, IsTerminal, Stdin, Stdout};
use std::process::ExitCode;
use sv_cli::run;
use sv_io::{FileCabinet, PutFault, StdSink, StdSource, put_all};
use sv_messages::Given;
use sv_words::{CommandName, help_asked, help_text};

const HELP: &str =
    "secv checks designs in SecVerilog: Verilog in which every signal has a security label.

usage:
  secv check FILE [--proof NAME] [--budget NUMBER] [--json] [--top MODULE]
                                    say whether the labels of a design keep every secret
  secv verify FILE PROOF [--top MODULE]
                                    say whether a certificate proves a design to keep every secret
  secv list FILE [--top MODULE]     list the obligations of a design, a line each
  secv cnf FILE NUMBER [--top MODULE]
                                    print the clauses of one obligation of a design, as DIMACS
  secv sim FILE [--level POINT] [--order NUMBER] [--top MODULE]
                                    simulate a design on the stimulus of standard input
  secv compare FILE A B --level POINT [--top MODULE]
                                    run a design on two stimuli and tell the first difference
                                    that a level sees
  secv gen LANES [--check]          print a sample design of 1 to 200 lanes, or check it
  secv COMMAND --help               say more of one command
  secv --help                       print this text
  secv --version                    print the version

exit status: 0 accepted, printed or equal, 1 refused or two runs differ,
             2 wrong words, 3 unknown within the budget,
             4 unreadable file or input, 5 unwritable output or certificate,
             6 out of memory
";

const VERSION: &str = "secv 0.1.0\n";

// The statuses of `Outcome` for what is answered here.
const DONE: u8 = 0;

const WRONG_WORDS: u8 = 2;

const WRITE_FAULT: u8 = 5;

const OUT_OF_MEMORY: u8 = 6;

fn main(rt: HostRuntime) -> ExitCode {
    let person = Person {
        alloc: rt.alloc(),
        stderr: rt.stderr(),
    };
    let mut cabinet = KeptFiles::new(FileCabinet::new(&rt));
    let progress = ProgressLine::new(&rt, rt.stderr(), is_watched(&rt));
    let mut input = KeptInput::new(rt.alloc(), StdSource::new(rt.stdin()), progress);
    let mut out = StdSink::new(rt.stdout());
    let status = match words_of(&rt) {
        Ok(words) => answer(person, &words, &mut cabinet, &mut input, &mut out),
        Err(error) if error.kind() == ErrorKind::InvalidData => {
            explain_words(person, "an argument is not UTF-8");
            print(person, &mut out, "usage words\n", WRONG_WORDS)
        }
        Err(_) => end_without_memory(person),
    };
    ExitCode::from(status)
}

// Whether a person waits at a terminal who neither types the stimulus there nor sees the trace.
fn is_watched(rt: &HostRuntime) -> bool {
    rt.stderr().is_terminal() && !rt.stdin().is_terminal() && !rt.stdout().is_terminal()
}

// The words after the program's name. One that is not UTF-8 is `InvalidData`.
fn words_of(rt: &HostRuntime) -> io::Result<Vec<String>> {
    let words = std::env::args(rt)?.skip(1).collect(rt.alloc())?;
    Ok(words)
}

// The exit status for these words.
fn answer(
    person: Person,
    words: &[String],
    cabinet: &mut KeptFiles<&HostRuntime>,
    input: &mut KeptInput<Stdin, &HostRuntime>,
    out: &mut StdSink<Stdout>,
) -> u8
    ensures help { IsHelp (words_of words.now) → Prints help_text 0 out.old out.new result }
    ensures version { words_of words.now ≡ codes "--version" ∷ [] →
        Prints version_text 0 out.old out.new result }
    ensures shown { IsShown (words_of words.now) →
        (text : List ℕ) × Prints text 0 out.old out.new result }
    ensures alone { IsShown (words_of words.now) →
        (cabinet.new ≡ cabinet.old) × (input.new ≡ input.old) }
    ensures ends { (IsShown (words_of words.now) → ⊥) →
        Ends (words_of words.now) (traffic cabinet.old.files input.old.source out.old)
        (traffic cabinet.new.files input.new.source out.new) result }
{
    match words {
        [word] if word.as_str() == "--help" => print(person, out, HELP, DONE),
        [word] if word.as_str() == "-h" => print(person, out, HELP, DONE),
        [word] if word.as_str() == "--version" => print(person, out, VERSION, DONE),
        words => match help_asked(words) {
            Some(name) => print_help(person, out, name),
            None => command(person, words, cabinet, input, out),
        },
    }
}

// The help of a command.
fn print_help(person: Person, out: &mut StdSink<Stdout>, name: CommandName) -> u8
    ensures { (text : List ℕ) × Prints text 0 out.old out.new result }
{
    match help_text(person.alloc, name) {
        Ok(text) => print(person, out, text.as_str(), DONE),
        Err(_) => end_without_memory(person),
    }
}

// Writes the text. It gives the status, or that of a write fault or of want of memory.
fn print(person: Person, out: &mut StdSink<Stdout>, text: &str, status: u8) -> u8
    ensures { Prints text.now status out.old out.new result }
{
    match put_all(out, text.as_bytes()) {
        Ok(()) => status,
        Err(PutFault::Failed) => {
            explain_output(person, out.last_error());
            WRITE_FAULT
        }
        Err(PutFault::OutOfMemory) => end_without_memory(person),
    }
}

// Says that memory ran out, and gives the status of that.
fn end_without_memory(person: Person) -> u8
    ensures { result ≡ 6 }
{
    explain_memory(person);
    OUT_OF_MEMORY
}

// The status of what `run` answers.
fn command(
    person: Person,
    words: &[String],
    cabinet: &mut KeptFiles<&HostRuntime>,
    input: &mut KeptInput<Stdin, &HostRuntime>,
    out: &mut StdSink<Stdout>,
) -> u8
    ensures { Ends (words_of words.now) (traffic cabinet.old.files input.old.source out.old)
        (traffic cabinet.new.files input.new.source out.new) result }
{
    let outcome = run(person.alloc, words, cabinet, input, out);
    input.progress.wipe();
    let causes = Causes {
        file: cabinet.files.last_error(),
        files_read: cabinet.files.files_read(),
        input: input.source.last_error(),
        output: out.last_error(),
    };
    let at_hand = AtHand {
        text: cabinet.first(),
        given: Given {
            second: cabinet.second(),
            third: cabinet.third(),
            input: input.lines(),
            first: input.first_line(),
        },
    };
    explain(person, words, &outcome, &at_hand, &causes);
    outcome.status()
}
