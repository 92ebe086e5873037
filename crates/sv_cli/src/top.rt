// The top call.
ghost use Rattle.std.specs.Prelude.{◌≡◌, ◌↔◌, ◌++◌, ◌+◌, ◌≤◌, ◌⊎◌, ℕ, List, None, Some};
ghost use Rattle.std.specs.Prelude.{IfSome, IfNone, IsSome, IsTrue, length};
ghost use Rattle.sv_flat.specs.Views.{design_of};
ghost use Rattle.sv_io.specs.Count.{Rose};
ghost use Rattle.sv_io.specs.Exchange.{Exchange};
ghost use Rattle.sv_io.specs.Sink.{WritesFront};
ghost use Rattle.sv_io.specs.Source.{WhateverFollows};
ghost use Rattle.sv_io.specs.Traffic.{files_by, input_by, output_by};
ghost use Rattle.sv_paths.specs.Limits.{excess};
ghost use Rattle.sv_paths.specs.ListLines.{list_text};
ghost use Rattle.sv_encoding.specs.CnfText.{cnf_text};
ghost use Rattle.sv_blast.specs.Coded.{encoding_of};
ghost use Rattle.sv_sim_run.specs.Simulated.{largest_stimulus, level_asked, WritesAllCycles};
ghost use Rattle.sv_words.specs.Words.{Request, request_of, words_of, plain, HasBudget};
ghost use Rattle.sv_cli.specs.Answer.{Answer, answer_of, done, views_differ};
ghost use Rattle.sv_cli.specs.Command.{file_in, top_in, Claims};
ghost use Rattle.sv_cli.specs.Dialogues.{IsTextOf};
ghost use Rattle.sv_cli.specs.Prepared.{IsReady, IsPerformed, Performs, IsSimulationWith};
ghost use Rattle.sv_cli.specs.Prepared.{ReadiesFor, ReadiesWords};
ghost use Rattle.sv_cli.specs.Runs.{Runs};
ghost use Rattle.sv_cli.specs.Texts.{HasValidObligations, KeepsSecrets};

use crate::clauses::put_clauses;
use crate::fetching::fetch_once;
use crate::laws::{accepted_texts_keep_secrets, secret_keepers_show_no_leak};
use crate::listing::put_lines;
use crate::outcome::Outcome;
use crate::prepared::{NoReport, Prepared, file_in, prepare_text, style_in};
use crate::report::{Report, report_of_bare_limit, report_of_misuse};
use crate::sample::prepare_sample;
use crate::simulation::simulation;
use std::alloc::Global;
use sv_blast::Coded;
use sv_design::Design;
use sv_io::{Cabinet, FetchFault, PutFault, Sink, Source, put_all};
use sv_num::Rule;
use sv_words::{Command, WordFault, read_words};

// The bytes of the largest source file.
const LARGEST_FILE: u64 = 1_048_576;

/// Does what the words ask: `check FILE` says the verdict of the file's text, as JSON with `--json`,
/// and stores the certificate under NAME with `--proof NAME`; `verify FILE PROOF` says whether the
/// certificate of the file PROOF shows that the text keeps its secrets; `list FILE` lists its
/// obligations, `cnf FILE NUMBER` prints the clauses of one of these, and `sim FILE` simulates its
/// design on the stimulus that the input gives; `compare FILE A B` tells the first difference that
/// the level of `--level` sees of its runs on two stimuli; each with the module of `--top M` as the
/// text's top where that is named. `gen LANES` prints a sample design, or judges it with `--check`.
///
/// It fetches FILE once, where the command has one, judges what that fetch handed out, and writes
/// the answer, as the definitions of `Dialogues` say. What it says of a text holds for every cabinet, source and sink,
/// those of the real system among them.
pub fn run<C: Cabinet, S: Source, K: Sink>(
    alloc: Global,
    words: &[String],
    cabinet: &mut C,
    input: &mut S,
    out: &mut K,
) -> Outcome
    // The headline: the text that the fetch of FILE handed out, or the sample of `gen`, keeps its
    // secrets, from the module asked for as the top, where `check`, `verify` or `gen --check`
    // accepts it.
    ensures noninterference { result ≡ Outcome.Done →
        (request : Request) → request_of (words_of words.now) ≡ Some request → Claims request →
        (text : List ℕ) × (exchanges : List Exchange)
        × (C.exchanges cabinet.new ≡ C.exchanges cabinet.old ++ exchanges)
        × IsTextOf request exchanges text × KeepsSecrets (top_in request) text }

    // And what carries it: each obligation of that text is valid.
    ensures valid { result ≡ Outcome.Done →
        (request : Request) → request_of (words_of words.now) ≡ Some request → Claims request →
        (text : List ℕ) × (exchanges : List Exchange)
        × (C.exchanges cabinet.new ≡ C.exchanges cabinet.old ++ exchanges)
        × IsTextOf request exchanges text × HasValidObligations (top_in request) text }

    // Where `compare` tells that views differ, of inputs that look alike, the text that the fetch of
    // FILE handed out does not keep its secrets.
    ensures no_leak { (cycle signal : ℕ) → answer_of result ≡ Some (views_differ cycle signal) →
        (request : Request) × (text : List ℕ) × (exchanges : List Exchange)
        × (request_of (words_of words.now) ≡ Some request)
        × (C.exchanges cabinet.new ≡ C.exchanges cabinet.old ++ exchanges)
        × IsTextOf request exchanges text
        × (KeepsSecrets (top_in request) text → ⊥) }
    ensures runs { Runs C.tells S.tells (words_of words.now)
        (record {
          files = files_by C.exchanges C.held C.fetch_faults C.store_faults cabinet.old;
          input = input_by S.given S.left S.ended S.faults input.old;
          output = output_by K.accepted K.faults out.old;
        })
        (record {
          files = files_by C.exchanges C.held C.fetch_faults C.store_faults cabinet.new;
          input = input_by S.given S.left S.ended S.faults input.new;
          output = output_by K.accepted K.faults out.new;
        })
        result }
{
    accepted_texts_keep_secrets();
    secret_keepers_show_no_leak();
    match prepare(alloc, words, cabinet) {
        Ok(prepared) => perform(alloc, prepared, input, out),
        Err(NoReport::Unread) => Outcome::ReadFault,
        Err(NoReport::Unwritten) => Outcome::WriteFault,
        Err(NoReport::OutOfMemory) => Outcome::OutOfMemory,
    }
}

// What is prepared for the words: FILE is fetched, and its text is judged.
fn prepare<C: Cabinet>(
    alloc: Global,
    words: &[String],
    cabinet: &mut C,
) -> Result<Prepared, NoReport>
    ensures { ReadiesWords (words_of words.now) C.tells
        (files_by C.exchanges C.held C.fetch_faults C.store_faults cabinet.old)
        (files_by C.exchanges C.held C.fetch_faults C.store_faults cabinet.new) result }
{
    match read_words(alloc, words) {
        Ok(command) => prepare_command(alloc, command, cabinet),
        Err(WordFault::Usage(kind)) => Ok(Prepared::Whole(report_of_misuse(alloc, kind)?)),
        Err(WordFault::OutOfMemory) => Err(NoReport::OutOfMemory),
    }
}

// What is prepared for a command.
fn prepare_command<C: Cabinet>(
    alloc: Global,
    command: Command,
    cabinet: &mut C,
) -> Result<Prepared, NoReport>
    requires { HasBudget (plain command) }
    ensures { ReadiesFor (plain command) C.tells
        (files_by C.exchanges C.held C.fetch_faults C.store_faults cabinet.old)
        (files_by C.exchanges C.held C.fetch_faults C.store_faults cabinet.new) result }
{
    match file_in(&command) {
        Some(file) => match fetch_once(alloc, file, LARGEST_FILE, cabinet) {
            Ok(bytes) => prepare_text(alloc, command, &bytes, cabinet),
            Err(FetchFault::Long(_)) => {
                Ok(Prepared::Whole(report_of_bare_limit(
                    alloc,
                    style_in(&command),
                    Rule::FileSize,
                )?))
            }
            Err(FetchFault::Failed) => Err(NoReport::Unread),
            Err(FetchFault::OutOfMemory) => Err(NoReport::OutOfMemory),
        },
        None => prepare_alone(alloc, &command, cabinet),
    }
}

// What is prepared for a command that reads no file.
fn prepare_alone<C: Cabinet>(
    alloc: Global,
    command: &Command,
    cabinet: &mut C,
) -> Result<Prepared, NoReport>
    requires { file_in (plain command.now) ≡ None }
    ensures { ReadiesFor (plain command.now) C.tells
        (files_by C.exchanges C.held C.fetch_faults C.store_faults cabinet.old)
        (files_by C.exchanges C.held C.fetch_faults C.store_faults cabinet.new) result }
{
    match command {
        Command::Gen { lanes, check } => prepare_sample(alloc, *lanes, *check, cabinet),
        _ => unreachable!(),
    }
}

// Does what is prepared.
fn perform<S: Source, K: Sink>(
    alloc: Global,
    prepared: Prepared,
    input: &mut S,
    out: &mut K,
) -> Outcome
    requires { IsReady prepared }
    ensures performed { Performs (IsPerformed prepared)
        (λ stimulus. S.given input.new ≡ S.given input.old ++ stimulus) S.tells (S.left input.old)
        (K.accepted out.old) (K.accepted out.new) (answer_of result) }
    ensures to_the_end { WhateverFollows (S.ended input.new) (S.given input.old) (S.given input.new)
        (λ stimulus. IfSome (answer_of result) (λ a. (printed : List ℕ)
        × IsPerformed prepared stimulus a printed
        × (K.accepted out.new ≡ K.accepted out.old ++ printed))) }
    ensures front_to_the_end { WhateverFollows (S.ended input.new) (S.given input.old)
        (S.given input.new) (λ stimulus. IfNone (answer_of result) ((a : Answer)
        × (printed : List ℕ) × IsPerformed prepared stimulus a printed
        × WritesFront (K.accepted out.old) printed (K.accepted out.new))) }
    ensures unfailed { IfSome (answer_of result) (λ _.
        (S.faults input.new ≡ S.faults input.old) × (K.faults out.new ≡ K.faults out.old)) }
    ensures read_fault { result ≡ Outcome.ReadFault →
        (stimulus : List ℕ)
        × (S.given input.new ≡ S.given input.old ++ stimulus)
        × Rose (S.faults input.old) (S.faults input.new)
        × (IsTrue (S.ended input.new) ↔ IsTrue (S.ended input.old))
        × IsSimulationWith (λ level design.
        WritesAllCycles design level stimulus (K.accepted out.old) (K.accepted out.new)) prepared }
    ensures write_fault { result ≡ Outcome.WriteFault → Rose (K.faults out.old) (K.faults out.new) }
    ensures input_unchanged { (input.new ≡ input.old)
        ⊎ IsSimulationWith (λ level design. IsSome (level_asked design level)) prepared }
    ensures most { (stimulus : List ℕ) → S.given input.new ≡ S.given input.old ++ stimulus →
        length stimulus ≤ largest_stimulus + 1 }
{
    match prepared {
        Prepared::Whole(report) => send(out, report),
        Prepared::Lines(design) => send_lines(alloc, out, &design),
        Prepared::Clauses(coded) => send_clauses(alloc, out, &coded),
        Prepared::Simulation(design, level, order) => {
            simulation(alloc, &design, level.as_deref(), order, input, out)
        }
    }
}

// Writes a report. Its outcome is the answer where all of it was accepted.
fn send<K: Sink>(out: &mut K, report: Report) -> Outcome
    requires { IsSome (answer_of report.outcome) }
    ensures answered { IfSome (answer_of result) (λ a. answer_of report.outcome ≡ Some a) }
    ensures whole { IfSome (answer_of result)
        (λ _. K.accepted out.new ≡ K.accepted out.old ++ report.text.items) }
    ensures front { IfNone (answer_of result)
        (WritesFront (K.accepted out.old) report.text.items (K.accepted out.new)) }
    ensures unfailed { IfSome (answer_of result) (λ _. K.faults out.new ≡ K.faults out.old) }
    ensures no_read { result ≡ Outcome.ReadFault → ⊥ }
    ensures write_fault { result ≡ Outcome.WriteFault → Rose (K.faults out.old) (K.faults out.new) }
{
    match put_all(out, &report.text) {
        Ok(()) => report.outcome,
        Err(PutFault::Failed) => Outcome::WriteFault,
        Err(PutFault::OutOfMemory) => Outcome::OutOfMemory,
    }
}

// Writes the lines of the obligations of a design, each target's as they are made.
fn send_lines<K: Sink>(alloc: Global, out: &mut K, design: &Design) -> Outcome
    requires { excess (design_of design.now) ≡ None }
    ensures answered { IfSome (answer_of result) (λ a. a ≡ done) }
    ensures whole { IfSome (answer_of result)
        (λ _. K.accepted out.new ≡ K.accepted out.old ++ list_text (design_of design.now)) }
    ensures front { IfNone (answer_of result)
        (WritesFront (K.accepted out.old) (list_text (design_of design.now))
        (K.accepted out.new)) }
    ensures unfailed { IfSome (answer_of result) (λ _. K.faults out.new ≡ K.faults out.old) }
    ensures no_read { result ≡ Outcome.ReadFault → ⊥ }
    ensures write_fault { result ≡ Outcome.WriteFault → Rose (K.faults out.old) (K.faults out.new) }
{
    match put_lines(alloc, out, design) {
        Ok(()) => Outcome::Done,
        Err(PutFault::Failed) => Outcome::WriteFault,
        Err(PutFault::OutOfMemory) => Outcome::OutOfMemory,
    }
}

// Writes the clauses of an obligation, piece by piece.
fn send_clauses<K: Sink>(alloc: Global, out: &mut K, coded: &Coded) -> Outcome
    ensures answered { IfSome (answer_of result) (λ a. a ≡ done) }
    ensures whole { IfSome (answer_of result)
        (λ _. K.accepted out.new ≡ K.accepted out.old ++ cnf_text (encoding_of coded.now)) }
    ensures front { IfNone (answer_of result)
        (WritesFront (K.accepted out.old) (cnf_text (encoding_of coded.now))
        (K.accepted out.new)) }
    ensures unfailed { IfSome (answer_of result) (λ _. K.faults out.new ≡ K.faults out.old) }
    ensures no_read { result ≡ Outcome.ReadFault → ⊥ }
    ensures write_fault { result ≡ Outcome.WriteFault → Rose (K.faults out.old) (K.faults out.new) }
{
    match put_clauses(alloc, out, coded) {
        Ok(()) => Outcome::Done,
        Err(PutFault::Failed) => Outcome::WriteFault,
        Err(PutFault::OutOfMemory) => Outcome::OutOfMemory,
    }
}
