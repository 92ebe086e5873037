// The words of each command, as a command of `clap`.
ghost use Rattle.std.specs.Prelude.{◌≡◌, IfOk, codes, false};
ghost use Rattle.clap.specs.Words.{app_of, rule_of, with_rule};
ghost use Rattle.sv_words.specs.Lines.{command_named, line_of, named, needed, needed_number};
ghost use Rattle.sv_words.specs.Lines.{flag, option, number, small_number, greatest};
ghost use Rattle.sv_words.specs.Lines.{check_line, verify_line, list_line, cnf_line, sim_line};
ghost use Rattle.sv_words.specs.Lines.{compare_line, gen_line, greatest_budget, needed_option};
ghost use Rattle.sv_words.specs.Lines.{word_of};

use crate::command::CommandName;
use clap::{Arg, ArgAction, value_parser};
use std::alloc::{AllocError, Global};

const GREATEST_BUDGET: i64 = 4_000_000_000;

/// The command of a word.
pub fn command_named(word: &str) -> Option<CommandName>
    ensures { result ≡ command_named word.now }
{
    if word == "check" {
        Some(CommandName::Check)
    } else if word == "verify" {
        Some(CommandName::Verify)
    } else if word == "list" {
        Some(CommandName::List)
    } else if word == "cnf" {
        Some(CommandName::Cnf)
    } else if word == "sim" {
        Some(CommandName::Sim)
    } else if word == "compare" {
        Some(CommandName::Compare)
    } else if word == "gen" {
        Some(CommandName::Gen)
    } else {
        None
    }
}

/// The words of a command, as a command of `clap`.
pub fn line_of<'a>(alloc: Global, name: CommandName) -> Result<clap::Command<'a>, AllocError>
    ensures { IfOk result (λ line. app_of line ≡ line_of name) }
{
    match name {
        CommandName::Check => check_line(alloc),
        CommandName::Verify => verify_line(alloc),
        CommandName::List => list_line(alloc),
        CommandName::Cnf => cnf_line(alloc),
        CommandName::Sim => sim_line(alloc),
        CommandName::Compare => compare_line(alloc),
        CommandName::Gen => gen_line(alloc),
    }
}

fn check_line<'a>(alloc: Global) -> Result<clap::Command<'a>, AllocError>
    ensures { IfOk result (λ line. app_of line ≡ check_line) }
{
    of_file(alloc, CommandName::Check)?
        .arg(text_option(
            alloc,
            "proof",
            "NAME",
            "Store the certificate of an accepted design in this file",
        ))?
        .arg(budget_option(alloc))?
        .arg(top_option(alloc))?
        .arg(flag(alloc, "json", "Print the verdict as JSON, on one line"))
}

fn verify_line<'a>(alloc: Global) -> Result<clap::Command<'a>, AllocError>
    ensures { IfOk result (λ line. app_of line ≡ verify_line) }
{
    of_file(alloc, CommandName::Verify)?
        .arg(text_word(alloc, "PROOF", "The file of the certificate"))?
        .arg(top_option(alloc))
}

fn list_line<'a>(alloc: Global) -> Result<clap::Command<'a>, AllocError>
    ensures { IfOk result (λ line. app_of line ≡ list_line) }
{
    of_file(alloc, CommandName::List)?.arg(top_option(alloc))
}

fn cnf_line<'a>(alloc: Global) -> Result<clap::Command<'a>, AllocError>
    ensures { IfOk result (λ line. app_of line ≡ cnf_line) }
{
    of_file(alloc, CommandName::Cnf)?
        .arg(number_word(alloc, "NUMBER", "The number of the obligation, from 1"))?
        .arg(top_option(alloc))
}

fn sim_line<'a>(alloc: Global) -> Result<clap::Command<'a>, AllocError>
    ensures { IfOk result (λ line. app_of line ≡ sim_line) }
{
    of_file(alloc, CommandName::Sim)?
        .arg(text_option(
            alloc,
            "level",
            "POINT",
            "Show only the signals whose labels flow to this point",
        ))?
        .arg(order_option(alloc))?
        .arg(top_option(alloc))
}

fn compare_line<'a>(alloc: Global) -> Result<clap::Command<'a>, AllocError>
    ensures { IfOk result (λ line. app_of line ≡ compare_line) }
{
    of_file(alloc, CommandName::Compare)?
        .arg(text_word(alloc, "A", "The file of the first stimulus"))?
        .arg(text_word(alloc, "B", "The file of the second stimulus"))?
        .arg(needed_option(
            alloc,
            "level",
            "POINT",
            "Compare only the signals whose labels flow to this point",
        ))?
        .arg(top_option(alloc))
}

fn gen_line<'a>(alloc: Global) -> Result<clap::Command<'a>, AllocError>
    ensures { IfOk result (λ line. app_of line ≡ gen_line) }
{
    named(alloc, CommandName::Gen)?
        .arg(number_word(alloc, "LANES", "The number of lanes, 1 to 200"))?
        .arg(flag(
            alloc,
            "check",
            "Print the verdict on the design, and not the design",
        ))
}

// A command with no words yet.
fn named<'a>(alloc: Global, name: CommandName) -> Result<clap::Command<'a>, AllocError>
    ensures { IfOk result (λ line. app_of line ≡ named (word_of name)) }
{
    let line = clap::Command::new(alloc, word_of(name))
        .disable_help_flag(true)
        .bin_name(call_of(name))?;
    Ok(line.about(about_of(name)))
}

// A command whose first word is a file.
fn of_file<'a>(alloc: Global, name: CommandName) -> Result<clap::Command<'a>, AllocError>
    ensures { IfOk result
        (λ line. app_of line ≡ with_rule (named (word_of name)) (needed (codes "FILE"))) }
{
    named(alloc, name)?.arg(file_word(alloc))
}

fn word_of<'a>(name: CommandName) -> &'a str
    ensures { result.now ≡ word_of name }
{
    match name {
        CommandName::Check => "check",
        CommandName::Verify => "verify",
        CommandName::List => "list",
        CommandName::Cnf => "cnf",
        CommandName::Sim => "sim",
        CommandName::Compare => "compare",
        CommandName::Gen => "gen",
    }
}

// How a command is called.
fn call_of<'a>(name: CommandName) -> &'a str {
    match name {
        CommandName::Check => "secv check",
        CommandName::Verify => "secv verify",
        CommandName::List => "secv list",
        CommandName::Cnf => "secv cnf",
        CommandName::Sim => "secv sim",
        CommandName::Compare => "secv compare",
        CommandName::Gen => "secv gen",
    }
}

// What a command does.
fn about_of<'a>(name: CommandName) -> &'a str {
    match name {
        CommandName::Check => "Say whether the labels of a design keep every secret",
        CommandName::Verify =>
            "Say whether a certificate proves that the labels of a design keep every secret",
        CommandName::List => "List the obligations of a design, one a line",
        CommandName::Cnf => "Print the clauses of one obligation of a design, as DIMACS",
        CommandName::Sim =>
            "Simulate a design on the inputs that standard input gives, cycle by cycle",
        CommandName::Compare =>
            "Run a design on two stimuli and tell the first difference that a level sees",
        CommandName::Gen => "Print a sample design of so many lanes, or check it",
    }
}

fn file_word<'a>(alloc: Global) -> Arg<'a>
    ensures rule { rule_of result ≡ needed (codes "FILE") }
    ensures local { result.global ≡ false }
{
    text_word(alloc, "FILE", "The file of the design")
}

fn top_option<'a>(alloc: Global) -> Arg<'a>
    ensures rule { rule_of result ≡ option (codes "top") }
    ensures local { result.global ≡ false }
{
    text_option(alloc, "top", "MODULE", "The module to take as the top")
}

fn budget_option<'a>(alloc: Global) -> Arg<'a>
    ensures rule { rule_of result ≡ small_number (codes "budget") 1 greatest_budget }
    ensures local { result.global ≡ false }
{
    text_option(
        alloc,
        "budget",
        "NUMBER",
        "Learn at most this many clauses for each obligation, 20000 unless given",
    )
    .value_parser(value_parser!(u32).range(1..=GREATEST_BUDGET))
}

fn order_option<'a>(alloc: Global) -> Arg<'a>
    ensures rule { rule_of result ≡ number (codes "order") 0 greatest }
    ensures local { result.global ≡ false }
{
    text_option(
        alloc,
        "order",
        "NUMBER",
        "Run the processes in the order of this number",
    )
    .value_parser(value_parser!(u64))
}

// A word that stands alone and has to be there.
fn text_word<'a>(alloc: Global, id: &'a str, help: &'a str) -> Arg<'a>
    ensures rule { rule_of result ≡ needed id.entry.now }
    ensures local { result.global ≡ false }
{
    Arg::new(alloc, id)
        .required(true)
        .action(ArgAction::Set)
        .help(help)
}

// The same, of a number that a u32 holds.
fn number_word<'a>(alloc: Global, id: &'a str, help: &'a str) -> Arg<'a>
    ensures rule { rule_of result ≡ needed_number id.entry.now }
    ensures local { result.global ≡ false }
{
    text_word(alloc, id, help).value_parser(value_parser!(u32))
}

// An option with one value.
fn text_option<'a>(alloc: Global, id: &'a str, value_name: &'a str, help: &'a str) -> Arg<'a>
    ensures rule { rule_of result ≡ option id.entry.now }
    ensures local { result.global ≡ false }
{
    Arg::new(alloc, id)
        .long(id)
        .action(ArgAction::Set)
        .value_name(value_name)
        .help(help)
}

// The same, of an option that has to be there.
fn needed_option<'a>(alloc: Global, id: &'a str, value_name: &'a str, help: &'a str) -> Arg<'a>
    ensures rule { rule_of result ≡ needed_option id.entry.now }
    ensures local { result.global ≡ false }
{
    text_option(alloc, id, value_name, help).required(true)
}

// An option without a value. `SetTrue` has this parser by itself; named, it is part of the rule,
// which so tells how the flag is read.
fn flag<'a>(alloc: Global, id: &'a str, help: &'a str) -> Arg<'a>
    ensures rule { rule_of result ≡ flag id.entry.now }
    ensures local { result.global ≡ false }
{
    Arg::new(alloc, id)
        .long(id)
        .action(ArgAction::SetTrue)
        .value_parser(value_parser!(bool))
        .help(help)
}
