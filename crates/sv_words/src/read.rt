// From words to a command.
ghost use Rattle.std.specs.Prelude.{◌≡◌, ◌≢◌, ◌⊎◌, MatchResult, IfOk, Some, codes, option_map};
ghost use Rattle.std.specs.Prelude.{string_bytes};
ghost use Rattle.clap.specs.Words.{first_value, found_of};
ghost use Rattle.sv_words.specs.Found.{HasFlag, HasNeededNumber, HasNumber, HasSmallNumber};
ghost use Rattle.sv_words.specs.Found.{HasWords, IsFoundIn, IsGiven, IsReadAs, Rejects};
ghost use Rattle.sv_words.specs.Lines.{greatest, greatest_budget};
ghost use Rattle.sv_words.specs.Words.{words_of, HasBudget, IsAskedBy, IsBudget, IsFaultOf};
ghost use Rattle.sv_words.specs.Words.{budget_of, is_set, number_of, plain};

use crate::command::{Command, CommandName, UsageKind, WordFault};
use crate::lines::{command_named, line_of};
use clap::ArgMatches;
use clap::error::ErrorKind;
use std::alloc::{AllocError, Global};

const DEFAULT_BUDGET: u32 = 20_000;

/// What the words ask for. The first word names a command, as `check`, and the others are exactly
/// those that `clap` reads for it: words that have to be there, as FILE, which may be empty or `-`,
/// and options, each at most once, as `--top M` or `--top=M`, before or behind them; after a word
/// `--` no word is an option. A flag, as `--json`, is an option without a value, and `compare`
/// wants its `--level`. A number is decimal digits, a `+` before them or not, of a value that its
/// type holds; before the zeros of NUMBER and LANES a `-` may stand too. The budget of `check` is 1
/// to 4,000,000,000, and 20,000 where `--budget` does not stand.
///
/// `Usage` comes exactly where the words ask for nothing: `NoCommand` where there are none,
/// `UnknownCommand` where the first is no command's name, and `Words` where `clap` does not read
/// the others.
pub fn read_words(alloc: Global, words: &[String]) -> Result<Command, WordFault>
    ensures asked { MatchResult result
        (IsAskedBy (words_of words.now)) (IsFaultOf (words_of words.now)) }
    ensures budget { IfOk result (λ command. HasBudget (plain command)) }
{
    let Some(first) = words.first() else {
        return Err(WordFault::Usage(UsageKind::NoCommand));
    };
    let Some(name) = command_named(first.as_str()) else {
        return Err(WordFault::Usage(UsageKind::UnknownCommand));
    };
    let matches = read_line(alloc, name, words)?;
    let command = command_in(alloc, name, &matches)?;
    Ok(command)
}

// The matches of a command on its words.
fn read_line<'a>(
    alloc: Global,
    name: CommandName,
    words: &'a [String],
) -> Result<ArgMatches<'a>, WordFault>
    ensures { MatchResult result
        (IsReadAs name (words_of words.now))
        (Rejects name (words_of words.now)) }
{
    let line = line_of(alloc, name)?;
    match line.try_get_matches_from(words) {
        Ok(matches) => Ok(matches),
        Err(error) => Err(fault_by(error.kind())),
    }
}

// What a refusal by `clap` says of the words.
fn fault_by(kind: ErrorKind) -> WordFault
    ensures { (result ≡ WordFault.OutOfMemory)
        ⊎ ((result ≡ WordFault.Usage UsageKind.Words) × (kind ≢ ErrorKind.OutOfMemory)) }
{
    match kind {
        ErrorKind::OutOfMemory => WordFault::OutOfMemory,
        _ => WordFault::Usage(UsageKind::Words),
    }
}

// What the matches say.
fn command_in(
    alloc: Global,
    name: CommandName,
    matches: &ArgMatches<'_>,
) -> Result<Command, AllocError>
    requires { HasWords name matches.now }
    ensures { IfOk result (IsFoundIn name matches.now) }
{
    match name {
        CommandName::Check => check_in(alloc, matches),
        CommandName::Verify => verify_in(alloc, matches),
        CommandName::List => list_in(alloc, matches),
        CommandName::Cnf => cnf_in(alloc, matches),
        CommandName::Sim => sim_in(alloc, matches),
        CommandName::Compare => compare_in(alloc, matches),
        CommandName::Gen => Ok(gen_in(matches)),
    }
}

fn check_in(alloc: Global, matches: &ArgMatches<'_>) -> Result<Command, AllocError>
    requires { HasWords CommandName.Check matches.now }
    ensures { IfOk result (IsFoundIn CommandName.Check matches.now) }
{
    Ok(Command::Check {
        file: needed_text(alloc, matches, "FILE")?,
        proof: text_of(alloc, matches, "proof")?,
        budget: budget_in(matches),
        top: text_of(alloc, matches, "top")?,
        json: flag_in(matches, "json"),
    })
}

fn verify_in(alloc: Global, matches: &ArgMatches<'_>) -> Result<Command, AllocError>
    requires { HasWords CommandName.Verify matches.now }
    ensures { IfOk result (IsFoundIn CommandName.Verify matches.now) }
{
    Ok(Command::Verify {
        file: needed_text(alloc, matches, "FILE")?,
        proof: needed_text(alloc, matches, "PROOF")?,
        top: text_of(alloc, matches, "top")?,
    })
}

fn list_in(alloc: Global, matches: &ArgMatches<'_>) -> Result<Command, AllocError>
    requires { HasWords CommandName.List matches.now }
    ensures { IfOk result (IsFoundIn CommandName.List matches.now) }
{
    Ok(Command::List {
        file: needed_text(alloc, matches, "FILE")?,
        top: text_of(alloc, matches, "top")?,
    })
}

fn cnf_in(alloc: Global, matches: &ArgMatches<'_>) -> Result<Command, AllocError>
    requires { HasWords CommandName.Cnf matches.now }
    ensures { IfOk result (IsFoundIn CommandName.Cnf matches.now) }
{
    Ok(Command::Cnf {
        file: needed_text(alloc, matches, "FILE")?,
        number: number_in(matches, "NUMBER"),
        top: text_of(alloc, matches, "top")?,
    })
}

fn sim_in(alloc: Global, matches: &ArgMatches<'_>) -> Result<Command, AllocError>
    requires { HasWords CommandName.Sim matches.now }
    ensures { IfOk result (IsFoundIn CommandName.Sim matches.now) }
{
    Ok(Command::Sim {
        file: needed_text(alloc, matches, "FILE")?,
        level: text_of(alloc, matches, "level")?,
        order: order_in(matches),
        top: text_of(alloc, matches, "top")?,
    })
}

fn compare_in(alloc: Global, matches: &ArgMatches<'_>) -> Result<Command, AllocError>
    requires { HasWords CommandName.Compare matches.now }
    ensures { IfOk result (IsFoundIn CommandName.Compare matches.now) }
{
    Ok(Command::Compare {
        file: needed_text(alloc, matches, "FILE")?,
        a: needed_text(alloc, matches, "A")?,
        b: needed_text(alloc, matches, "B")?,
        level: needed_text(alloc, matches, "level")?,
        top: text_of(alloc, matches, "top")?,
    })
}

fn gen_in(matches: &ArgMatches<'_>) -> Command
    requires { HasWords CommandName.Gen matches.now }
    ensures { IsFoundIn CommandName.Gen matches.now result }
{
    Command::Gen {
        lanes: number_in(matches, "LANES"),
        check: flag_in(matches, "check"),
    }
}

// The text of an argument that has to be there.
fn needed_text(alloc: Global, matches: &ArgMatches<'_>, id: &str) -> Result<String, AllocError>
    requires { IsGiven id.now matches.now }
    ensures { IfOk result (λ text.
        first_value (found_of matches.now) id.now ≡ Some (string_bytes text)) }
{
    let text = text_of(alloc, matches, id)?;
    Ok(text.unwrap())
}

// The number of `--budget`, or the default.
fn budget_in(matches: &ArgMatches<'_>) -> u32
    requires { HasSmallNumber (codes "budget") 1 greatest_budget matches.now }
    ensures value { result ≡ budget_of (first_value (found_of matches.now) (codes "budget")) }
    ensures bounds { IsBudget result }
{
    matches.get_one("budget").unwrap_or(DEFAULT_BUDGET)
}

// A number that has to be there.
fn number_in(matches: &ArgMatches<'_>, id: &str) -> u32
    requires { HasNeededNumber id.now matches.now }
    ensures { option_map number_of (first_value (found_of matches.now) id.now) ≡ Some result }
{
    matches.get_one(id).unwrap()
}

// The number of `--order`, where it is there.
fn order_in(matches: &ArgMatches<'_>) -> Option<u64>
    requires { HasNumber (codes "order") 0 greatest matches.now }
    ensures { result ≡
        option_map number_of (first_value (found_of matches.now) (codes "order")) }
{
    matches.get_one("order")
}

// Whether a flag stands.
fn flag_in(matches: &ArgMatches<'_>, id: &str) -> bool
    requires { HasFlag id.now matches.now }
    ensures { result ≡ is_set (first_value (found_of matches.now) id.now) }
{
    matches.get_flag(id)
}

// The text of an argument, where it was used.
fn text_of(alloc: Global, matches: &ArgMatches<'_>, id: &str) -> Result<Option<String>, AllocError>
    ensures { IfOk result
        (λ text. option_map string_bytes text ≡ first_value (found_of matches.now) id.now) }
{
    match matches.get_str(id) {
        Some(text) => Ok(Some(String::from_str(alloc, text)?)),
        None => Ok(None),
    }
}
