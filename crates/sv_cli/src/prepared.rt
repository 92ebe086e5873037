// What a command makes of a text before any stimulus is taken.
ghost use Rattle.std.specs.Prelude.{◌≡◌, ◌≤◌, IsSome, cond, length};
ghost use Rattle.std.specs.Option.{option_copied};
ghost use Rattle.sv_flat.specs.Views.{design_of};
ghost use Rattle.sv_io.specs.Traffic.{files_by};
ghost use Rattle.sv_words.specs.Words.{plain, HasBudget};
ghost use Rattle.sv_cli.specs.Command.{file_in, top_in, style_in};
ghost use Rattle.sv_cli.specs.Prepared.{Readies, MayOwn, MayExchangeOf};
ghost use Rattle.sv_cli.specs.Prepared.{PreparesOwn, PreparesText};
ghost use Rattle.sv_cli.specs.Texts.{largest_file};

use crate::checking::check_design;
use crate::clauses::clauses_of_design;
use crate::comparing::compare_design;
use crate::designs::design_of_text;
use crate::listing::lines_of_design;
use crate::report::{Report, report_of_refusal};
use crate::verifying::verify_design;
use std::alloc::{AllocError, Global};
use sv_blast::Coded;
use sv_design::Design;
use sv_io::Cabinet;
use sv_num::Fault;
use sv_report::Style;
use sv_words::Command;

/// What is to be done once the text is read.
#[derive(Drop)]
pub enum Prepared {
    /// To write what is answered.
    Whole(Report),
    /// To write the line of each obligation of the design, which exceeds no limit.
    Lines(Design),
    /// To write the clauses of an obligation.
    Clauses(Coded),
    /// To simulate the design, with the level and the order that are asked for.
    Simulation(Design, Option<String>, Option<u64>),
}

/// Why nothing is prepared: a file could not be read, the certificate could not be stored, or memory
/// ran out.
#[derive(Clone, Copy, Debug)]
pub enum NoReport {
    Unread,
    Unwritten,
    OutOfMemory,
}

impl From<AllocError> for NoReport {
    ghost use Rattle.sv_cli.specs.declared.prepared.NoReport.TheVariants.{OutOfMemory};

    ghost from_gives = { λ _ fault. fault ≡ OutOfMemory };

    fn from(_error: AllocError) -> NoReport {
        NoReport::OutOfMemory
    }
}

/// FILE of a command, where it has one.
pub fn file_in(command: &Command) -> Option<&str>
    ensures { option_copied result ≡ file_in (plain command.now) }
{
    match command {
        Command::Check { file, .. } => Some(file.as_str()),
        Command::Verify { file, .. } => Some(file.as_str()),
        Command::List { file, .. } => Some(file.as_str()),
        Command::Cnf { file, .. } => Some(file.as_str()),
        Command::Sim { file, .. } => Some(file.as_str()),
        Command::Compare { file, .. } => Some(file.as_str()),
        Command::Gen { .. } => None,
    }
}

/// How a command tells its verdict.
pub fn style_in(command: &Command) -> Style
    ensures { result ≡ style_in (plain command.now) }
{
    match command {
        Command::Check { json, .. } => style_of(*json),
        _ => Style::Lines,
    }
}

// The style of a verdict that is wanted as JSON or not.
fn style_of(json: bool) -> Style
    ensures { result ≡ cond json Style.Json Style.Lines }
{
    if json { Style::Json } else { Style::Lines }
}

/// The module that is asked for as the top.
pub fn top_in(command: &Command) -> Option<&str>
    ensures { option_copied result ≡ top_in (plain command.now) }
{
    match command {
        Command::Check { top, .. } => top.as_deref(),
        Command::Verify { top, .. } => top.as_deref(),
        Command::List { top, .. } => top.as_deref(),
        Command::Cnf { top, .. } => top.as_deref(),
        Command::Sim { top, .. } => top.as_deref(),
        Command::Compare { top, .. } => top.as_deref(),
        Command::Gen { .. } => None,
    }
}

/// What is prepared of a text within the limit that the fetch of FILE handed out.
pub fn prepare_text<C: Cabinet>(
    alloc: Global,
    command: Command,
    bytes: &[u8],
    cabinet: &mut C,
) -> Result<Prepared, NoReport>
    requires within { length bytes.now ≤ largest_file }
    requires file { IsSome (file_in (plain command)) }
    requires budget { HasBudget (plain command) }
    ensures { Readies (MayExchangeOf (plain command) bytes.now)
        (PreparesText (plain command) bytes.now) C.tells
        (files_by C.exchanges C.held C.fetch_faults C.store_faults cabinet.old)
        (files_by C.exchanges C.held C.fetch_faults C.store_faults cabinet.new) result }
{
    let style = style_in(&command);
    match design_of_text(alloc, bytes, top_in(&command)) {
        Ok(design) => prepare_design(alloc, command, design, cabinet),
        Err(Fault::Rule(refusal)) => {
            Ok(Prepared::Whole(report_of_refusal(alloc, style, refusal)?))
        }
        Err(Fault::OutOfMemory) => Err(NoReport::OutOfMemory),
    }
}

// What is prepared of the design that a text stands for which breaks no rule.
fn prepare_design<C: Cabinet>(
    alloc: Global,
    command: Command,
    design: Design,
    cabinet: &mut C,
) -> Result<Prepared, NoReport>
    requires file { IsSome (file_in (plain command)) }
    requires budget { HasBudget (plain command) }
    ensures { Readies (MayOwn (plain command) (design_of design))
        (PreparesOwn (plain command) (design_of design)) C.tells
        (files_by C.exchanges C.held C.fetch_faults C.store_faults cabinet.old)
        (files_by C.exchanges C.held C.fetch_faults C.store_faults cabinet.new) result }
{
    match command {
        Command::Check {
            proof,
            budget,
            json,
            ..
        } => {
            check_design(
                alloc,
                style_of(json),
                &design,
                proof.as_deref(),
                budget,
                cabinet,
            )
        }
        Command::Verify { proof, .. } => verify_design(alloc, &design, &proof, cabinet),
        Command::List { .. } => Ok(lines_of_design(alloc, design)?),
        Command::Cnf { number, .. } => Ok(clauses_of_design(alloc, &design, number)?),
        Command::Sim { level, order, .. } => Ok(Prepared::Simulation(design, level, order)),
        Command::Compare { a, b, level, .. } => {
            compare_design(alloc, &design, &a, &b, &level, cabinet)
        }
        Command::Gen { .. } => unreachable!(),
    }
}
