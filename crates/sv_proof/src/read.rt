// The text of certificates, as it is read.
ghost use Rattle.std.specs.Prelude.{◌≡◌, ◌+◌, ◌<◌, ◌≤◌, ◌^◌, List, length, map, IfOk, IfErr};
ghost use Rattle.std.specs.Prelude.{MatchResult, OnOk, ◌++◌, ◌∷◌, []};
ghost use Rattle.sv_clause.specs.Logs.{Step, plain_step};
ghost use Rattle.sv_proof.specs.Certificate.{plain_logs, log_lines, proof_lines, proof_text};
ghost use Rattle.sv_proof.specs.Certificate.{AreLogs};
ghost use Rattle.sv_proof.specs.Reading.{BeginWithSteps, BeginWithLogs, StepsFault, LogsFault};
ghost use Rattle.sv_proof.specs.Lines.{IsFault};
ghost use Rattle.sv_proof.specs.declared.read.ProofFault.TheVariants.{OutOfMemory};

use crate::fields::{is_line, split_first};
use crate::steps::{read_counted, read_log_line, read_step};
use std::alloc::{AllocError, Global};
use sv_clause::{Derived, Log};
use thiserror::Error;

/// Why bytes are no certificate.
#[derive(Clone, Copy, Debug, PartialEq, Eq, Error)]
pub enum ProofFault {
    /// This line, counted from 1, is the first that breaks the text. A missing line has the number
    /// that it would have.
    #[error("line {0} breaks the certificate")]
    Text(u64),
    /// Memory ran out.
    #[error("out of memory")]
    OutOfMemory,
}

impl From<AllocError> for ProofFault {
    ghost from_gives = { λ _ fault. fault ≡ OutOfMemory };

    fn from(_error: AllocError) -> ProofFault {
        ProofFault::OutOfMemory
    }
}

/// The logs of a certificate. `Text` says the first line that breaks the text; the caller keeps the
/// bytes.
pub fn read_proof(alloc: Global, bytes: &[u8]) -> Result<Vec<Log>, ProofFault>
    ensures logs { IfOk result (λ logs. AreLogs (plain_logs logs.items)) }
    ensures text { IfOk result (λ logs. bytes.now ≡ proof_text (plain_logs logs.items)) }
    ensures lines { IfOk result (λ logs. length (proof_lines (plain_logs logs.items)) < 2 ^ 63) }
    ensures fault { IfErr result (IsFault bytes.now) }

    // What was written is read as the logs that were written, unless memory runs out.
    ensures again { (logs : List (List Step)) → AreLogs logs → bytes.now ≡ proof_text logs →
        MatchResult result (λ found. plain_logs found.items ≡ logs)
        (λ fault. fault ≡ ProofFault.OutOfMemory) }
{
    read_text(alloc, bytes)
}

fn read_text(alloc: Global, bytes: &[u8]) -> Result<Vec<Log>, ProofFault>
    ensures logs { IfOk result (λ logs. AreLogs (plain_logs logs.items)) }
    ensures text { IfOk result (λ logs. bytes.now ≡ proof_text (plain_logs logs.items)) }
    ensures fault { IfErr result (IsFault bytes.now) }
{
    let Some((first, rest)) = split_first(bytes, b'\n') else {
        return Err(ProofFault::Text(1));
    };
    if !is_line(first, b"secv-proof 1") {
        return Err(ProofFault::Text(1));
    }
    let Some((second, rest)) = split_first(rest, b'\n') else {
        return Err(ProofFault::Text(2));
    };
    let Some(count) = read_counted(second, b"obligations ") else {
        return Err(ProofFault::Text(2));
    };
    let logs = read_logs(alloc, rest, count)?;
    let line = logs.line;
    let Some((last, rest)) = split_first(logs.rest, b'\n') else {
        return Err(ProofFault::Text(line));
    };
    if !is_line(last, b"end") {
        return Err(ProofFault::Text(line));
    }
    if !rest.is_empty() {
        return Err(ProofFault::Text(line + 1));
    }
    Ok(logs.logs)
}

// Logs that were read, the number of the next line, and what follows.
#[derive(Drop)]
struct ReadLogs<'a> {
    logs: Vec<Log>,
    line: u64,
    rest: &'a [u8],
}

// Steps that were read, the number of the next line, and what follows.
#[derive(Drop)]
struct ReadSteps<'a> {
    steps: Vec<Derived>,
    line: u64,
    rest: &'a [u8],
}

// Puts one more at the end.
fn append<T: Drop>(items: &mut Vec<T>, item: T) -> Result<(), AllocError>
    ensures { OnOk result (items.new.items ≡ items.old.items ++ item ∷ []) }
{
    items.push(item)?;
    Ok(())
}

fn read_logs(alloc: Global, bytes: &[u8], count: u64) -> Result<ReadLogs<'_>, ProofFault>
    requires bytes { length bytes.now < 2 ^ 63 }
    requires count { count < 2 ^ 32 }
    ensures logs { IfOk result (λ read.
        BeginWithLogs bytes.now (plain_logs read.logs.items) read.rest.now) }
    ensures count { IfOk result (λ read. length (plain_logs read.logs.items) ≡ count) }
    ensures line { IfOk result (λ read. read.line ≡
        3 + length (log_lines 1 (plain_logs read.logs.items))) }
    ensures room { IfOk result (λ read. read.line + length read.rest.now ≤ 3 + length bytes.now) }
    ensures fault { IfErr result (LogsFault bytes.now count) }
{
    let mut logs = Vec::new(alloc);
    let mut rest = bytes;
    let mut line: u64 = 3;
    let mut done: u64 = 0;
    'logs: while done < count {
        let Some((first, after)) = split_first(rest, b'\n') else {
            return Err(ProofFault::Text(line));
        };
        let Some(wanted) = read_log_line(first, done + 1) else {
            return Err(ProofFault::Text(line));
        };
        let read = read_steps(alloc, after, wanted, line + 1)?;
        rest = read.rest;
        line = read.line;
        append(&mut logs, Log { steps: read.steps })?;
        done += 1;
    }
    Ok(ReadLogs { logs, line, rest })
}

fn read_steps(
    alloc: Global,
    bytes: &[u8],
    count: u64,
    first: u64,
) -> Result<ReadSteps<'_>, ProofFault>
    requires { first + length bytes.now < 2 ^ 64 }
    ensures steps { IfOk result (λ read.
        BeginWithSteps bytes.now (map plain_step read.steps.items) read.rest.now) }
    ensures count { IfOk result (λ read. length (map plain_step read.steps.items) ≡ count) }
    ensures line { IfOk result (λ read. read.line ≡ first + count) }
    ensures room { IfOk result (λ read.
        read.line + length read.rest.now ≤ first + length bytes.now) }
    ensures fault { IfErr result (StepsFault bytes.now count first) }
{
    let mut steps = Vec::new(alloc);
    let mut rest = bytes;
    let mut done: u64 = 0;
    'steps: while done < count {
        let Some((text, after)) = split_first(rest, b'\n') else {
            return Err(ProofFault::Text(first + done));
        };
        let Some(step) = read_step(alloc, text)? else {
            return Err(ProofFault::Text(first + done));
        };
        append(&mut steps, step)?;
        rest = after;
        done += 1;
    }
    Ok(ReadSteps {
        steps,
        line: first + done,
        rest,
    })
}
