// The text of certificates, as it is written.
ghost use Rattle.std.specs.Prelude.{◌≡◌, ℕ, ◌<◌, ◌^◌, List, [], ◌∷◌, ◌++◌, map, length, decimal};
ghost use Rattle.std.specs.Prelude.{IfOk, OnOk};
ghost use Rattle.std.specs.List.{flat_map};
ghost use Rattle.std.specs.Fmt.{signed_decimal};
ghost use Rattle.sv_clause.specs.Logs.{plain_step, plain_log};
ghost use Rattle.sv_proof.specs.Certificate.{plain_logs, word, step_line, log_lines, text_of};
ghost use Rattle.sv_proof.specs.Certificate.{proof_text};

use itoa::Buffer;
use std::alloc::{AllocError, Global};
use sv_clause::{Derived, Log};

/// The certificate of logs, one for each obligation in order. `read_proof` gives the logs again
/// where every chain has at least one number and none is 0.
pub fn write_proof(alloc: Global, logs: &[Log]) -> Result<Vec<u8>, AllocError>
    ensures { IfOk result (λ text. text.items ≡ proof_text (plain_logs logs.now)) }
{
    let mut text = Vec::from_slice(alloc, b"secv-proof 1\nobligations ")?;
    push_number(&mut text, logs.len() as u64)?;
    text.push(b'\n')?;
    push_logs(&mut text, logs)?;
    text.extend_from_slice(b"end\n")?;
    Ok(text)
}

fn push_logs(text: &mut Vec<u8>, logs: &[Log]) -> Result<(), AllocError>
    ensures { OnOk result (text.new.items ≡ text.old.items ++
        text_of (log_lines 1 (plain_logs logs.now))) }
{
    let mut number: u64 = 1;
    'logs: for log in logs {
        text.extend_from_slice(b"o ")?;
        push_number(text, number)?;
        text.push(b' ')?;
        push_number(text, log.steps.len() as u64)?;
        text.push(b'\n')?;
        push_steps(text, log.steps.as_slice())?;
        number += 1;
    }
    Ok(())
}

fn push_steps(text: &mut Vec<u8>, steps: &[Derived]) -> Result<(), AllocError>
    ensures { OnOk result (text.new.items ≡ text.old.items ++
        text_of (map step_line (map plain_step steps.now))) }
{
    'steps: for step in steps {
        push_literals(text, step.clause.literals())?;
        text.extend_from_slice(b"0 ")?;
        push_numbers(text, step.chain.as_slice())?;
        text.extend_from_slice(b"0\n")?;
    }
    Ok(())
}

fn push_literals(text: &mut Vec<u8>, literals: &[i32]) -> Result<(), AllocError>
    ensures { OnOk result (text.new.items ≡
        text.old.items ++ flat_map (λ literal. word (signed_decimal literal)) literals.now) }
{
    'literals: for literal in literals {
        push_literal(text, literal)?;
    }
    Ok(())
}

fn push_numbers(text: &mut Vec<u8>, numbers: &[u64]) -> Result<(), AllocError>
    ensures { OnOk result (text.new.items ≡ text.old.items ++
        flat_map (λ number. word (decimal number)) numbers.now) }
{
    'numbers: for number in numbers {
        push_number(text, *number)?;
        text.push(b' ')?;
    }
    Ok(())
}

fn push_literal(text: &mut Vec<u8>, literal: &i32) -> Result<(), AllocError>
    ensures { OnOk result (text.new.items ≡ text.old.items ++ word (signed_decimal literal.now)) }
{
    let mut buffer = Buffer::new();
    text.extend_from_slice(buffer.format(*literal).as_bytes())?;
    text.push(b' ')?;
    Ok(())
}

fn push_number(text: &mut Vec<u8>, number: u64) -> Result<(), AllocError>
    ensures { OnOk result (text.new.items ≡ text.old.items ++ decimal number) }
{
    let mut buffer = Buffer::new();
    text.extend_from_slice(buffer.format(number).as_bytes())?;
    Ok(())
}
