// The lines of logs and steps.
ghost use Rattle.std.specs.Prelude.{◌≡◌, ℕ, ◌<◌, ◌^◌, ℤ, List, ◌++◌, decimal, codes, IfOk, IfSome};
ghost use Rattle.std.specs.Prelude.{IsNone};
ghost use Rattle.sv_clause.specs.Literals.{IsClause};
ghost use Rattle.sv_clause.specs.Logs.{Step, plain_step};
ghost use Rattle.sv_proof.specs.Certificate.{word, literal_words, number_words, step_line};
ghost use Rattle.sv_proof.specs.Certificate.{log_line, IsChain, IsWritable};

use crate::fields::{is_line, read_below, read_literal, read_number, split_first, without_prefix};
use std::alloc::{AllocError, Global};
use sv_clause::{Clause, Derived};

// One more than the highest count of steps and of logs.
const COUNTS: u64 = 1 << 32;

/// The number below 2 ^ 32 that stands behind a prefix.
pub fn read_counted(line: &[u8], prefix: &[u8]) -> Option<u64>
    ensures some { IfSome result (λ count. (line.now ≡ prefix.now ++ decimal count) ×
        (count < 2 ^ 32)) }
    ensures none { IsNone result → (count : ℕ) → count < 2 ^ 32 → line.now ≡ prefix.now ++
        decimal count → ⊥ }
{
    let rest = without_prefix(line, prefix)?;
    read_below(rest, COUNTS)
}

/// How many steps follow the line of the log with this number.
pub fn read_log_line(line: &[u8], number: u64) -> Option<u64>
    ensures some { IfSome result (λ steps. (line.now ≡ log_line number steps) × (steps < 2 ^ 32)) }
    ensures none { IsNone result → (steps : ℕ) → steps < 2 ^ 32 → line.now ≡ log_line number steps →
        ⊥ }
{
    let rest = without_prefix(line, b"o ")?;
    let (word, rest) = split_first(rest, b' ')?;
    if read_number(word)? != number {
        return None;
    }
    read_below(rest, COUNTS)
}

/// The step of a line.
pub fn read_step(alloc: Global, line: &[u8]) -> Result<Option<Derived>, AllocError>
    ensures some { IfOk result (λ found.
        IfSome found (λ step. line.now ≡ step_line (plain_step step))) }
    ensures writable { IfOk result (λ found. IfSome found (λ step. IsWritable (plain_step step))) }
    ensures none { IfOk result (λ found. IsNone found → (step : Step) → IsWritable step → line.now ≡
        step_line step → ⊥) }
{
    let Some((literals, rest)) = read_literals(alloc, line)? else {
        return Ok(None);
    };
    let Some(chain) = read_chain(alloc, rest)? else {
        return Ok(None);
    };
    Ok(Some(Derived {
        clause: Clause::from_normal(literals),
        chain,
    }))
}

// The literals of a clause up to the 0 behind them, and what follows.
fn read_literals(alloc: Global, line: &[u8]) -> Result<Option<(Vec<i32>, &[u8])>, AllocError>
    ensures some { IfOk result (λ found. IfSome found (λ read.
        line.now ≡ literal_words read.0.items ++ (word (codes "0") ++ read.1.now))) }
    ensures normal { IfOk result (λ found. IfSome found (λ read. IsClause read.0.items)) }
    ensures none { IfOk result (λ found. IsNone found → (clause : List ℤ) (rest : List ℕ) →
        IsClause clause → line.now ≡ literal_words clause ++ (word (codes "0") ++ rest) → ⊥) }
{
    let mut literals = Vec::new(alloc);
    let mut above: u32 = 0;
    let mut rest = line;
    'literals: while let Some((word, after)) = split_first(rest, b' ') {
        let Some(literal) = read_literal(word) else {
            return Ok(None);
        };
        rest = after;
        if literal == 0 {
            return Ok(Some((literals, rest)));
        }
        let variable = literal.unsigned_abs();
        if variable <= above {
            return Ok(None);
        }
        literals.push(literal)?;
        above = variable;
    }
    Ok(None)
}

// The numbers of a chain up to the 0 that ends the line.
fn read_chain(alloc: Global, text: &[u8]) -> Result<Option<Vec<u64>>, AllocError>
    ensures some { IfOk result (λ found.
        IfSome found (λ chain. text.now ≡ number_words chain.items ++ codes "0")) }
    ensures numbers { IfOk result (λ found. IfSome found (λ chain. IsChain chain.items)) }
    ensures none { IfOk result (λ found. IsNone found →
        (chain : List ℕ) → IsChain chain → text.now ≡ number_words chain ++ codes "0" → ⊥) }
{
    let mut chain = Vec::new(alloc);
    let mut rest = text;
    'numbers: while let Some((word, after)) = split_first(rest, b' ') {
        let Some(number) = read_number(word) else {
            return Ok(None);
        };
        if number == 0 {
            return Ok(None);
        }
        chain.push(number)?;
        rest = after;
    }
    if chain.is_empty() || !is_line(rest, b"0") {
        return Ok(None);
    }
    Ok(Some(chain))
}
