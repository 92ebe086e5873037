// Products of words: all rows first, and then their sum from the first row on.
ghost use Rattle.std.specs.Prelude.{◌≡◌, ◌≤◌, ◌<◌, ◌++◌, ◌∷◌, [], map, OnOk, IfOk};
ghost use Rattle.std.specs.Prelude.{IsErrOf};
ghost use Rattle.sv_gates.specs.Extending.{Begins};
ghost use Rattle.sv_gates.specs.Formulas.{IsLiteral, most_variables};
ghost use Rattle.sv_circuits.specs.Operators.{product_row, product_rows, total_from, product_word};
ghost use Rattle.sv_circuits.specs.Circuits.{IsWord};
ghost use Rattle.sv_circuits.specs.Rows.{AreWords};

use crate::adders::sum;
use crate::words::{append, append_same, copied, falsity};
use std::alloc::{AllocError, Global};
use sv_gates::{GateFault, Gates, Literal};

// The row of a product for bit `i` of its right operand.
#[tactic(auto, using(sv_gates::proofs::ExtendingLaws::begins_trans))]
fn row(
    alloc: Global,
    gates: &mut Gates,
    a: &[Literal],
    i: usize,
    b: Literal,
) -> Result<Vec<Literal>, GateFault>
    requires a { IsWord gates.old.variables a.now }
    requires b { IsLiteral gates.old.variables b }
    ensures made { IfOk result (λ row. product_row a.now i b gates.old ≡ (gates.new, row.items)) }
    ensures within { IfOk result (λ row. IsWord gates.new.variables row.items) }
    ensures begins { Begins gates.old gates.new }
    ensures full { IsErrOf result GateFault.Full
        → most_variables < ((product_row a.now i b gates.old).0).variables }
{
    let none = falsity(gates);
    let mut word = Vec::with_capacity(alloc, a.len())?;
    append_same(&mut word, i, none)?;
    let low = &a[..a.len().saturating_sub(i)];
    'bits: for x in low {
        let bit = gates.and_gate(*x, b)?;
        append(&mut word, bit)?;
    }
    Ok(word)
}

// Puts one more row at the end.
fn append_row(rows: &mut Vec<Vec<Literal>>, row: Vec<Literal>) -> Result<(), AllocError>
    ensures { OnOk result (rows.new.items ≡ rows.old.items ++ row ∷ []) }
{
    rows.push(row)?;
    Ok(())
}

// The rows of a product, the row for bit 0 first.
#[tactic(auto, using(sv_gates::proofs::ExtendingLaws::begins_trans))]
fn rows(
    alloc: Global,
    gates: &mut Gates,
    a: &[Literal],
    b: &[Literal],
) -> Result<Vec<Vec<Literal>>, GateFault>
    requires a { IsWord gates.old.variables a.now }
    requires b { IsWord gates.old.variables b.now }
    ensures made { IfOk result (λ rows.
        product_rows a.now 0 b.now gates.old ≡ (gates.new, map (λ row. row.items) rows.items)) }
    ensures within { IfOk result (λ rows.
        AreWords gates.new.variables (map (λ row. row.items) rows.items)) }
    ensures begins { Begins gates.old gates.new }
    ensures full { IsErrOf result GateFault.Full
        → most_variables < ((product_rows a.now 0 b.now gates.old).0).variables }
{
    let mut rows = Vec::with_capacity(alloc, b.len())?;
    'rows: for bit in b {
        let row = row(alloc, gates, a, rows.len(), *bit)?;
        append_row(&mut rows, row)?;
    }
    Ok(rows)
}

// A total and the rows after it, one after the other.
#[tactic(auto, using(sv_gates::proofs::ExtendingLaws::begins_trans))]
fn total_from(
    alloc: Global,
    gates: &mut Gates,
    total: &[Literal],
    rows: &[Vec<Literal>],
) -> Result<Vec<Literal>, GateFault>
    requires total { IsWord gates.old.variables total.now }
    requires rows { AreWords gates.old.variables (map (λ row. row.items) rows.now) }
    ensures made { IfOk result (λ word. total_from total.now (map (λ row. row.items) rows.now)
        gates.old ≡ (gates.new, word.items)) }
    ensures within { IfOk result (λ word. IsWord gates.new.variables word.items) }
    ensures begins { Begins gates.old gates.new }
    ensures full { IsErrOf result GateFault.Full → most_variables < ((total_from total.now
        (map (λ row. row.items) rows.now) gates.old).0).variables }
{
    let mut made = copied(alloc, total)?;
    'rows: for row in rows {
        made = sum(alloc, gates, &made, row)?;
    }
    Ok(made)
}

/// The product of two words of one length.
#[tactic(auto, using(sv_gates::proofs::ExtendingLaws::begins_trans))]
pub fn product(
    alloc: Global,
    gates: &mut Gates,
    a: &[Literal],
    b: &[Literal],
) -> Result<Vec<Literal>, GateFault>
    requires a { IsWord gates.old.variables a.now }
    requires b { IsWord gates.old.variables b.now }
    ensures made { IfOk result (λ word.
        product_word a.now b.now gates.old ≡ (gates.new, word.items)) }
    ensures within { IfOk result (λ word. IsWord gates.new.variables word.items) }
    ensures begins { Begins gates.old gates.new }
    ensures full { IsErrOf result GateFault.Full
        → most_variables < ((product_word a.now b.now gates.old).0).variables }
{
    let rows = rows(alloc, gates, a, b)?;
    match rows.split_first() {
        Some((first, more)) => total_from(alloc, gates, first, more),
        None => Ok(Vec::new(alloc)),
    }
}
