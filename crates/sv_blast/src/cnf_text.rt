// What `secv cnf` prints of an encoding.
ghost use Rattle.std.specs.Prelude.{◌≡◌, ◌++◌, IfOk, OnOk, codes, flat_map};
ghost use Rattle.std.specs.Fmt.{signed_decimal};
ghost use Rattle.sv_encoding.specs.CnfText.{clause_line, problem_line};
ghost use Rattle.sv_blast.specs.Coded.{encoding_of};

use crate::coded::Coded;
use itoa::Buffer;
use std::alloc::{AllocError, Global};
use sv_clause::Clause;
use sv_texts::push_number;

/// The first line of an encoding as DIMACS: how many variables and clauses there are. An error says
/// that memory ran out.
pub fn problem_line(alloc: Global, coded: &Coded) -> Result<Vec<u8>, AllocError>
    ensures { IfOk result (λ line. line.items ≡ problem_line (encoding_of coded.now)) }
{
    let mut line = Vec::from_slice(alloc, b"p cnf ")?;
    push_number(&mut line, u64::from(coded.variables))?;
    line.push(b' ')?;
    push_number(&mut line, coded.clauses.len() as u64)?;
    line.push(b'\n')?;
    Ok(line)
}

/// The lines of some clauses as DIMACS, one after the other. An error says that memory ran out.
pub fn clause_lines(alloc: Global, clauses: &[Clause]) -> Result<Vec<u8>, AllocError>
    ensures { IfOk result (λ text. text.items ≡ flat_map clause_line clauses.now) }
{
    let mut text = Vec::new(alloc);
    'clauses: for clause in clauses {
        push_literals(&mut text, clause.literals())?;
        text.extend_from_slice(b"0\n")?;
    }
    Ok(text)
}

// Adds literals, a blank behind each.
fn push_literals(text: &mut Vec<u8>, literals: &[i32]) -> Result<(), AllocError>
    ensures { OnOk result (text.new.items ≡ text.old.items
        ++ flat_map (λ literal. signed_decimal literal ++ codes " ") literals.now) }
{
    'literals: for literal in literals {
        push_literal(text, *literal)?;
    }
    Ok(())
}

fn push_literal(text: &mut Vec<u8>, literal: i32) -> Result<(), AllocError>
    ensures { OnOk result (text.new.items
        ≡ text.old.items ++ signed_decimal literal ++ codes " ") }
{
    let mut buffer = Buffer::new();
    text.extend_from_slice(buffer.format(literal).as_bytes())?;
    text.push(b' ')?;
    Ok(())
}
