// The encoding of an obligation with facts, whose goal is that an expression holds: it can be met
// at the values alone that falsify the obligation, and what meets it there is decoded to them.
ghost use Rattle.std.specs.Prelude.{◌≡◌, All, IfOk, IsTrue, length};
ghost use Rattle.sv_flat.specs.Views.{design_of};
ghost use Rattle.sv_obl.specs.DesignQueries.{IsQueryOf};
ghost use Rattle.sv_obl.specs.Views.{obligation_of};
ghost use Rattle.sv_blast.specs.Coded.{encoding_of};
ghost use Rattle.sv_blast.specs.Decoded.{IsDecodable};
ghost use Rattle.sv_solve.specs.Answers.{IsWithin};

use crate::texts::design;
use std::alloc::Global;
use std::test::Fail;
use sv_blast::{BitPlace, Coded, decode, encode};
use sv_clause::Clause;
use sv_design::Design;
use sv_obl::{Frame, Goal, Query, Valuation};
use sv_paths::obligations;
use sv_solve::{Solved, is_within, solve};

// The first obligation has three conditions: of these the facts and the goal are made.
const ENABLED: &str = "module m(input clk, input a, input b, output reg p, output reg q);\n  \
    always @(posedge clk) begin\n    \
    q <= a ^ b;\n    \
    if (a | p) if (~(b & q)) if (p ^ q | a) p <= b;\n  \
    end\nendmodule\n";

// Where the first two conditions of an obligation hold, its third one holds in a frame.
fn holds(alloc: Global, design: &Design, query: &Query, frame: Frame) -> Result<Query, Fail>
    requires { IsQueryOf (design_of design.now) (obligation_of query.now) }
    ensures { IfOk result (λ made. IsQueryOf (design_of design.now) (obligation_of made)) }
{
    let [first, second, goal] = query.path.as_slice() else {
        return Err(Fail::from("there are three conditions"));
    };
    let mut facts = Vec::with_capacity(alloc, 2)?;
    facts.push(first.cond.copy(alloc)?)?;
    facts.push(second.cond.copy(alloc)?)?;
    let expr = goal.cond.copy(alloc)?;
    Ok(Query {
        facts,
        path: Vec::new(alloc),
        right: None,
        reads: Vec::new(alloc),
        goal: Goal::Holds { expr, frame },
    })
}

// Whether one of the values is set: those of a, b, p and q, and then those of a and b in the next
// cycle.
fn is_set(values: u64, place: u32) -> bool {
    values >> place.min(5) & 1 == 1
}

// Whether the values falsify the obligation.
fn falsified(values: u64, frame: Frame) -> bool {
    let a = is_set(values, 0);
    let b = is_set(values, 1);
    let p = is_set(values, 2);
    let q = is_set(values, 3);
    let enabled = p ^ q | a;
    let holds = match frame {
        Frame::Now => enabled,
        Frame::Next => (if enabled { b } else { p }) ^ (a ^ b) | is_set(values, 4),
    };
    (a | p) && !(b & q) && !holds
}

// The clause that gives a bit its value.
fn unit(alloc: Global, place: &BitPlace, values: u64) -> Result<Clause, Fail> {
    // the signals are clk, a, b, p and q
    let before = place.signal.0.saturating_sub(1);
    let at = if place.next {
        before.saturating_add(4)
    } else {
        before
    };
    let variable = i32::try_from(place.variable).ok().ok_or("a variable")?;
    let literal = if is_set(values, at) {
        variable
    } else {
        variable.wrapping_neg()
    };
    Ok(Clause::new(alloc, &[literal])?.ok_or("no clause")?)
}

fn are_within(variables: u32, clauses: &[Clause]) -> bool
    ensures { IsTrue result → All (IsWithin variables) clauses.now }
{
    clauses.iter().all(|clause| is_within(variables, clause))
}

// The clauses of an encoding, and behind them those that give the bits their values.
fn with_values(alloc: Global, coded: &Coded, values: u64) -> Result<Vec<Clause>, Fail> {
    let mut clauses = Vec::new(alloc);
    'clauses: for clause in &coded.clauses {
        clauses.push(Clause::new(alloc, clause.literals())?.ok_or("no clause")?)?;
    }
    'bits: for place in &coded.bits {
        clauses.push(unit(alloc, place, values)?)?;
    }
    Ok(clauses)
}

// The values that are decoded.
fn spelled(alloc: Global, design: &Design, coded: &Coded, found: &[bool]) -> Result<u64, Fail>
    requires values { length found.now ≡ coded.now.variables }
    requires bits { IsDecodable (design_of design.now) coded.now.variables
        (encoding_of coded.now).bits }
{
    let registers = design.registers().len();
    let inputs = design.inputs().len();
    let mut into = Valuation {
        regs: vec![in alloc; u64::MAX; registers]?,
        inputs: vec![in alloc; u64::MAX; inputs]?,
        next_inputs: vec![in alloc; u64::MAX; inputs]?,
    };
    decode(coded, design, found, &mut into);
    let ([p, q], [a, b], [later_a, later_b]) = (
        into.regs.as_slice(),
        into.inputs.as_slice(),
        into.next_inputs.as_slice(),
    ) else {
        return Err(Fail::from("there are two registers and two inputs"));
    };
    Ok(*a | *b << 1 | *p << 2 | *q << 3 | *later_a << 4 | *later_b << 5)
}

// The values of the bits that have a place: none is in the next cycle where the obligation is about
// this one, and else that of a alone.
fn placed(values: u64, frame: Frame) -> u64 {
    match frame {
        Frame::Now => values & 0b00_1111,
        Frame::Next => values & 0b01_1111,
    }
}

// Whether the clauses of an obligation can be met at values, and what meets them spells these.
fn met(
    alloc: Global,
    design: &Design,
    query: &Query,
    values: u64,
    frame: Frame,
) -> Result<bool, Fail>
    requires { IsQueryOf (design_of design.now) (obligation_of query.now) }
{
    let coded = encode(alloc, design, query)?;
    let clauses = with_values(alloc, &coded, values)?;
    if !are_within(coded.variables, &clauses) {
        return Err(Fail::from("a literal is out of range"));
    }
    match solve(alloc, coded.variables, &clauses, 1000)? {
        Solved::Found(found) => {
            Ok(spelled(alloc, design, &coded, &found)? == placed(values, frame))
        }
        Solved::Refuted(_) => Ok(false),
        Solved::Spent(_) => Err(Fail::from("undecided")),
    }
}

// Whether the clauses can be met at exactly the values that falsify the obligation.
fn agrees(alloc: Global, design: &Design, frame: Frame) -> Result<bool, Fail> {
    let queries = obligations(alloc, design)?;
    let [first, ..] = queries.as_slice() else {
        return Err(Fail::from("there is an obligation"));
    };
    let query = holds(alloc, design, first, frame)?;
    'values: for values in 0..64 {
        if met(alloc, design, &query, values, frame)? != falsified(values, frame) {
            return Ok(false);
        }
    }
    Ok(true)
}

#[test]
fn met_where_falsified(rt: HostRuntime) -> Result<(), Fail> {
    let design = design(&rt, rt.alloc(), ENABLED)?;
    assert!(rt; agrees(rt.alloc(), &design, Frame::Now)?);
    assert!(rt; agrees(rt.alloc(), &design, Frame::Next)?);
    Ok(())
}
