//! Reads clauses in DIMACS form from its standard input, one instance after another, and tells what
//! the solver answers to each within a budget.
//!
//! Its words are the budget, and `check` where each answer is to be checked, and told without the
//! number of its steps. `bench/solve.sh` prints its times. What its `stdin` holds was decided
//! outside this program.
#![tactic(auto)]

ghost use Rattle.std.specs.Prelude.{◌≤◌};

mod checks;

use crate::checks::{are_true, are_within};
use anyhow::{Context, Result, ensure};
use std::alloc::{AllocError, Global};
use std::io::{BufRead, BufReader};
use std::{env, io};
use sv_clause::{Clause, Log};
use sv_proof::check_log;
use sv_solve::{Solved, solve};

// Clauses over variables from 1 on, and the literals of one that has no end yet.
#[derive(Drop)]
struct Instance {
    variables: u32,
    clauses: Vec<Clause>,
    literals: Vec<i32>,
}

fn main(rt: HostRuntime) -> Result<()> {
    let mut words = env::args(&rt)?;
    // the first word is the program's own name
    let _program = words.next();
    let budget = words
        .next()
        .context("which budget?")?
        .as_str()
        .parse::<u32>()?;
    ensure!(
        budget > 0 && budget <= 4_000_000_000,
        "a budget from 1 to 4000000000"
    );
    let is_checked = words.next().is_some();
    let alloc = rt.alloc();
    let instances = read_instances(&rt, alloc)?;
    'instances: for instance in &instances {
        tell(&rt, alloc, instance, budget, is_checked)?;
    }
    Ok(())
}

// Tells what the solver answers to an instance.
fn tell(
    rt: &impl Print,
    alloc: Global,
    instance: &Instance,
    budget: u32,
    is_checked: bool,
) -> Result<()>
    requires some { 1 ≤ budget }
    requires most { budget ≤ 4000000000 }
{
    let clauses = instance.clauses.as_slice();
    ensure!(
        are_within(instance.variables, clauses),
        "a literal is out of range"
    );
    match solve(alloc, instance.variables, clauses, budget)? {
        Solved::Found(values) => {
            ensure!(
                !is_checked || are_true(&values, clauses),
                "a clause is false"
            );
            println!(rt; "found")?;
        }
        Solved::Refuted(log) if is_checked => {
            check(alloc, clauses, &log)?;
            println!(rt; "refuted")?;
        }
        Solved::Refuted(log) => println!(rt; "refuted in {} steps", log.steps.len())?,
        Solved::Spent(log) => println!(rt; "spent {} steps", log.steps.len())?,
    }
    Ok(())
}

// Reads instances, each of which begins with its line `p cnf VARIABLES CLAUSES`.
fn read_instances(rt: &impl Input, alloc: Global) -> Result<Vec<Instance>> {
    let mut instances: Vec<Instance> = Vec::new(alloc);
    'lines: for line in BufReader::new(alloc, rt.reader())?.lines(alloc) {
        let line = line?;
        read_line(alloc, line.as_str(), &mut instances)?;
    }
    ensure!(are_ended(&instances), "a clause has no end");
    Ok(instances)
}

// Whether each clause that was begun has its end.
fn are_ended(instances: &[Instance]) -> bool {
    match instances.last() {
        Some(last) => last.literals.is_empty(),
        None => true,
    }
}

// Reads one line: a comment, the first line of an instance, or literals.
fn read_line(alloc: Global, text: &str, instances: &mut Vec<Instance>) -> Result<()> {
    if text.starts_with('c') {
        return Ok(());
    }
    if text.starts_with('p') {
        ensure!(are_ended(instances), "a clause has no end");
        instances
            .push(begin_instance(alloc, text)?)
            .map_err(AllocError::from)?;
        return Ok(());
    }
    let instance = instances.last_mut().context("no line p cnf stands first")?;
    read_literals(alloc, text, instance)
}

// The instance of a line `p cnf VARIABLES CLAUSES`, with no clause yet.
fn begin_instance(alloc: Global, text: &str) -> Result<Instance> {
    let mut words = text.split_whitespace();
    // the words `p` and `cnf`, of which nothing is kept
    let _p = words.next();
    let _cnf = words.next();
    let variables = words.next().context("how many variables?")?.parse::<u32>()?;
    Ok(Instance {
        variables,
        clauses: Vec::new(alloc),
        literals: Vec::new(alloc),
    })
}

// Reads the literals of one line, after those of a clause that began before it.
fn read_literals(alloc: Global, text: &str, instance: &mut Instance) -> Result<()> {
    'words: for word in text.split_whitespace() {
        let literal = word.parse::<i32>()?;
        ensure!(literal != i32::MIN, "a literal is out of range");
        if literal != 0 {
            instance.literals.push(literal)?;
            continue 'words;
        }
        // a clause with a variable in both polarities says nothing
        if let Some(clause) = Clause::new(alloc, instance.literals.as_slice())? {
            instance.clauses.push(clause)?;
        }
        instance.literals.clear();
    }
    Ok(())
}

// Checks that a log refutes the clauses.
fn check(alloc: Global, clauses: &[Clause], log: &Log) -> Result<()> {
    ensure!(log.steps.len() <= 4_294_967_295, "too many steps");
    check_log(alloc, clauses, log)?;
    Ok(())
}
