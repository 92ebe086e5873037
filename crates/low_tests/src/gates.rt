// Gates and their clauses.
use std::alloc::Global;
use sv_clause::Clause;
use sv_gates::{GateFault, Gates};

// Whether clauses are those of these literals, one by one.
fn are_clauses(clauses: &[Clause], wanted: &[&[i32]]) -> bool {
    if clauses.len() != wanted.len() {
        return false;
    }
    for (clause, literals) in clauses.iter().zip(wanted) {
        if clause.literals() != *literals {
            return false;
        }
    }
    true
}

// The clauses of variable 1, of 4 = 2 and 3, of 5 = whether 4 and 2 differ, of 6 = 5 where 3 holds
// and true elsewhere, and 6 alone.
const CLAUSES: [&[i32]; 13] = [
    &[1],
    &[2, -4],
    &[3, -4],
    &[-2, -3, 4],
    &[2, 4, -5],
    &[-2, -4, -5],
    &[2, -4, 5],
    &[-2, 4, 5],
    &[-3, 5, -6],
    &[1, 3, -6],
    &[-3, -5, 6],
    &[-1, 3, 6],
    &[6],
];

// Whether each gate has its clauses, which its own values meet and others do not.
fn has_each_gate(alloc: Global) -> Result<bool, GateFault> {
    let mut gates = Gates::new(alloc)?;
    gates.reserve(13)?;
    let a = gates.fresh()?;
    let b = gates.fresh()?;
    let both = gates.and(a, b)?;
    let differ = gates.xor(both, a)?;
    let chosen = gates.mux(b, differ, 1)?;
    gates.unit(chosen)?;
    Ok(
        gates.variables() == 6
            && are_clauses(gates.clauses(), &CLAUSES)
            && gates.meets(&[true, false, false, false, false, true])
            && !gates.meets(&[true, true, true, true, false, true]),
    )
}

// The clauses of variable 1, of 3 = neither 2 nor -2, and -3 alone.
const BOTH_SIGNS: [&[i32]; 4] = [&[1], &[-2, -3], &[2, -3], &[-3]];

// Whether a gate that is taken back leaves nothing, and one of a variable and its negation has its
// clauses.
fn takes_back(alloc: Global) -> Result<bool, GateFault> {
    let mut gates = Gates::new(alloc)?;
    let a = gates.fresh_literal()?;
    let mark = gates.mark();
    gates.xor_gate(a, a)?;
    gates.back_to(&mark);
    let either = gates.or_gate(a, a.negated())?;
    gates.unit_clause(either)?;
    Ok(gates.variables() == 3 && are_clauses(gates.clauses(), &BOTH_SIGNS))
}

#[test]
fn gates(rt: HostRuntime) {
    assert!(rt; has_each_gate(rt.alloc()) == Ok(true));
    assert!(rt; takes_back(rt.alloc()) == Ok(true));
}
