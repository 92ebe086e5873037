// Clauses and their resolvents.
use std::alloc::Global;
use sv_clause::{Clause, ResolveFault, resolve};

// The clause of literals that make one.
fn clause(alloc: Global, literals: &[i32]) -> Option<Clause> {
    Clause::new(alloc, literals).ok()?
}

const NORMAL: [(&[i32], &[i32]); 3] = [
    (&[3, -1, 2, -1, 3], &[-1, 2, 3]),
    (&[], &[]),
    (&[i32::MAX, -5], &[-5, i32::MAX]),
];

// Whether literals have this normal form.
fn is_normal(alloc: Global, literals: &[i32], want: &[i32]) -> bool {
    match clause(alloc, literals) {
        Some(clause) => clause.literals() == want,
        None => false,
    }
}

// Whether literals make no clause.
fn is_no_clause(alloc: Global, literals: &[i32]) -> bool {
    matches!(Clause::new(alloc, literals), Ok(None))
}

#[test]
fn normal_forms(rt: HostRuntime) {
    let alloc = rt.alloc();
    for (literals, want) in &NORMAL {
        assert!(rt; is_normal(alloc, literals, want));
    }
    assert!(rt; is_no_clause(alloc, &[1, 2, -1]));
    assert!(rt; is_no_clause(alloc, &[0, 1, 2]));
    assert!(rt; is_no_clause(alloc, &[i32::MIN, 1, 2]));
}

// What the resolvent of two clauses on a variable comes to.
fn resolved(
    alloc: Global,
    first: &[i32],
    second: &[i32],
    variable: i32,
) -> Option<Result<Clause, ResolveFault>> {
    let first = clause(alloc, first)?;
    let second = clause(alloc, second)?;
    Some(resolve(alloc, &first, &second, variable))
}

// Whether the resolvent of two clauses on variable 3 has these literals.
fn resolves_to(alloc: Global, first: &[i32], second: &[i32], want: &[i32]) -> bool {
    match resolved(alloc, first, second, 3) {
        Some(Ok(clause)) => clause.literals() == want,
        _ => false,
    }
}

const CLASHES: [(&[i32], i32); 6] = [
    (&[1, -2], 1),
    (&[1, -2], 2),
    (&[-1, 4], 1),
    (&[1, 2], 2),
    (&[1, 2], -1),
    (&[], 1),
];

// Whether a variable is not the only one on which a clause clashes with -1 2 3.
fn clashes(alloc: Global, second: &[i32], variable: i32) -> bool {
    let outcome = resolved(alloc, &[-1, 2, 3], second, variable);
    matches!(outcome, Some(Err(ResolveFault::Clash)))
}

#[test]
fn resolvents(rt: HostRuntime) {
    let alloc = rt.alloc();
    assert!(rt; resolves_to(alloc, &[1, -3, 4], &[-5, 3, 4], &[1, 4, -5]));
    assert!(rt; resolves_to(alloc, &[3], &[-3], &[]));
    for (second, variable) in &CLASHES {
        assert!(rt; clashes(alloc, second, *variable));
    }
}
