// What the text of certificates is worth, as a contract of a function that does nothing.
ghost use Rattle.std.specs.Prelude.{◌≡◌, ◌+◌, ◌<◌, ◌^◌, ℤ, List, length, All};
ghost use Rattle.sv_clause.specs.Literals.{IsClause};
ghost use Rattle.sv_clause.specs.Logs.{Step, AllDerived};
ghost use Rattle.sv_proof.specs.Certificate.{proof_text, IsWritableLog, AreLogs};

/// Lists of logs that have the same certificate are the same.
pub fn one_certificate_each()
    ensures { (first second : List (List Step)) → AreLogs first → AreLogs second →
        proof_text first ≡ proof_text second → first ≡ second }
{}

/// A log of fewer than 2 ^ 32 steps, each of a clause in normal form and derived from some clauses
/// and the steps before it, can be written where 64 bits number these clauses and steps. So fewer
/// than 2 ^ 32 such logs have a certificate.
pub fn derived_logs_are_writable()
    ensures { (clauses : List (List ℤ)) (steps : List Step)
        → length steps < 2 ^ 32 → length clauses + length steps < 2 ^ 64
        → All (λ step. IsClause step.clause) steps → AllDerived clauses steps
        → IsWritableLog steps }
{}
