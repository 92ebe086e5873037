// Which logs a certificate can hold.
ghost use Rattle.std.specs.Prelude.{◌<◌, ◌^◌, ℤ, List, length, map, All};
ghost use Rattle.sv_clause.specs.Logs.{plain_step, plain_log, AllDerived};
ghost use Rattle.sv_proof.specs.Certificate.{IsWritableLog};
ghost use Rattle.sv_judge.specs.Writable.{IsTyped};

use sv_clause::{Derived, Log};

/// Changes nothing: a call brings that the log can be written where its steps are derived.
pub fn know_writable(log: &Log)
    requires { length log.now.steps.items < 2 ^ 32 }
    ensures { (clauses : List (List ℤ)) → AllDerived clauses (plain_log log.now) →
        IsWritableLog (plain_log log.now) }
{
    know_steps(&log.steps);
}

// Changes nothing: a call brings what the types of steps say.
fn know_steps(steps: &[Derived])
    ensures { All IsTyped (map plain_step steps.now) }
{
    'steps: for step in steps {
        let _literals = step.clause.literals();
        know_numbers(&step.chain);
    }
}

// Changes nothing: a call brings that the numbers have 64 bits.
fn know_numbers(chain: &[u64])
    ensures { All (λ number. number < 2 ^ 64) chain.now }
{}
