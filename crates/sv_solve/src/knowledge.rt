// The clauses that the solver knows.
ghost use Rattle.std.specs.Prelude.{◌≡◌, ◌<◌, ◌≤◌, ◌^◌, ℤ, ◌∷◌, [], ◌++◌, All, IsTrue, IfOk, OnOk};
ghost use Rattle.std.specs.Prelude.{unsigned_abs, min};
ghost use Rattle.sv_clause.specs.Literals.{stands};
ghost use Rattle.sv_clause.specs.Logs.{plain_step, plain_log, IsDerived, AllDerived};
ghost use Rattle.sv_clause.specs.Units.{IsNew};
ghost use Rattle.sv_solve.specs.Known.{clauses_known, EachNew};
ghost use Rattle.sv_solve.specs.Search.{IsClauseOf};
ghost use Rattle.sv_solve.specs.Answers.{IsWithin};

use crate::kept::KeptClause;
use std::alloc::{AllocError, Global};
use std::marker::Model;
use sv_clause::{Clause, Derived, Log};

/// The clauses that were given and the conflict clauses that were learned, each a step derived from
/// those before it and new to them.
#[derive(Drop)]
pub struct Knowledge {
    kept: Vec<KeptClause>,
    given: usize,
    steps: Vec<Derived>,
    variables: u32,
}

impl Model for Knowledge {
    ghost use Rattle.std.specs.Prelude.{◌≤◌, length, take, map};
    ghost use Rattle.sv_clause.specs.Logs.{plain_step};
    ghost use Rattle.sv_solve.specs.Known.{Known, IsKnown};

    ghost Value = { Known };

    ghost view = { λ k. record {
      given = take k.given k.kept.items;
      steps = map plain_step k.steps.items;
      variables = k.variables;
    } };

    ghost invariant = { λ k. (k.given ≤ length k.kept.items) ×
        IsKnown (record {
          given = take k.given k.kept.items;
          steps = map plain_step k.steps.items;
          variables = k.variables;
        }) k.kept.items };
}

impl Knowledge {
    /// The given clauses, and no step yet.
    pub fn new(alloc: Global, variables: u32, clauses: &[Clause]) -> Result<Knowledge, AllocError>
        requires { All (IsWithin variables) clauses.now }
        ensures given { IfOk result (λ known. known.given ≡ clauses.now) }
        ensures steps { IfOk result (λ known. known.steps ≡ []) }
        ensures variables { IfOk result (λ known. known.variables ≡ min variables 2147483647) }
    {
        let bound = variables.min(2_147_483_647);
        let mut kept: Vec<KeptClause> = Vec::new(alloc);
        'copy: for clause in clauses {
            kept.push(KeptClause::new(alloc, clause)?)?;
        }
        let given = kept.len();
        Ok(Knowledge {
            kept,
            given,
            steps: Vec::new(alloc),
            variables: bound,
        })
    }

    /// The number of variables that a literal of 32 bits can have.
    pub fn variables(&self) -> u32
        ensures { result ≡ self.now.variables }
    {
        self.variables
    }

    /// All clauses: those given, and the conflict clauses after them.
    pub fn clauses(&self) -> &[KeptClause]
        ensures value { result.now ≡ clauses_known self.now }
        ensures of { All (IsClauseOf self.now.variables) result.now }
    {
        self.kept.as_slice()
    }

    /// Takes up a conflict clause with the chain that derives it.
    pub fn learn(self, alloc: Global, step: Derived) -> Result<Knowledge, AllocError>
        requires derived { IsDerived (clauses_known self) (plain_step step) }
        requires new { IsNew (clauses_known self) step.clause }
        requires of { IsClauseOf self.variables step.clause }
        ensures given { IfOk result (λ known. known.given ≡ self.given) }
        ensures steps { IfOk result (λ known. known.steps ≡ self.steps ++ plain_step step ∷ []) }
        ensures variables { IfOk result (λ known. known.variables ≡ self.variables) }
    {
        let Knowledge {
            mut kept,
            given,
            mut steps,
            variables,
        } = self;
        kept.push(KeptClause::new(alloc, &step.clause)?)?;
        steps.push(step)?;
        Ok(Knowledge {
            kept,
            given,
            steps,
            variables,
        })
    }

    /// The log of its steps.
    pub fn finish(self) -> Log
        ensures steps { plain_log result ≡ self.steps }
        ensures of { All (IsClauseOf self.variables) (clauses_known self) }
        ensures derived { AllDerived self.given self.steps }
        ensures each_new { EachNew self.given self.steps }
    {
        // brings the invariant: every step is derived and new, every clause of the variables
        let _ = &self.kept;
        let Knowledge { steps, .. } = self;
        Log { steps }
    }

    /// The log of its steps and one more.
    pub fn finish_with(self, step: Derived) -> Result<Log, AllocError>
        ensures steps { IfOk result (λ log. plain_log log ≡ self.steps ++ plain_step step ∷ []) }
        ensures derived { AllDerived self.given self.steps }
        ensures each_new { EachNew self.given self.steps }
    {
        // brings the invariant: every step is derived and new
        let _ = &self.kept;
        let Knowledge { mut steps, .. } = self;
        steps.push(step)?;
        Ok(Log { steps })
    }
}
