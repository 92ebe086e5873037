// How far a check has come, and what ends it early.
ghost use Rattle.std.specs.Prelude.{◌≡◌, ◌↔◌, ◌+◌, ◌<◌, ◌++◌, ◌∷◌, [], ℕ, Some, None, IsTrue};
ghost use Rattle.std.specs.Prelude.{IsFalse, IsSome, OnOk};
ghost use Rattle.sv_flat.specs.Design.{FlatDesign};
ghost use Rattle.sv_judge.specs.Progress.{HasDone};
ghost use Rattle.sv_judge.specs.declared.progress.EarlyStop.TheVariants.{OutOfMemory};

use crate::verdicts::{Failure, Spent};
use std::alloc::{AllocError, Global};
use sv_clause::Log;

/// What ends a check before the last obligation.
#[derive(Drop)]
pub enum EarlyStop {
    /// An obligation is falsified.
    Fails(Failure),
    /// The encoding of the obligation of this number has more than 4,194,304 variables.
    TooLarge(u32),
    /// Memory ran out.
    OutOfMemory,
}

impl From<AllocError> for EarlyStop {
    ghost from_gives = { λ _ stop. stop ≡ OutOfMemory };

    fn from(_error: AllocError) -> EarlyStop {
        EarlyStop::OutOfMemory
    }
}

/// How many obligations are decided, the first on which the budget is spent, and the logs so far,
/// where they are kept and none is spent.
#[derive(Drop)]
pub struct Progress {
    pub keeps: bool,
    pub count: u32,
    pub spent: Option<Spent>,
    pub logs: Vec<Log>,
}

impl Progress {
    /// Before the first obligation.
    pub fn new(alloc: Global, keeps: bool) -> Progress
        ensures done { (design : FlatDesign) (budget : ℕ) → HasDone design budget result }
        ensures count { result.count ≡ 0 }
        ensures keeps { result.keeps ≡ keeps }
    {
        Progress {
            keeps,
            count: 0,
            spent: None,
            logs: Vec::new(alloc),
        }
    }

    /// Counts an obligation that the log refutes. An error says that memory ran out.
    pub fn add_refuted(&mut self, log: Log) -> Result<(), AllocError>
        requires { self.old.count < 65536 }
        ensures count { OnOk result (self.new.count ≡ self.old.count + 1) }
        ensures spent { OnOk result (self.new.spent ≡ self.old.spent) }
        ensures keeps { OnOk result (self.new.keeps ≡ self.old.keeps) }
        ensures logs { OnOk result (IsTrue self.old.keeps → self.old.spent ≡ None →
            self.new.logs.items ≡ self.old.logs.items ++ log ∷ []) }
        ensures none_kept { OnOk result
            (IsFalse self.old.keeps → self.new.logs.items ≡ self.old.logs.items) }
    {
        if self.wants_log() {
            self.logs.push(log)?;
        }
        self.count += 1;
        Ok(())
    }

    /// Whether a log of the obligation that comes next is kept, if it is refuted.
    pub fn wants_log(&self) -> bool
        ensures { IsTrue result ↔ (IsTrue self.now.keeps × (self.now.spent ≡ None)) }
    {
        self.keeps && self.spent.is_none()
    }

    /// Counts an obligation that has a refutation, where no log of it is wanted.
    pub fn add_valid(&mut self)
        requires { self.old.count < 65536 }
        ensures count { self.new.count ≡ self.old.count + 1 }
        ensures spent { self.new.spent ≡ self.old.spent }
        ensures keeps { self.new.keeps ≡ self.old.keeps }
        ensures logs { self.new.logs.items ≡ self.old.logs.items }
    {
        self.count += 1;
    }

    /// Counts an obligation on which the log spends the budget. No log is kept from then on.
    pub fn add_spent(&mut self, log: Log)
        requires { self.old.count < 65536 }
        ensures count { self.new.count ≡ self.old.count + 1 }
        ensures first { self.old.spent ≡ None → self.new.spent
            ≡ Some (record { obligation = self.old.count + 1; log = log }) }
        ensures later { IsSome self.old.spent → self.new.spent ≡ self.old.spent }
        ensures keeps { self.new.keeps ≡ self.old.keeps }
        ensures none_kept { self.old.logs.items ≡ [] → self.new.logs.items ≡ [] }
    {
        self.count += 1;
        if self.spent.is_none() {
            self.logs.clear();
            self.spent = Some(Spent {
                obligation: self.count,
                log,
            });
        }
    }
}
