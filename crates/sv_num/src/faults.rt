// Where a text breaks a rule, and what a stage answers then.
ghost use Rattle.std.specs.Prelude.{◌≡◌};
ghost use Rattle.sv_num.specs.declared.faults.Fault.TheVariants.{OutOfMemory};
ghost use Rattle.sv_num.specs.Faults.{Refuses};
ghost use Rattle.sv_num.specs.Rules.{rule_number};

use crate::names::Name;
use crate::rules::Rule;
use std::alloc::{AllocError, AllocFailed};
use thiserror::Error;

/// A place in a text: the line, and the byte in that line. Both count from 1.
#[derive(Clone, Copy, Debug, PartialEq, Eq)]
pub struct Place {
    pub line: u32,
    pub column: u32,
}

/// A broken rule: its number, where it is broken, and the names that go with it.
#[derive(Debug, Drop)]
pub struct Refusal {
    pub number: u16,
    pub place: Place,
    pub names: Vec<Name>,
}

/// Why a stage gives no answer.
#[derive(Debug, Drop, Error)]
pub enum Fault {
    /// The text breaks a rule.
    #[error("rule {} is broken at {}:{}", .0.number, .0.place.line, .0.place.column)]
    Rule(Refusal),
    /// Memory ran out.
    #[error("out of memory")]
    OutOfMemory,
}

impl Fault {
    /// The fault of a text that breaks this rule, at a place, with names.
    pub fn broken(rule: Rule, place: Place, names: Vec<Name>) -> Fault
        ensures { Refuses result (rule_number rule) place names.items }
    {
        Fault::Rule(Refusal {
            number: rule.number(),
            place,
            names,
        })
    }
}

impl From<AllocError> for Fault {
    ghost from_gives = { λ _ fault. fault ≡ OutOfMemory };

    fn from(_error: AllocError) -> Fault {
        Fault::OutOfMemory
    }
}

impl<T: Drop> From<AllocFailed<T>> for Fault {
    ghost from_gives = { λ _ fault. fault ≡ OutOfMemory };

    fn from(_error: AllocFailed<T>) -> Fault {
        Fault::OutOfMemory
    }
}
