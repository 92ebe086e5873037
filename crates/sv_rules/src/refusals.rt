// The faults of broken rules.
ghost use Rattle.std.specs.Prelude.{◌≡◌, ◌<◌, ℕ, None, length, Contains, IsTrue, IfOk, IfErr};
ghost use Rattle.std.specs.Prelude.{IfSome, OnOk};
ghost use Rattle.sv_num.specs.Rules.{rule_number};
ghost use Rattle.sv_flat.specs.Admission.{IsFirstBreach};
ghost use Rattle.sv_flat.specs.Soundness.{sound};
ghost use Rattle.sv_flat.specs.Values.{signal_of};
ghost use Rattle.sv_flat.specs.Views.{design_of};
ghost use Rattle.sv_rules.specs.Faults.{IsFaultOf};
ghost use Rattle.sv_rules.specs.First.{breach_of};
ghost use Rattle.sv_graph.specs.Numbers.{numbers};
ghost use Rattle.sv_rules.specs.Refusals.{breach_with, names_at};

use crate::found::Found;
use std::alloc::{AllocError, Global};
use sv_flat::{Flat, SigId};
use sv_num::{Fault, Name, Place, Rule};

// The name of a signal.
fn name_of(alloc: Global, flat: &Flat, signal: SigId) -> Result<Name, AllocError>
    requires { signal.0 < length flat.now.signals.items }
    ensures { IfOk result (λ name.
        name ≡ (signal_of (design_of flat.now).signals signal.0).name) }
{
    flat.signals[signal.0 as usize].name.copy(alloc)
}

// The names of signals, in order.
fn names_of(alloc: Global, flat: &Flat, signals: &[SigId]) -> Result<Vec<Name>, AllocError>
    requires { (k : ℕ) → Contains (numbers signals.now) k → k < length flat.now.signals.items }
    ensures { IfOk result (λ names.
        names.items ≡ names_at (design_of flat.now) (numbers signals.now)) }
{
    let mut names = Vec::with_capacity(alloc, signals.len())?;
    for signal in signals {
        names.push(name_of(alloc, flat, *signal)?)?;
    }
    Ok(names)
}

/// The fault of the first rule that a design breaks, its place and its signals. It
/// tells of memory instead where that runs out.
pub fn refusal(alloc: Global, flat: &Flat, rule: Rule, place: Place, signals: &[SigId]) -> Fault
    requires sound { IsTrue (sound (design_of flat.now)) }
    requires first { IsFirstBreach (design_of flat.now) (breach_with (rule_number rule) place signals.now) }
    ensures { IsFaultOf (design_of flat.now) result }
{
    match names_of(alloc, flat, signals) {
        Ok(names) => Fault::broken(rule, place, names),
        Err(_) => Fault::OutOfMemory,
    }
}

/// An error where something was found, which is the first breach of the design.
pub fn refuse(alloc: Global, flat: &Flat, rule: Rule, found: Option<Found>) -> Result<(), Fault>
    requires sound { IsTrue (sound (design_of flat.now)) }
    requires first { IfSome found (λ found.
        IsFirstBreach (design_of flat.now) (breach_of (rule_number rule) found)) }
    ensures none { OnOk result (found ≡ None) }
    ensures refused { IfErr result (IsFaultOf (design_of flat.now)) }
{
    match found {
        Some(found) => Err(refusal(alloc, flat, rule, found.place, &[found.signal])),
        None => Ok(()),
    }
}
