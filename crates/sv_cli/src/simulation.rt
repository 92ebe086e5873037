// What `sim` comes to.
ghost use Rattle.std.specs.Prelude.{◌≡◌, ◌↔◌, ℕ, ◌++◌, ◌≤◌, ◌+◌, ◌⊎◌, List, Some, IsSome, IfSome};
ghost use Rattle.std.specs.Prelude.{[], IfNone, IsTrue, length};
ghost use Rattle.std.specs.Option.{option_copied};
ghost use Rattle.sv_num.specs.Rules.{rule_number};
ghost use Rattle.sv_flat.specs.Views.{design_of};
ghost use Rattle.sv_io.specs.Count.{Rose};
ghost use Rattle.sv_io.specs.Sink.{WritesFront};
ghost use Rattle.sv_io.specs.Source.{WhateverFollows};
ghost use Rattle.sv_sim_run.specs.Simulated.{largest_stimulus, level_asked, WritesAllCycles};
ghost use Rattle.sv_cli.specs.Answer.{Answer, answer_of, limit_exceeded};
ghost use Rattle.sv_cli.specs.Prepared.{EndsAs, Performs};
ghost use Rattle.sv_cli.specs.Simulates.{answer_by};

use crate::outcome::Outcome;
use std::alloc::Global;
use sv_design::Design;
use sv_io::{Sink, Source};
use sv_num::Rule;
use sv_report::{Broken, StimSource};
use sv_sim_run::{Ending, SimFault, simulate};

/// Simulates the design on the input, for a level or for all, and says how that ends.
pub fn simulation<S: Source, K: Sink>(
    alloc: Global,
    design: &Design,
    level: Option<&str>,
    order: Option<u64>,
    input: &mut S,
    out: &mut K,
) -> Outcome
    ensures performed { Performs (EndsAs (design_of design.now) (option_copied level.entry) order)
        (λ stimulus. S.given input.new ≡ S.given input.old ++ stimulus) S.tells (S.left input.old)
        (K.accepted out.old) (K.accepted out.new) (answer_of result) }
    ensures to_the_end { WhateverFollows (S.ended input.new) (S.given input.old) (S.given input.new)
        (λ stimulus. IfSome (answer_of result) (λ a. (printed : List ℕ)
        × EndsAs (design_of design.now) (option_copied level.entry) order stimulus a printed
        × (K.accepted out.new ≡ K.accepted out.old ++ printed))) }
    ensures front_to_the_end { WhateverFollows (S.ended input.new) (S.given input.old)
        (S.given input.new) (λ stimulus. IfNone (answer_of result) ((a : Answer)
        × (printed : List ℕ)
        × EndsAs (design_of design.now) (option_copied level.entry) order stimulus a printed
        × WritesFront (K.accepted out.old) printed (K.accepted out.new))) }
    ensures unfailed { IfSome (answer_of result) (λ _.
        (S.faults input.new ≡ S.faults input.old) × (K.faults out.new ≡ K.faults out.old)) }
    ensures read_fault { result ≡ Outcome.ReadFault →
        (stimulus : List ℕ)
        × (S.given input.new ≡ S.given input.old ++ stimulus)
        × Rose (S.faults input.old) (S.faults input.new)
        × (IsTrue (S.ended input.new) ↔ IsTrue (S.ended input.old))
        × WritesAllCycles (design_of design.now) (option_copied level.entry) stimulus
        (K.accepted out.old) (K.accepted out.new) }
    ensures write_fault { result ≡ Outcome.WriteFault → Rose (K.faults out.old) (K.faults out.new) }
    ensures untouched { (input.new ≡ input.old)
        ⊎ IsSome (level_asked (design_of design.now) (option_copied level.entry)) }
    ensures most { (stimulus : List ℕ) → S.given input.new ≡ S.given input.old ++ stimulus →
        length stimulus ≤ largest_stimulus + 1 }
{
    match simulate(alloc, design, input, out, level, order) {
        Ok(ending) => outcome_of(alloc, ending),
        Err(SimFault::Read) => Outcome::ReadFault,
        Err(SimFault::Write) => Outcome::WriteFault,
        Err(SimFault::OutOfMemory) => Outcome::OutOfMemory,
    }
}

fn over_limit(alloc: Global, limit: Rule) -> Outcome
    ensures { answer_of result ≡ Some (limit_exceeded (rule_number limit) []) }
{
    Outcome::Refused(Broken::Limit(limit.number(), Vec::new(alloc)))
}

fn outcome_of(alloc: Global, ending: Ending) -> Outcome
    ensures { answer_of result ≡ Some (answer_by ending) }
{
    match ending {
        Ending::Done => Outcome::Done,
        Ending::NoLevel => over_limit(alloc, Rule::Level),
        Ending::TooLarge => over_limit(alloc, Rule::StimulusSize),
        Ending::WrongLine(line, kind) => {
            Outcome::Refused(Broken::Stimulus(StimSource::Input, line, kind))
        }
    }
}
