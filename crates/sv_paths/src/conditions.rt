// A condition of a path that is walked along its trail, with the wanted names in it.
ghost use Rattle.std.specs.Prelude.{◌≡◌, ◌<◌, [], length, filter, nat_le, IfOk};
ghost use Rattle.sv_flat.specs.ByNumber.{signal_forms};
ghost use Rattle.sv_flat.specs.Views.{typed_tree};
ghost use Rattle.sv_obl.specs.Exchange.{exchanged};
ghost use Rattle.sv_obl.specs.Paths.{step_with};
ghost use Rattle.sv_paths.specs.PutIn.{put_for, names_put, CanBePut};
ghost use Rattle.sv_obl.specs.Routes.{names_in};
ghost use Rattle.sv_obl.specs.Views.{step_form};
ghost use Rattle.sv_obl.specs.Wanted.{with_copies};

use crate::exchange::{Put, with_put};
use std::alloc::{AllocError, Global};
use sv_flat::{SigId, Signal};
use sv_obl::{PathStep, names_of};

/// A condition on the way, and the wanted names in it, where there are so many signals. They tell
/// without a walk through it that an assignment changes nothing in it.
#[derive(Drop)]
pub struct Condition {
    pub step: PathStep,
    pub count: u32,
    pub wanted: Vec<u32>,
    pub ghost named: { wanted.items ≡ filter (nat_le count) (names_in [] (typed_tree step.cond)) },
}

// Those of some names that are wanted, where there are so many signals.
fn wanted_among(alloc: Global, count: u32, names: &[u32]) -> Result<Vec<u32>, AllocError>
    ensures { IfOk result (λ wanted. wanted.items ≡ filter (nat_le count) names.now) }
{
    names
        .iter()
        .copied()
        .filter(|name| *name >= count)
        .collect(alloc)
}

impl Condition {
    /// A step with the wanted names in its condition; an error where memory runs out.
    pub fn new(alloc: Global, count: u32, step: PathStep) -> Result<Condition, AllocError>
        ensures { IfOk result (λ made. made.step ≡ step) }
    {
        let names = names_of(alloc, &step.cond)?;
        let wanted = wanted_among(alloc, count, &names)?;
        Ok(Condition {
            step,
            count,
            wanted,
        })
    }

    // Whether something is put for some name in it.
    fn names_put(&self, put: Put) -> bool
        ensures { result ≡ names_put self.now.count put.entry (typed_tree self.now.step.cond) }
    {
        self.wanted
            .iter()
            .any(|name| put.has_for(self.count, SigId(*name)))
    }

    /// The condition with what is put into it; an error where it nests too deep then, or memory
    /// runs out. One that names nothing for which something is put is handed back as it is.
    pub fn with_put(
        self,
        alloc: Global,
        signals: &[Signal],
        put: Put,
    ) -> Result<Condition, AllocError>
        requires few { length signals.now < 4294967296 }
        requires put { CanBePut put }
        ensures { IfOk result (λ made. step_form made.step ≡ step_with (exchanged
            (with_copies (signal_forms signals.now)) (put_for (signal_forms signals.now) put.entry))
            (step_form self.step)) }
    {
        let count = signals.len() as u32;
        if self.count == count && !self.names_put(put) {
            return Ok(self);
        }
        let PathStep { place, cond, truth } = self.step;
        let cond = with_put(cond, alloc, signals, put)?;
        Condition::new(alloc, count, PathStep { place, cond, truth })
    }
}
