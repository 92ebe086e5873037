// Signals.
ghost use Rattle.std.specs.Prelude.{◌≡◌, IfOk};
ghost use Rattle.sv_flat.specs.Design.{SignalForm};
ghost use Rattle.sv_flat.specs.Views.{signal_form};

use std::alloc::{AllocError, Global};
use sv_lattice::Label;
use sv_num::{Copied, Name, Place};

/// A signal by its number in signal order, from 0.
#[derive(Clone, Copy, Debug, PartialEq, Eq)]
pub struct SigId(pub u32);

/// What a signal is.
#[derive(Clone, Copy, Debug, PartialEq, Eq)]
pub enum SigKind {
    /// An input port of the top module.
    TopInput,
    /// An input port of an instance below it.
    Input,
    /// An output port that is no register.
    Output,
    /// A declared wire.
    Net,
    /// A declared register.
    Reg,
    /// An output port that is a register.
    OutputReg,
}

/// A signal: its name from the top module on, 1 to 64 bits, its signedness, and the place of its
/// declaration.
#[derive(Debug, Drop)]
pub struct Signal {
    pub name: Name,
    pub width: u8,
    pub signed: bool,
    pub kind: SigKind,
    pub label: Label,
    pub place: Place,
}

impl Signal {
    /// A second signal that is equal. It fails where memory runs out.
    pub fn copy(&self, alloc: Global) -> Result<Signal, AllocError>
        ensures { IfOk result (λ copy. signal_form copy ≡ signal_form self.now) }
    {
        Ok(Signal {
            name: self.name.copy(alloc)?,
            width: self.width,
            signed: self.signed,
            kind: self.kind,
            label: self.label,
            place: self.place,
        })
    }
}

impl Copied for Signal {
    ghost Plain = { SignalForm };

    ghost plain = { signal_form };

    fn copy(&self, alloc: Global) -> Result<Signal, AllocError> {
        Signal::copy(self, alloc)
    }
}
