// Expressions with their own lengths and signedness.
ghost use Rattle.std.specs.Prelude.{◌≡◌, true, false};
ghost use Rattle.sv_num.specs.Vectors.{width_of, is_signed, value_of};
ghost use Rattle.sv_width.specs.Measured as measured;
ghost use Rattle.sv_width.specs.Measured.{own_form};
ghost use Rattle.sv_width.specs.Views.{plain_own, measured_tree};

use crate::meanings::KnownSignal;
use crate::types::{BitType, type_of};
use sv_flat::SigId;
use sv_num::{BinOp, Bits, Place, UnOp};

/// An expression's own length and signedness, and whether it names a signal.
#[derive(Clone, Copy, Debug, PartialEq, Eq)]
pub struct Own {
    pub of_type: BitType,
    pub names_signal: bool,
}

/// An expression that breaks no rule but perhaps 405, each operand with its own length and
/// signedness. Signals are numbers; parameters, bounds and counts are values.
#[derive(Debug, Drop)]
pub enum Measured {
    Number(Own, Bits),
    Signal(Own, SigId, Place),
    Bit(Own, SigId, Place, Box<Measured>),
    Part(Own, SigId, Place, u8, u8),
    Unary(Own, UnOp, Box<Measured>),
    /// With the place of the right operand.
    Binary(Own, BinOp, Place, Box<Measured>, Box<Measured>),
    Choice(Own, Place, Box<Measured>, Box<Measured>, Box<Measured>),
    Join(Own, Vec<Measured>),
    Repeat(Own, u8, Vec<Measured>),
}

impl Measured {
    /// What the expression is by itself.
    pub fn own(&self) -> Own
        ensures { plain_own result ≡ own_form (measured_tree self.now) }
    {
        match self {
            Measured::Number(own, _) => *own,
            Measured::Signal(own, _, _) => *own,
            Measured::Bit(own, _, _, _) => *own,
            Measured::Part(own, _, _, _, _) => *own,
            Measured::Unary(own, _, _) => *own,
            Measured::Binary(own, _, _, _, _) => *own,
            Measured::Choice(own, _, _, _, _) => *own,
            Measured::Join(own, _) => *own,
            Measured::Repeat(own, _, _) => *own,
        }
    }

    /// The expression's own length and signedness.
    pub fn own_type(&self) -> BitType
        ensures width { result.width ≡ (own_form (measured_tree self.now)).width }
        ensures signed { result.signed ≡ (own_form (measured_tree self.now)).signed }
    {
        self.own().of_type
    }

    /// Whether a signal is named in the expression.
    pub fn names_some_signal(&self) -> bool
        ensures { result ≡ (own_form (measured_tree self.now)).names_signal }
    {
        self.own().names_signal
    }
}

/// A number of the text, or a parameter's value.
pub fn value(bits: Bits) -> Measured
    ensures { measured_tree result ≡
        measured.value (record {
          width = width_of bits;
          signed = is_signed bits;
          names_signal = false;
        })
        (width_of bits) (value_of bits) }
{
    let own = Own {
        of_type: type_of(bits),
        names_signal: false,
    };
    Measured::Number(own, bits)
}

/// A whole signal.
pub fn whole_signal(known: KnownSignal, place: Place) -> Measured
    ensures { measured_tree result ≡
        measured.read (record { width = known.width; signed = known.signed; names_signal = true })
        known.signal.0 place }
{
    let of_type = BitType {
        width: known.width,
        signed: known.signed,
    };
    let own = Own {
        of_type,
        names_signal: true,
    };
    Measured::Signal(own, known.signal, place)
}
