// The encodings of a design's obligations, one after the other.
ghost use Rattle.std.specs.Prelude.{◌≡◌, ◌<◌, ◌≤◌, map, IfOk, OnOk, IsErrOf};
ghost use Rattle.sv_flat.specs.Views.{design_of};
ghost use Rattle.sv_gates.specs.Formulas.{most_variables};
ghost use Rattle.sv_obl.specs.DesignQueries.{IsQueryOf};
ghost use Rattle.sv_obl.specs.MarkedBodies.{AreBodiesOf};
ghost use Rattle.sv_obl.specs.Views.{obligation_of};
ghost use Rattle.sv_encoding.specs.BothWays.{IsWhole};
ghost use Rattle.sv_encoding.specs.Deciding.{Fits, IsTooLarge};
ghost use Rattle.sv_encoding.specs.Encoding.{encoding};
ghost use Rattle.sv_blast.specs.Coded.{place_form};
ghost use Rattle.sv_blast.specs.Coders.{IsCoder, encoding_in};

use crate::coded::{BitPlace, BlastFault};
use crate::encoding::encoded;
use crate::framed::Framed;
use crate::sizes_of_signals::signal_sizes;
use crate::without_clauses::check_size;
use std::alloc::{AllocError, Global};
use sv_clause::Clause;
use sv_design::Design;
use sv_obl::{Bodies, Query};

/// Encodes obligations of a design one after the other, over its bodies and the sizes of its
/// signals, and keeps the last encoding. Where the next obligation hangs on the same signals in
/// both cycles, only what comes behind their words is made anew, and of that only what comes behind
/// equal first facts and conditions.
#[derive(Drop)]
pub struct Coder<'a, 'b> {
    alloc: Global,
    bodies: &'a Bodies<'b>,
    sizes: Vec<u32>,
    made: Option<Framed>,
}

impl<'a, 'b> Coder<'a, 'b> {
    /// One that has encoded nothing yet, of the design whose bodies these are. An error says that
    /// memory ran out.
    pub fn new(
        alloc: Global,
        design: &Design,
        bodies: &'a Bodies<'b>,
    ) -> Result<Coder<'a, 'b>, AllocError>
        requires bodies { AreBodiesOf (design_of design.now) bodies.now }
        ensures { IfOk result (IsCoder (design_of design.now)) }
    {
        let sizes = signal_sizes(alloc, design, bodies)?;
        Ok(Coder {
            alloc,
            bodies,
            sizes,
            made: None,
        })
    }

    /// Tells of an obligation's encoding, without a clause of it, that it is small enough to be
    /// made. `TooLarge` says that it has more than 4,194,304 variables; `OutOfMemory` that memory
    /// ran out.
    pub fn check_size(&self, design: &Design, query: &Query) -> Result<(), BlastFault>
        requires coder { IsCoder (design_of design.now) self.now }
        requires query { IsQueryOf (design_of design.now) (obligation_of query.now) }
        ensures fits { OnOk result (Fits (design_of design.now) (obligation_of query.now)) }
        ensures large { IsErrOf result BlastFault.TooLarge →
            IsTooLarge (design_of design.now) (obligation_of query.now) }
    {
        check_size(self.alloc, design, &self.sizes, query)
    }

    /// Makes the encoding of an obligation of the coder's design, as `encode` does: `TooLarge` says
    /// that it has more than 4,194,304 variables, which is found before any of it is made, and
    /// `OutOfMemory` that memory ran out. After an error the coder holds no encoding.
    pub fn encode(&mut self, design: &Design, query: &Query) -> Result<(), BlastFault>
        requires coder { IsCoder (design_of design.now) self.old }
        requires query { IsQueryOf (design_of design.now) (obligation_of query.now) }
        ensures coder { IsCoder (design_of design.now) self.new }
        ensures coded { OnOk result (encoding_in self.new
            ≡ encoding (design_of design.now) (obligation_of query.now)) }
        ensures whole { OnOk result (IsWhole (design_of design.now) (obligation_of query.now)
            (encoding_in self.new)) }
        ensures few { OnOk result ((encoding_in self.new).variables ≤ most_variables) }
        ensures large { IsErrOf result BlastFault.TooLarge → most_variables
            < (encoding (design_of design.now) (obligation_of query.now)).variables }
    {
        let before = self.made.take();
        let made = encoded(self.alloc, design, self.bodies, &self.sizes, before, query)?;
        self.made = Some(made);
        Ok(())
    }

    /// How many variables the last encoding has; 0 where none was made.
    pub fn variables(&self) -> u32
        ensures { result ≡ (encoding_in self.now).variables }
    {
        match &self.made {
            Some(made) => made.gates.variables(),
            None => 0,
        }
    }

    /// Its clauses, in the order in which they are made.
    pub fn clauses(&self) -> &[Clause]
        ensures { result.now ≡ (encoding_in self.now).clauses }
    {
        match &self.made {
            Some(made) => made.gates.clauses(),
            None => &[],
        }
    }

    /// The places of its bits.
    pub fn bits(&self) -> &[BitPlace]
        ensures { map place_form result.now ≡ (encoding_in self.now).bits }
    {
        match &self.made {
            Some(made) => &made.bits,
            None => &[],
        }
    }
}
