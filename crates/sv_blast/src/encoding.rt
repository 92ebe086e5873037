// The encoding of an obligation, step by step.
ghost use Rattle.std.specs.Prelude.{◌≡◌, suc, ◌<◌, ◌≤◌, ◌∷◌, ◌++◌, true, false, IfOk, OnOk};
ghost use Rattle.std.specs.Prelude.{IfSome, IsTrue, IsErrOf, length, map, drop, min};
ghost use Rattle.sv_flat.specs.Views.{typed_tree};
ghost use Rattle.sv_flat.specs.Views.{design_of};
ghost use Rattle.sv_gates.specs.Formulas.{IsLiteral, most_variables};
ghost use Rattle.sv_gates.specs.Gates.{start};
ghost use Rattle.sv_obl.specs.DesignQueries.{IsQueryOf};
ghost use Rattle.sv_obl.specs.MarkedBodies.{AreBodiesOf};
ghost use Rattle.sv_obl.specs.Views.{obligation_of};
ghost use Rattle.sv_encoding.specs.BothWays.{IsWhole};
ghost use Rattle.sv_encoding.specs.Cones.{now_cone, next_cone, conditions_of};
ghost use Rattle.sv_encoding.specs.Encoding.{given_in, inputs_in, bit_places, encoding};
ghost use Rattle.sv_blast.specs.Coded.{place_form, encoding_of};
ghost use Rattle.sv_blast.specs.ConeSizes.{AreSizes};
ghost use Rattle.sv_blast.specs.Encoders.{design_in, obligation_in, IsEncoder};
ghost use Rattle.sv_blast.specs.Framed.{encoding_made, frames_size, IsFramed, HasFramesOf};
ghost use Rattle.sv_blast.specs.Framed.{IsBegun, trees_of};
ghost use Rattle.sv_blast.specs.Steps.{after_given, after_settled, after_inputs, after_next};
ghost use Rattle.sv_blast.specs.Steps.{after_conditions, after_violation};
ghost use Rattle.sv_blast.specs.WordTables.{words_of};

use crate::coded::{BitPlace, BlastFault, Coded};
use crate::cones::{given_in, inputs_in, next_cone, now_cone, registers_in, settled_in};
use crate::expressions::is_true;
use crate::fan_in::FanIn;
use crate::framed::{Framed, Truth, last_mark};
use crate::frames::{make_fresh, make_next, make_settled};
use crate::goals::{Unrolled, target_label, violation};
use crate::labels::signal_labels;
use crate::places::add_places;
use crate::sizes::{frames_size, size_with};
use crate::sizes_of_signals::signal_sizes;
use crate::tables::WordTable;
use crate::truths::{add, asked, literals, same_truths};
use crate::units::add_units;
use std::alloc::{AllocError, Global};
use sv_design::Design;
use sv_flat::{FExpr, SigId};
use sv_gates::{GateFault, Gates, Literal, MOST_VARIABLES};
use sv_obl::{Bodies, Query, know_design};

// The most clauses of a gate.
const CLAUSES_OF_GATE: usize = 4;

// What makes the encoding of an obligation of a design: the design's bodies, the sizes of its
// signals, and the signals on whose values in this cycle and in the next one the obligation hangs.
#[derive(Drop)]
struct Encoder<'a, 'b, 'c, 'd> {
    alloc: Global,
    design: &'a Design,
    bodies: &'b Bodies<'d>,
    sizes: &'b [u32],
    query: &'c Query,
    now_cone: Vec<SigId>,
    next_cone: Vec<SigId>,
}

impl<'a, 'b, 'c, 'd> Encoder<'a, 'b, 'c, 'd> {
    // That of an obligation. An error says that memory ran out.
    fn new(
        alloc: Global,
        design: &'a Design,
        bodies: &'b Bodies<'d>,
        sizes: &'b [u32],
        query: &'c Query,
    ) -> Result<Encoder<'a, 'b, 'c, 'd>, AllocError>
        requires query { IsQueryOf (design_of design.now) (obligation_of query.now) }
        requires bodies { AreBodiesOf (design_of design.now) bodies.now }
        requires sizes { AreSizes (design_of design.now) sizes.now }
        ensures encoder { IfOk result IsEncoder }
        ensures design { IfOk result (λ encoder. design_in encoder ≡ design_of design.now) }
        ensures query { IfOk result (λ encoder. obligation_in encoder ≡ obligation_of query.now) }
    {
        let next_cone = next_cone(alloc, design, query)?;
        let now_cone = now_cone(alloc, design, query, &next_cone)?;
        Ok(Encoder {
            alloc,
            design,
            bodies,
            sizes,
            query,
            now_cone,
            next_cone,
        })
    }

    // Steps 1 and 2: the words of this cycle's signals.
    fn words_now(&self, gates: &mut Gates, bits: &mut Vec<BitPlace>) -> Result<WordTable, GateFault>
        requires encoder { IsEncoder self.now }
        requires begin { gates.old ≡ start }
        ensures made { IfOk result (λ words.
            after_settled (design_in self.now) (obligation_in self.now)
            ≡ (gates.new, words_of words)) }
        ensures bits { OnOk result (map place_form bits.new.items
            ≡ map place_form bits.old.items
            ++ bit_places false (after_given (design_in self.now) (obligation_in self.now)).1
            (given_in (design_in self.now)
            (now_cone (design_in self.now) (obligation_in self.now)))) }
        ensures full { IsErrOf result GateFault.Full → most_variables
            < ((after_settled (design_in self.now) (obligation_in self.now)).0).variables }
    {
        know_design(self.design);
        let mut words = WordTable::new(self.alloc);
        let given = given_in(self.alloc, self.design, &self.now_cone)?;
        make_fresh(self.alloc, gates, self.design, &given, &mut words)?;
        add_places(bits, false, &words, &given)?;
        let settled = settled_in(self.alloc, self.design, &self.now_cone)?;
        make_settled(
            self.alloc,
            gates,
            self.design,
            self.bodies,
            &settled,
            &mut words,
        )?;
        Ok(words)
    }

    // Steps 3 to 5: the words of the next cycle's signals.
    fn words_next(
        &self,
        gates: &mut Gates,
        now: &WordTable,
        bits: &mut Vec<BitPlace>,
    ) -> Result<WordTable, GateFault>
        requires encoder { IsEncoder self.now }
        requires now { after_settled (design_in self.now) (obligation_in self.now)
            ≡ (gates.old, words_of now.now) }
        ensures made { IfOk result (λ words.
            after_next (design_in self.now) (obligation_in self.now)
            ≡ (gates.new, words_of words)) }
        ensures bits { OnOk result (map place_form bits.new.items
            ≡ map place_form bits.old.items
            ++ bit_places true (after_inputs (design_in self.now) (obligation_in self.now)).1
            (inputs_in (design_in self.now)
            (next_cone (design_in self.now) (obligation_in self.now)))) }
        ensures full { IsErrOf result GateFault.Full → most_variables
            < ((after_next (design_in self.now) (obligation_in self.now)).0).variables }
    {
        know_design(self.design);
        let mut words = WordTable::new(self.alloc);
        let inputs = inputs_in(self.alloc, self.design, &self.next_cone)?;
        make_fresh(self.alloc, gates, self.design, &inputs, &mut words)?;
        add_places(bits, true, &words, &inputs)?;
        let registers = registers_in(self.alloc, self.design, &self.next_cone)?;
        let fan_in = FanIn {
            design: self.design,
            bodies: self.bodies,
            words: now,
        };
        make_next(self.alloc, gates, &fan_in, &registers, &mut words)?;
        let settled = settled_in(self.alloc, self.design, &self.next_cone)?;
        make_settled(
            self.alloc,
            gates,
            self.design,
            self.bodies,
            &settled,
            &mut words,
        )?;
        Ok(words)
    }

    // Behind the facts and conditions that are there, the next one.
    fn add_truth(&self, made: &mut Framed, expr: &FExpr) -> Result<(), GateFault>
        requires encoder { IsEncoder self.now }
        requires begun { IsBegun self.now made.old }
        requires next { drop (length made.old.truths.items) (conditions_of (obligation_in self.now))
            ≡ typed_tree expr.now ∷ drop (suc (length made.old.truths.items))
            (conditions_of (obligation_in self.now)) }
        ensures begun { OnOk result (IsBegun self.now made.new) }
        ensures more { OnOk result
            (length made.new.truths.items ≡ suc (length made.old.truths.items)) }
        ensures full { IsErrOf result GateFault.Full → most_variables
            < ((after_conditions (design_in self.now) (obligation_in self.now)).0).variables }
    {
        know_design(self.design);
        let signals = self.design.signals();
        let words = &made.now_words;
        let literal = is_true(self.alloc, &mut made.gates, signals, words, expr)?;
        let mark = made.gates.mark();
        let expr = expr.copy(self.alloc)?;
        let truth = Truth {
            expr,
            literal,
            mark,
        };
        add(&mut made.truths, truth)?;
        Ok(())
    }

    // Steps 6 and 7: the literals of the facts and conditions that are not there yet.
    fn make_truths(&self, made: &mut Framed) -> Result<(), GateFault>
        requires encoder { IsEncoder self.now }
        requires begun { IsBegun self.now made.old }
        ensures begun { OnOk result (IsBegun self.now made.new) }
        ensures all { OnOk result
            (trees_of made.new.truths.items ≡ conditions_of (obligation_in self.now)) }
        ensures full { IsErrOf result GateFault.Full → most_variables
            < ((after_conditions (design_in self.now) (obligation_in self.now)).0).variables }
    {
        'truths: while let Some(expr) = asked(self.query, made.truths.len()) {
            self.add_truth(made, expr)?;
        }
        Ok(())
    }

    // Steps 8 to 10: the labels and the violation.
    fn failing(
        &self,
        gates: &mut Gates,
        now: &WordTable,
        next: &WordTable,
    ) -> Result<Literal, GateFault>
        requires encoder { IsEncoder self.now }
        requires now { words_of now.now
            ≡ (after_settled (design_in self.now) (obligation_in self.now)).1 }
        requires next { words_of next.now
            ≡ (after_next (design_in self.now) (obligation_in self.now)).1 }
        requires gates { gates.old
            ≡ (after_conditions (design_in self.now) (obligation_in self.now)).0 }
        ensures within { IfOk result (IsLiteral gates.new.variables) }
        ensures made { IfOk result (λ fails.
            after_violation (design_in self.now) (obligation_in self.now) ≡ (gates.new, fails)) }
        ensures full { IsErrOf result GateFault.Full → most_variables
            < ((after_violation (design_in self.now) (obligation_in self.now)).0).variables }
    {
        know_design(self.design);
        let goal = &self.query.goal;
        let unrolled = Unrolled {
            design: self.design,
            now_words: now,
            next_words: next,
        };
        let target = target_label(self.alloc, gates, &unrolled, goal)?;
        let reads = signal_labels(self.alloc, gates, self.design, now, &self.query.reads)?;
        let fails = violation(self.alloc, gates, &unrolled, &target, &reads, goal)?;
        Ok(fails)
    }

    // Whether what was made before begins with the frames of this obligation's cones.
    fn has_frames(&self, made: &Framed) -> bool
        requires encoder { IsEncoder self.now }
        requires framed { IsFramed (design_in self.now) made.now }
        ensures { IsTrue result → HasFramesOf self.now made.now }
    {
        made.now_cone.as_slice() == self.now_cone.as_slice()
            && made.next_cone.as_slice() == self.next_cone.as_slice()
    }

    // What was made before, where it begins with this obligation's frames, without what came behind
    // them and the facts and conditions with which this obligation begins too.
    fn kept(&self, before: Option<Framed>) -> Option<Framed>
        requires encoder { IsEncoder self.now }
        requires framed { IfSome before (IsFramed (design_in self.now)) }
        ensures { IfSome result (IsBegun self.now) }
    {
        let mut made = before?;
        if !self.has_frames(&made) {
            return None;
        }
        let same = same_truths(self.query, &made.truths);
        made.truths.truncate(same);
        let mark = last_mark(&made);
        made.gates.back_to(&mark);
        Some(made)
    }

    // How many variables the frames have; one over the most where there are more.
    fn frames_size(&self, kept: &Option<Framed>) -> u32
        requires encoder { IsEncoder self.now }
        requires kept { IfSome kept.now (IsBegun self.now) }
        ensures { result ≡ min (frames_size (design_in self.now)
            (now_cone (design_in self.now) (obligation_in self.now))
            (next_cone (design_in self.now) (obligation_in self.now))) 4194305 }
    {
        know_design(self.design);
        match kept {
            Some(made) => made.size,
            None => frames_size(self.design, self.sizes, &self.now_cone, &self.next_cone),
        }
    }

    // Makes room at once for all clauses that come, up to an encoding of so many variables: those
    // of each gate, and a unit for each fact, each condition and the violation. Where less comes
    // than is there, as behind long frames that are kept, the list doubles if it has to grow: room
    // that is exact for each obligation could move what is kept each time.
    fn make_room(&self, gates: &mut Gates, variables: u32) -> Result<(), AllocError>
        ensures { gates.new ≡ gates.old }
    {
        let to_come = variables.saturating_sub(gates.variables()) as usize;
        let units = self.query.facts.len() + self.query.path.len() + 1;
        let clauses = units.saturating_add(CLAUSES_OF_GATE * to_come);
        if clauses < gates.clauses().len() {
            return Ok(());
        }
        gates.reserve(clauses)
    }

    // Steps 1 to 5: the frames alone, which have so many variables, with room for the clauses of an
    // encoding of `variables`.
    fn frames(&self, size: u32, variables: u32) -> Result<Framed, GateFault>
        requires encoder { IsEncoder self.now }
        requires size { size ≡ min (frames_size (design_in self.now)
            (now_cone (design_in self.now) (obligation_in self.now))
            (next_cone (design_in self.now) (obligation_in self.now))) 4194305 }
        ensures begun { IfOk result (IsBegun self.now) }
        ensures full { IsErrOf result GateFault.Full → most_variables
            < (encoding (design_in self.now) (obligation_in self.now)).variables }
    {
        know_design(self.design);
        let now_cone = self.now_cone.as_slice().to_vec(self.alloc)?;
        let next_cone = self.next_cone.as_slice().to_vec(self.alloc)?;
        let mut gates = Gates::new(self.alloc)?;
        self.make_room(&mut gates, variables)?;
        let mut bits = Vec::new(self.alloc);
        let now = self.words_now(&mut gates, &mut bits)?;
        let next = self.words_next(&mut gates, &now, &mut bits)?;
        let mark = gates.mark();
        let truths = Vec::new(self.alloc);
        Ok(Framed {
            now_cone,
            next_cone,
            now_words: now,
            next_words: next,
            bits,
            size,
            mark,
            truths,
            gates,
        })
    }

    // Steps 6 to 11, behind what is there of the facts and conditions: the unit clauses last.
    fn rest(&self, made: &mut Framed) -> Result<(), GateFault>
        requires encoder { IsEncoder self.now }
        requires begun { IsBegun self.now made.old }
        ensures framed { OnOk result (IsFramed (design_in self.now) made.new) }
        ensures coded { OnOk result (encoding_made made.new
            ≡ encoding (design_in self.now) (obligation_in self.now)) }
        ensures full { IsErrOf result GateFault.Full → most_variables
            < (encoding (design_in self.now) (obligation_in self.now)).variables }
    {
        know_design(self.design);
        self.make_truths(made)?;
        let fails = self.failing(&mut made.gates, &made.now_words, &made.next_words)?;
        let (facts, conditions) = made.truths.split_at(self.query.facts.len());
        let facts = literals(self.alloc, facts)?;
        let conditions = literals(self.alloc, conditions)?;
        add_units(
            &mut made.gates,
            &facts,
            &self.query.path,
            &conditions,
            fails,
        )?;
        Ok(())
    }

    // What was kept, with room for the clauses that come behind it.
    fn with_room(&self, mut kept: Framed, variables: u32) -> Result<Framed, AllocError>
        requires { IsBegun self.now kept }
        ensures { IfOk result (IsBegun self.now) }
    {
        self.make_room(&mut kept.gates, variables)?;
        Ok(kept)
    }

    // All steps, from the frames on that were kept, where some were, up to so many variables.
    fn whole(&self, kept: Option<Framed>, size: u32, variables: u32) -> Result<Framed, GateFault>
        requires encoder { IsEncoder self.now }
        requires kept { IfSome kept (IsBegun self.now) }
        requires size { size ≡ min (frames_size (design_in self.now)
            (now_cone (design_in self.now) (obligation_in self.now))
            (next_cone (design_in self.now) (obligation_in self.now))) 4194305 }
        ensures framed { IfOk result (IsFramed (design_in self.now)) }
        ensures coded { IfOk result (λ made. encoding_made made
            ≡ encoding (design_in self.now) (obligation_in self.now)) }
        ensures full { IsErrOf result GateFault.Full → most_variables
            < (encoding (design_in self.now) (obligation_in self.now)).variables }
    {
        let mut made = match kept {
            Some(made) => self.with_room(made, variables)?,
            None => self.frames(size, variables)?,
        };
        self.rest(&mut made)?;
        Ok(made)
    }
}

/// The encoding of an obligation of a design, over its bodies and the sizes of its signals. Of what
/// was made before, the frames are kept where they are the same, and the first facts and conditions
/// as far as they are.
/// `TooLarge` says that it has more than 4,194,304 variables, which is found before any of it is
/// made; `OutOfMemory` that memory ran out.
pub fn encoded(
    alloc: Global,
    design: &Design,
    bodies: &Bodies,
    sizes: &[u32],
    before: Option<Framed>,
    query: &Query,
) -> Result<Framed, BlastFault>
    requires query { IsQueryOf (design_of design.now) (obligation_of query.now) }
    requires bodies { AreBodiesOf (design_of design.now) bodies.now }
    requires sizes { AreSizes (design_of design.now) sizes.now }
    requires before { IfSome before (IsFramed (design_of design.now)) }
    ensures framed { IfOk result (IsFramed (design_of design.now)) }
    ensures coded { IfOk result (λ made. encoding_made made
        ≡ encoding (design_of design.now) (obligation_of query.now)) }
    ensures whole { IfOk result (λ made.
        IsWhole (design_of design.now) (obligation_of query.now) (encoding_made made)) }
    ensures few { IfOk result (λ made. made.gates.variables ≤ most_variables) }
    ensures large { IsErrOf result BlastFault.TooLarge → most_variables
        < (encoding (design_of design.now) (obligation_of query.now)).variables }
{
    know_design(design);
    let encoder = Encoder::new(alloc, design, bodies, sizes, query)?;
    let kept = encoder.kept(before);
    let size = encoder.frames_size(&kept);
    let variables = size_with(design, query, size);
    if variables > MOST_VARIABLES {
        return Err(BlastFault::TooLarge);
    }
    match encoder.whole(kept, size, variables) {
        Ok(made) => Ok(made),
        Err(GateFault::Full) => Err(BlastFault::TooLarge),
        Err(GateFault::OutOfMemory) => Err(BlastFault::OutOfMemory),
    }
}

/// The encoding of an obligation of a design. `TooLarge` says that it has more than 4,194,304
/// variables, which is found before any of it is made; `OutOfMemory` that memory ran out. Who
/// encodes many obligations of a design has a `Coder`.
pub fn encode(alloc: Global, design: &Design, query: &Query) -> Result<Coded, BlastFault>
    requires { IsQueryOf (design_of design.now) (obligation_of query.now) }
    ensures coded { IfOk result (λ coded. encoding_of coded
        ≡ encoding (design_of design.now) (obligation_of query.now)) }
    ensures whole { IfOk result (λ coded.
        IsWhole (design_of design.now) (obligation_of query.now) (encoding_of coded)) }
    ensures few { IfOk result (λ coded. coded.variables ≤ most_variables) }
    ensures large { IsErrOf result BlastFault.TooLarge → most_variables
        < (encoding (design_of design.now) (obligation_of query.now)).variables }
{
    let bodies = Bodies::new(alloc, design)?;
    let sizes = signal_sizes(alloc, design, &bodies)?;
    let made = encoded(alloc, design, &bodies, &sizes, None, query)?;
    let Framed { gates, bits, .. } = made;
    let (variables, clauses) = gates.finish();
    Ok(Coded {
        variables,
        clauses,
        bits,
    })
}
