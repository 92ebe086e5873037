// Readers of stimuli.
ghost use Rattle.std.specs.Prelude.{◌≡◌, ℕ, ◌+◌, ◌^◌, ◌<◌, List, [], ◌∷◌, ◌++◌, false, length};
ghost use Rattle.std.specs.Prelude.{None, IsTrue, IsFalse, IsSome, IsNone, IfOk, IfSome, is_ok};
ghost use Rattle.std.specs.Prelude.{if◌then◌else◌, Some};
ghost use Rattle.std.specs.Option.{option_copied};
ghost use Rattle.sv_flat.specs.Design.{FlatDesign};
ghost use Rattle.sv_flat.specs.SignalLists.{registers, inputs};
ghost use Rattle.sv_flat.specs.Views.{design_of};
ghost use Rattle.sv_flat.specs.Given.{FitListed};
ghost use Rattle.sv_trace.specs.Forms.{form_of};
ghost use Rattle.sv_trace.specs.Reading.{HasFed, HasRead, HaveReadFront, answer_of, UnlessFull};
ghost use Rattle.sv_trace.specs.Reading.{IfFull, KeepsCycles};
ghost use Rattle.sv_trace.specs.Stimulus.{is_start, read_front, read_whole, LinesRead};

use crate::faults::StimFault;
use crate::forms::StimulusForm;
use crate::pieces::{read_end, read_piece};
use crate::state::ReaderState;
use std::alloc::{AllocError, Global};
use std::collections::VecDeque;
use std::marker::Model;
use sv_design::Design;

/// A reader of a stimulus in pieces. It keeps the rest of the current line and the cycles that were
/// not taken, and nothing older.
#[derive(Drop)]
pub struct StimReader {
    alloc: Global,
    form: StimulusForm,
    state: ReaderState,
    kept: Vec<u8>,
    fault: Option<StimFault>,
    is_finished: bool,
}

impl Model for StimReader {
    ghost use Rattle.sv_trace.specs.Reading.{Reading, IsReading, said_of};

    ghost Value = { Reading };

    ghost view = { λ r. record {
      form = r.form;
      said = said_of r.state;
      rest = r.kept.items;
      fault = r.fault;
      finished = r.is_finished;
    } };

    ghost invariant = { λ r. IsReading (record {
      form = r.form;
      said = said_of r.state;
      rest = r.kept.items;
      fault = r.fault;
      finished = r.is_finished;
    }) };
}

impl StimReader {
    /// A reader of a stimulus of the design, which has read nothing. It fails where memory runs
    /// out.
    pub fn new(alloc: Global, design: &Design) -> Result<StimReader, AllocError>
        ensures form { IfOk result (λ reader. reader.form ≡ form_of (design_of design.now)) }
        ensures fed { IfOk result (HasFed [] []) }
        ensures open { IfOk result (λ reader. IsFalse reader.finished) }
        ensures line { IfOk result (λ reader. reader.said.line ≡ 1) }
        ensures rest { IfOk result (λ reader. reader.rest ≡ []) }
    {
        let form = StimulusForm::new(alloc, design)?;
        StimReader::with_form(alloc, form)
    }

    // A reader that looks for this form, and has read nothing.
    fn with_form(alloc: Global, form: StimulusForm) -> Result<StimReader, AllocError>
        requires { is_start form.header ≡ false }
        ensures form { IfOk result (λ reader. reader.form ≡ form) }
        ensures fed { IfOk result (HasFed [] []) }
        ensures open { IfOk result (λ reader. IsFalse reader.finished) }
        ensures line { IfOk result (λ reader. reader.said.line ≡ 1) }
        ensures rest { IfOk result (λ reader. reader.rest ≡ []) }
    {
        let count = form.registers.len();
        Ok(StimReader {
            alloc,
            form,
            state: ReaderState {
                begun: false,
                given: vec![in alloc; false; count]?,
                start: vec![in alloc; 0; count]?,
                cycles: VecDeque::new(alloc),
                line: 1,
            },
            kept: Vec::new(alloc),
            fault: None,
            is_finished: false,
        })
    }

    /// Reads the next piece of the text. A line is read in the piece that brings its line feed, and
    /// a line that is too long in the piece that brings its byte 1,048,577. After a fault every
    /// later answer is that fault, and the cycles of the lines before it can still be taken. Where
    /// memory runs out these are the cycles of some of the right lines, from the first one on, and
    /// no cycle that could be taken before is lost.
    pub fn feed(&mut self, piece: &[u8]) -> Result<(), StimFault>
        requires open { IsFalse self.old.finished }
        requires room { self.old.fault ≡ None →
            self.old.said.line + length self.old.rest + length piece.now < 2 ^ 64 }
        ensures answer { result ≡ answer_of self.new.fault }
        ensures read { UnlessFull result ((bytes : List ℕ) (taken : List (List ℕ)) →
            HasFed bytes taken self.old → HasFed (bytes ++ piece.now) taken self.new) }
        ensures full { IfFull result ((bytes : List ℕ) (taken : List (List ℕ)) →
            HasFed bytes taken self.old → HaveReadFront self.new.form
            (read_front self.new.form (bytes ++ piece.now)).right taken self.new.said) }
        ensures kept { KeepsCycles self.old.said self.new.said }
        ensures stays { IsSome self.old.fault → self.new ≡ self.old }
        ensures start { IsTrue self.old.said.begun →
            (self.new.said.start ≡ self.old.said.start) × IsTrue self.new.said.begun }
        ensures form { self.new.form ≡ self.old.form }
        ensures open { IsFalse self.new.finished }
    {
        if let Some(fault) = self.fault {
            return Err(fault);
        }
        let read = read_piece(
            self.alloc,
            &self.form,
            &mut self.state,
            &mut self.kept,
            piece,
        );
        self.fault = read.err();
        read
    }

    /// Reads the end of the text: a last line without a line feed if it is not empty, and whether
    /// the header is there. After a fault every later answer is that fault, and the cycles of the
    /// lines before it can still be taken. Where memory runs out these are the cycles of some of
    /// the right lines, from the first one on, and no cycle that could be taken before is lost.
    pub fn finish(&mut self) -> Result<(), StimFault>
        requires open { IsFalse self.old.finished }
        ensures answer { result ≡ answer_of self.new.fault }
        ensures read { UnlessFull result ((bytes : List ℕ) (taken : List (List ℕ)) →
            HasFed bytes taken self.old →
            HasRead (read_whole self.new.form bytes) taken self.new) }
        ensures full { IfFull result ((bytes : List ℕ) (taken : List (List ℕ)) →
            HasFed bytes taken self.old → HaveReadFront self.new.form
            (read_whole self.new.form bytes).right taken self.new.said) }
        ensures kept { KeepsCycles self.old.said self.new.said }
        ensures stays { IsSome self.old.fault → self.new ≡ self.old }
        ensures start { IsTrue self.old.said.begun →
            (self.new.said.start ≡ self.old.said.start) × IsTrue self.new.said.begun }
        ensures form { self.new.form ≡ self.old.form }
        ensures finished { self.new.finished ≡ is_ok result }
    {
        if let Some(fault) = self.fault {
            return Err(fault);
        }
        let read = read_end(
            self.alloc,
            &self.form,
            &mut self.state,
            self.kept.as_slice(),
        );
        self.kept.clear();
        self.is_finished = read.is_ok();
        self.fault = read.err();
        read
    }

    /// Whether the text has ended and is a stimulus.
    pub fn finished(&self) -> bool
        ensures { result ≡ self.now.finished }
    {
        self.is_finished
    }

    /// The registers' starting values, in order; None until the header was read.
    pub fn start(&self) -> Option<&[u64]>
        ensures start { option_copied result ≡
            (if self.now.said.begun then Some self.now.said.start else None) }
        ensures fits { (design : FlatDesign) → self.now.form ≡ form_of design →
            FitListed design.signals (registers design) self.now.said.start }
    {
        if !self.state.begun {
            return None;
        }
        Some(self.state.start.as_slice())
    }

    /// The inputs' values in the next cycle, in order; None where all cycles that were read have
    /// been taken.
    pub fn next_cycle(&mut self) -> Option<Vec<u64>>
        ensures none { IsNone result →
            (self.old.said.cycles ≡ []) × (self.new ≡ self.old) }
        ensures cycle { IfSome result (λ cycle.
            self.old.said.cycles ≡ cycle.items ∷ self.new.said.cycles) }
        ensures same { self.new ≡ record self.old {
          said = record self.old.said { cycles = self.new.said.cycles };
        } }
        ensures fed { IfSome result (λ cycle. (bytes : List ℕ) (taken : List (List ℕ)) →
            HasFed bytes taken self.old → HasFed bytes (taken ++ cycle.items ∷ []) self.new) }
        ensures read { IfSome result (λ cycle. (read : LinesRead) (taken : List (List ℕ)) →
            HasRead read taken self.old → HasRead read (taken ++ cycle.items ∷ []) self.new) }
        ensures fits { IfSome result (λ cycle. (design : FlatDesign) →
            self.old.form ≡ form_of design →
            FitListed design.signals (inputs design) cycle.items) }
    {
        self.state.cycles.pop_front()
    }

    /// The registers' starting values.
    pub(crate) fn into_start(self) -> Vec<u64>
        ensures start { result.items ≡ self.said.start }
        ensures fits { (design : FlatDesign) → self.form ≡ form_of design →
            FitListed design.signals (registers design) result.items }
    {
        let StimReader {
            alloc: _,
            form: _,
            state,
            kept: _,
            fault: _,
            is_finished: _,
        } = self;
        state.start
    }
}
