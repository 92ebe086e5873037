// Paths as they are walked where several names are wanted at once.
ghost use Rattle.std.specs.Prelude.{◌≡◌, ◌<◌, ◌^◌, ◌==◌, length, if◌then◌else◌, Some, None, IfOk};
ghost use Rattle.std.specs.Prelude.{OnOk};
ghost use Rattle.std.specs.List.{list_any};
ghost use Rattle.std.specs.BTreeSet.{contains};
ghost use Rattle.std.specs.Ordering.{nat_cmp};
ghost use Rattle.sv_flat.specs.ByNumber.{signal_forms};
ghost use Rattle.sv_flat.specs.Views.{typed_tree};
ghost use Rattle.sv_flat.specs.Design.{PieceForm};
ghost use Rattle.sv_obl.specs.Views.{piece_forms};
ghost use Rattle.sv_paths.specs.Trails.{open_trail, chosen, marked_by, own_pieces, own_times};
ghost use Rattle.sv_paths.specs.Trails.{with_right_put, whole_from, own_name, with_value};
ghost use Rattle.sv_paths.specs.Trails.{with_parts, wanted_signals};
ghost use Rattle.sv_paths.specs.TrailViews.{trail_form};

use crate::faults::MOST_NODES;
use crate::list_lines::StepMark;
use crate::nodes::with_nodes;
use crate::path_names::PathNames;
use crate::pieces::{count_of, covers, is_whole};
use crate::walks::place_with;
use std::alloc::{AllocError, Global};
use std::collections::BTreeSet;
use sv_flat::{FExpr, FNode, Piece, SigId, Signal};
use sv_num::Place;

/// A path as far back as statements were taken. Of conditions and of the result it keeps what is
/// asked of them later, and no expression.
#[derive(Debug, Drop)]
pub struct Trail {
    /// Its conditions, the last in the text first.
    pub marks: Vec<StepMark>,
    /// The arm that was taken at each branch and choice, in the order in which they were met.
    pub choices: Vec<bool>,
    /// The names in its conditions and its result, but for a wanted name that the result is by
    /// itself.
    pub names: PathNames,
    /// The signal whose wanted name the result is by itself, if it is one.
    pub own: Option<u32>,
    /// The nodes of what was put, up to one over the limit.
    pub nodes: u32,
    /// The place of the target's name in the last assignment, and none before one is taken.
    pub place: Option<Place>,
}

// The signal whose wanted name an expression is by itself, where there are so many signals.
fn own_name(expr: &FExpr, count: u32) -> Option<u32>
    ensures { result ≡ own_name count (typed_tree expr.now) }
{
    match &expr.node {
        FNode::Signal(name, _) => {
            if name.0 < count {
                None
            } else {
                Some(name.0 - count)
            }
        }
        FNode::Held(_, value) => own_name(value, count),
        _ => None,
    }
}

// The same of a value from one of its bits on.
fn own_from(count: u32, from: u8, value: &FExpr) -> Option<u32>
    ensures { result ≡ (if from == 0 then own_name count (typed_tree value.now) else None) }
{
    if from == 0 {
        own_name(value, count)
    } else {
        None
    }
}

// From which bit of a value on the first piece takes it that is the whole signal.
fn whole_of(signal: SigId, signals: &[Signal], pieces: &[Piece]) -> Option<u8>
    ensures { result ≡ whole_from (signal_forms signals.now) (Some signal.0)
        (piece_forms pieces.now) }
{
    pieces
        .iter()
        .find(|piece| piece.signal == signal && is_whole(signals, piece))
        .map(|piece| piece.from)
}

impl Trail {
    /// The trail before a statement is taken.
    pub fn open(alloc: Global, target: SigId) -> Trail
        ensures { trail_form result ≡ open_trail target.0 }
    {
        Trail {
            marks: Vec::new(alloc),
            choices: Vec::new(alloc),
            names: PathNames::new(alloc),
            own: Some(target.0),
            nodes: 0,
            place: None,
        }
    }

    /// A second trail that is equal. It fails where memory runs out.
    pub fn copy(&self, alloc: Global) -> Result<Trail, AllocError>
        ensures { IfOk result (λ copy. trail_form copy ≡ trail_form self.now) }
    {
        Ok(Trail {
            own: self.own,
            nodes: self.nodes,
            place: self.place,
            marks: self.marks.as_slice().to_vec(alloc)?,
            choices: self.choices.as_slice().to_vec(alloc)?,
            names: self.names.copy()?,
        })
    }

    // Whether a signal is wanted.
    fn wants(&self, signal: u32) -> bool
        ensures { result ≡ list_any (λ t. signal == t) (wanted_signals (trail_form self.now)) }
    {
        match self.own {
            Some(own) => signal == own || self.names.is_wanted(signal),
            None => self.names.is_wanted(signal),
        }
    }

    /// Whether one of the signals is wanted.
    pub fn wants_some(&self, signals: &BTreeSet<u32>) -> bool
        ensures { result ≡ list_any (contains nat_cmp signals.now)
            (wanted_signals (trail_form self.now)) }
    {
        match self.own {
            Some(own) => signals.contains(&own) || self.names.wants_some(signals),
            None => self.names.wants_some(signals),
        }
    }

    /// Whether a signal of one of the pieces is wanted.
    pub fn wants_piece(&self, pieces: &[Piece]) -> bool
        ensures { result ≡ list_any (λ s. list_any (λ (piece : PieceForm). piece.signal == s)
            (piece_forms pieces.now)) (wanted_signals (trail_form self.now)) }
    {
        pieces.iter().any(|piece| self.wants(piece.signal.0))
    }

    /// Takes an arm.
    pub fn choose(&mut self, truth: bool) -> Result<(), AllocError>
        ensures { OnOk result (trail_form self.new ≡ chosen truth (trail_form self.old)) }
    {
        self.choices.push(truth)?;
        Ok(())
    }

    /// Adds a condition, where there are so many signals.
    pub fn add_mark(
        &mut self,
        alloc: Global,
        count: u32,
        mark: StepMark,
        cond: &FExpr,
    ) -> Result<(), AllocError>
        ensures { OnOk result (trail_form self.new
            ≡ marked_by count mark (typed_tree cond.now) (trail_form self.old)) }
    {
        self.marks.push(mark)?;
        self.names.add_all(alloc, count, 1, cond)
    }

    /// How many of the pieces are bits of the result's own name, up to one over the limit on nodes.
    pub fn own_pieces(&self, pieces: &[Piece]) -> u32
        ensures { result ≡ own_pieces self.now.own (piece_forms pieces.now) }
    {
        match self.own {
            Some(own) => count_of(SigId(own), pieces).min(MOST_NODES as usize + 1) as u32,
            None => 0,
        }
    }

    // How often a right side counts that is put for the result's own name.
    fn own_times(&self, signals: &[Signal], target: SigId, pieces: &[Piece]) -> u32
        requires { target.0 < length signals.now }
        ensures { result ≡ own_times (signal_forms signals.now) target.0 (piece_forms pieces.now)
            (trail_form self.now) }
    {
        if self.place.is_none() && covers(signals, target, pieces) {
            0
        } else {
            self.own_pieces(pieces)
        }
    }

    /// From which bit of a value on the first piece takes it that is the whole of the result's own
    /// name.
    pub fn whole_from(&self, signals: &[Signal], pieces: &[Piece]) -> Option<u8>
        ensures { result ≡ whole_from (signal_forms signals.now) self.now.own
            (piece_forms pieces.now) }
    {
        match self.own {
            Some(own) => whole_of(SigId(own), signals, pieces),
            None => None,
        }
    }

    /// Puts the pieces of a right side for all wanted names but the result's own.
    pub fn put_right(
        &mut self,
        alloc: Global,
        signals: &[Signal],
        target: SigId,
        pieces: &[Piece],
        right: &FExpr,
    ) -> Result<(), AllocError>
        requires known { target.0 < length signals.now }
        requires counted { length signals.now < 2 ^ 32 }
        ensures { OnOk result (trail_form self.new ≡ with_right_put (signal_forms signals.now)
            target.0 (piece_forms pieces.now) (typed_tree right.now) (trail_form self.old)) }
    {
        let times = self.names.times_put(pieces);
        let all = times as usize + self.own_times(signals, target, pieces) as usize;
        self.nodes = with_nodes(self.nodes, all, right);
        self.place = place_with(target, pieces, self.place);
        self.names.drop_covered(signals, pieces);
        self.names
            .add_put(alloc, signals.len() as u32, times, right)
    }

    /// Puts pieces for some bits of the result's own name, which is wanted still.
    pub fn put_parts(
        &mut self,
        alloc: Global,
        count: u32,
        times: u32,
        right: &FExpr,
    ) -> Result<(), AllocError>
        ensures { OnOk result (trail_form self.new
            ≡ with_parts count times (typed_tree right.now) (trail_form self.old)) }
    {
        let own = self.own;
        self.names.want_own(own)?;
        self.own = None;
        self.names.add_put(alloc, count, times, right)
    }

    /// Puts a value, from one of its bits on, for the result's own name.
    pub fn put_value(
        &mut self,
        alloc: Global,
        count: u32,
        from: u8,
        value: &FExpr,
    ) -> Result<(), AllocError>
        ensures { OnOk result (trail_form self.new
            ≡ with_value count from (typed_tree value.now) (trail_form self.old)) }
    {
        self.own = own_from(count, from, value);
        if self.own.is_some() {
            return Ok(());
        }
        self.names.add_all(alloc, count, 1, value)
    }
}
