// The names on a path where several names are wanted at once.
ghost use Rattle.std.specs.Prelude.{◌≡◌, ℕ, ◌==◌, [], map, IfOk, OnOk};
ghost use Rattle.std.specs.BTreeSet.{contains};
ghost use Rattle.std.specs.List.{list_any};
ghost use Rattle.std.specs.Ordering.{nat_cmp};
ghost use Rattle.sv_flat.specs.ByNumber.{signal_forms};
ghost use Rattle.sv_flat.specs.Views.{typed_tree, piece_form};
ghost use Rattle.sv_obl.specs.Routes.{names_in};
ghost use Rattle.sv_obl.specs.Views.{piece_forms};
ghost use Rattle.sv_paths.specs.Trails.{no_names, times_wanted, with_wanted, with_name, with_each};
ghost use Rattle.sv_paths.specs.Trails.{with_put_names, without_piece, without_covered};
ghost use Rattle.sv_paths.specs.Trails.{times_put, with_own};
ghost use Rattle.sv_paths.specs.TrailViews.{names_form};

use crate::nodes::sum;
use crate::pieces::is_whole;
use std::alloc::{AllocError, Global};
use std::collections::{BTreeMap, BTreeSet};
use sv_flat::{FExpr, Piece, Signal};
use sv_obl::names_of;

/// The names on a path: the numbers of the signals that are named and not wanted, and how often
/// each signal is wanted, up to one over the limit on nodes.
#[derive(Debug, Drop)]
pub struct PathNames {
    pub settled: BTreeSet<u32>,
    pub wanted: BTreeMap<u32, u32>,
}

impl PathNames {
    /// No names.
    pub fn new(alloc: Global) -> PathNames
        ensures { names_form result ≡ no_names }
    {
        PathNames {
            settled: BTreeSet::new(alloc),
            wanted: BTreeMap::new(alloc),
        }
    }

    /// Second names that are equal. It fails where memory runs out.
    pub fn copy(&self) -> Result<PathNames, AllocError>
        ensures { IfOk result (λ copy. names_form copy ≡ names_form self.now) }
    {
        Ok(PathNames {
            settled: self.settled.clone()?,
            wanted: self.wanted.clone()?,
        })
    }

    /// How often a signal is wanted.
    pub fn times(&self, signal: u32) -> u32
        ensures { result ≡ times_wanted (names_form self.now) signal }
    {
        match self.wanted.get(&signal) {
            Some(times) => *times,
            None => 0,
        }
    }

    /// Whether a signal is wanted.
    pub fn is_wanted(&self, signal: u32) -> bool
        ensures { result ≡ list_any (λ t. signal == t)
            (map (λ (e : ℕ × ℕ). e.0) self.now.wanted.entries) }
    {
        self.wanted.contains_key(&signal)
    }

    // Whether one of the signals is wanted: each wanted one is looked up.
    fn has_wanted_in(&self, signals: &BTreeSet<u32>) -> bool
        ensures { result ≡ list_any (contains nat_cmp signals.now)
            (map (λ (e : ℕ × ℕ). e.0) self.now.wanted.entries) }
    {
        self.wanted.keys().any(|signal| signals.contains(signal))
    }

    // The same, where each of them is looked up.
    fn has_some_of(&self, signals: &BTreeSet<u32>) -> bool
        ensures { result ≡ list_any (contains nat_cmp signals.now)
            (map (λ (e : ℕ × ℕ). e.0) self.now.wanted.entries) }
    {
        signals
            .iter()
            .any(|signal| self.wanted.contains_key(signal))
    }

    /// Whether one of the signals is wanted. The fewer are looked up among the others.
    pub fn wants_some(&self, signals: &BTreeSet<u32>) -> bool
        ensures { result ≡ list_any (contains nat_cmp signals.now)
            (map (λ (e : ℕ × ℕ). e.0) self.now.wanted.entries) }
    {
        if self.wanted.len() < signals.len() {
            self.has_wanted_in(signals)
        } else {
            self.has_some_of(signals)
        }
    }

    /// Makes a signal wanted so many times more.
    pub fn want(&mut self, times: u32, signal: u32) -> Result<(), AllocError>
        ensures { OnOk result
            (names_form self.new ≡ with_wanted times (names_form self.old) signal) }
    {
        let all = sum(self.times(signal), times);
        self.wanted.insert(signal, all)?;
        Ok(())
    }

    /// Makes the signal of a result's own name wanted too, where it is such a name.
    pub fn want_own(&mut self, own: Option<u32>) -> Result<(), AllocError>
        ensures { OnOk result (names_form self.new ≡ with_own own (names_form self.old)) }
    {
        match own {
            Some(signal) => self.want(1, signal),
            None => Ok(()),
        }
    }

    // Adds a name of one of so many signals, or of the copy of one so many times.
    fn add(&mut self, count: u32, times: u32, name: u32) -> Result<(), AllocError>
        ensures { OnOk result
            (names_form self.new ≡ with_name count times (names_form self.old) name) }
    {
        if name < count {
            self.settled.insert(name)?;
            Ok(())
        } else {
            self.want(times, name - count)
        }
    }

    // Adds names, each so many times.
    fn add_each(&mut self, count: u32, times: u32, names: &[u32]) -> Result<(), AllocError>
        ensures { OnOk result
            (names_form self.new ≡ with_each count times (names_form self.old) names.now) }
    {
        for name in names {
            self.add(count, times, *name)?;
        }
        Ok(())
    }

    /// Adds the names in an expression, each so many times.
    pub fn add_all(
        &mut self,
        alloc: Global,
        count: u32,
        times: u32,
        expr: &FExpr,
    ) -> Result<(), AllocError>
        ensures { OnOk result (names_form self.new
            ≡ with_each count times (names_form self.old) (names_in [] (typed_tree expr.now))) }
    {
        let names = names_of(alloc, expr)?;
        self.add_each(count, times, &names)
    }

    /// Adds the names in a value that is put so many times, perhaps not once.
    pub fn add_put(
        &mut self,
        alloc: Global,
        count: u32,
        times: u32,
        value: &FExpr,
    ) -> Result<(), AllocError>
        ensures { OnOk result (names_form self.new ≡ with_put_names count times
            (names_form self.old) (names_in [] (typed_tree value.now))) }
    {
        if times == 0 {
            return Ok(());
        }
        self.add_all(alloc, count, times, value)
    }

    // Lets a wanted name go that a piece covers.
    fn drop_piece(&mut self, signals: &[Signal], piece: &Piece)
        ensures { names_form self.new ≡ without_piece (signal_forms signals.now)
            (names_form self.old) (piece_form piece.now) }
    {
        if is_whole(signals, piece) {
            self.wanted.remove(&piece.signal.0);
        }
    }

    /// Lets the wanted names go that pieces cover.
    pub fn drop_covered(&mut self, signals: &[Signal], pieces: &[Piece])
        ensures { names_form self.new ≡ without_covered (signal_forms signals.now)
            (names_form self.old) (piece_forms pieces.now) }
    {
        for piece in pieces {
            self.drop_piece(signals, piece);
        }
    }

    /// How many of the pieces are put for these names, up to one over the limit on nodes.
    pub fn times_put(&self, pieces: &[Piece]) -> u32
        ensures { result ≡ times_put (names_form self.now) (piece_forms pieces.now) }
    {
        let mut times = 0;
        for piece in pieces {
            times = sum(times, self.times(piece.signal.0));
        }
        times
    }
}
