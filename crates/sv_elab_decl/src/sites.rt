// What an instance is, and what it declares.
ghost use Rattle.std.specs.Prelude.{◌≡◌};
ghost use Rattle.std.specs.Option.{option_or};

use indexmap::{IndexMap, IndexSet};
use sv_ast::Module;
use sv_flat::Signal;
use sv_lattice::{LabelMap, Point};
use sv_num::{Bits, Name, Refusal};
use sv_width::Scope;

/// What all instances of a text share: its modules, the names of its points by number, the least
/// point, and its label maps by name.
#[derive(Clone, Copy)]
pub struct TextTables<'a> {
    pub modules: &'a [Module],
    pub points: &'a IndexSet<Name>,
    pub least: Point,
    pub maps: &'a IndexMap<Name, LabelMap>,
}

/// An instance: the names of the instances down to it, none for the top, its module, the values
/// that it sets parameters to, and how many signals stand before its own.
#[derive(Clone, Copy)]
pub struct Site<'a> {
    pub path: &'a [Name],
    pub master: &'a Module,
    pub set: &'a IndexMap<Name, Bits>,
    pub base: usize,
}

/// What an instance has declared so far: what its names stand for, and its signals in order, without
/// those above the limit of signals.
#[derive(Drop)]
pub struct Declared {
    pub scope: Scope,
    pub signals: Vec<Signal>,
}

/// What the header of an instance's module declares, up to the first declaration that breaks another
/// rule than 315, and the refusal of the first that breaks a rule, 315 among them.
#[derive(Drop)]
pub struct Header {
    pub declared: Declared,
    pub broken: Option<Refusal>,
}

impl Header {
    /// Keeps a refusal, unless there is an earlier one.
    pub(crate) fn keep(&mut self, refusal: Option<Refusal>)
        ensures declared { self.new.declared ≡ self.old.declared }
        ensures broken { self.new.broken ≡ option_or self.old.broken refusal }
    {
        if self.broken.is_none() {
            self.broken = refusal;
        }
    }
}
