// What the names of an instance stand for.
ghost use Rattle.std.specs.Prelude.{◌≡◌, ◌≤◌, [], None, OnOk, OnErr, IfOk, IfErr};
ghost use Rattle.std.specs.List.{list_any};
ghost use Rattle.std.specs.Str.{bytes_eq};
ghost use Rattle.indexmap.specs.IndexSet.{insert_key};
ghost use Rattle.sv_width.specs.Scopes.{meaning_of, with_meaning, IsWithSignal, IsTwice};
ghost use Rattle.sv_width.specs.declared.meanings.Meaning.TheVariants as meaning;

use crate::meanings::{KnownSignal, Meaning};
use indexmap::{IndexMap, IndexSet};
use std::alloc::Global;
use std::marker::Model;
use sv_flat::SigId;
use sv_num::{Bits, Fault, Name, OutOfMemory, Place, Rule};

/// What the names of one instance stand for, in the order of their declarations, with the names
/// that are announced: those that later declarations make signals.
#[derive(Drop)]
pub struct Scope {
    alloc: Global,
    meanings: IndexMap<Name, Meaning>,
    announced: IndexSet<Name>,
}

impl Model for Scope {
    ghost use Rattle.sv_width.specs.Scopes.{Known};

    ghost Value = { Known };

    ghost view = { λ s. record { meanings = s.meanings.entries; announced = s.announced.keys } };
}

impl Scope {
    /// A scope in which no name stands for anything.
    pub fn new(alloc: Global) -> Scope
        ensures { result ≡ record { meanings = []; announced = [] } }
    {
        Scope {
            alloc,
            meanings: IndexMap::new(alloc),
            announced: IndexSet::new(alloc),
        }
    }

    /// Adds a parameter with its value. Rule 312 refuses a name that stands for something already,
    /// at the place; the scope is then, and where memory runs out, as before.
    pub fn add_param(&mut self, name: Name, value: Bits, place: Place) -> Result<(), Fault>
        ensures added { OnOk result (self.new ≡ with_meaning self.old name (meaning.Param value)) }
        ensures new { OnOk result (meaning_of self.old name ≡ None) }
        ensures refusal { IfErr result (IsTwice self.old name place) }
        ensures unchanged { OnErr result (self.new ≡ self.old) }
    {
        self.add(name, Meaning::Param(value), place)
    }

    /// Adds a signal of 1 to 64 bits with its number and its signedness. Rule 312 refuses a name
    /// that stands for something already, at the place; the scope is then, and where memory runs
    /// out, as before.
    pub fn add_signal(
        &mut self,
        name: Name,
        place: Place,
        signal: SigId,
        width: u8,
        signed: bool,
    ) -> Result<(), Fault>
        requires some { 1 ≤ width }
        requires few { width ≤ 64 }
        ensures added { IfOk result (λ _. IsWithSignal self.old self.new name signal width signed) }
        ensures new { OnOk result (meaning_of self.old name ≡ None) }
        ensures refusal { IfErr result (IsTwice self.old name place) }
        ensures unchanged { OnErr result (self.new ≡ self.old) }
    {
        let meaning = Meaning::Signal(KnownSignal {
            signal,
            width,
            signed,
        });
        self.add(name, meaning, place)
    }

    /// Announces that a later declaration makes the name a signal.
    pub fn announce(&mut self, name: Name) -> Result<(), OutOfMemory>
        ensures meanings { self.new.meanings ≡ self.old.meanings }
        ensures announced { OnOk result (self.new.announced ≡
            insert_key bytes_eq self.old.announced name) }
        ensures unchanged { OnErr result (self.new ≡ self.old) }
    {
        self.announced.insert(name)?;
        Ok(())
    }

    /// What the name stands for; None where it stands for nothing yet.
    pub fn find(&self, name: &Name) -> Option<Meaning>
        ensures { result ≡ meaning_of self.now name.now }
    {
        self.meanings.get(name).copied()
    }

    /// Whether the name is announced as a signal.
    pub(crate) fn is_announced(&self, name: &Name) -> bool
        ensures { result ≡ list_any (bytes_eq name.now) self.now.announced }
    {
        self.announced.contains(name)
    }

    // Adds what a name means, if it means nothing yet.
    fn add(&mut self, name: Name, meaning: Meaning, place: Place) -> Result<(), Fault>
        ensures added { OnOk result (self.new ≡ with_meaning self.old name meaning) }
        ensures new { OnOk result (meaning_of self.old name ≡ None) }
        ensures refusal { IfErr result (IsTwice self.old name place) }
        ensures unchanged { OnErr result (self.new ≡ self.old) }
    {
        if self.meanings.contains_key(&name) {
            return Err(Fault::broken(Rule::Twice, place, vec![in self.alloc; name]?));
        }
        self.meanings.insert(name, meaning)?;
        Ok(())
    }
}
