// The instances that one stands in.
ghost use Rattle.std.specs.Prelude.{◌≡◌, ℕ, false, [], ◌∷◌, List, OnOk, IfOk};
ghost use Rattle.std.specs.List.{list_any};
ghost use Rattle.std.specs.Str.{bytes_eq};
ghost use Rattle.sv_elab.specs.Nests.{InstanceNesting, entered};

use indexmap::IndexSet;
use std::alloc::Global;
use std::marker::Model;
use sv_num::{Name, OutOfMemory};

/// The instances from the top down to one: their names without the top's, and the names of the
/// modules of all of them.
#[derive(Drop)]
pub struct InstanceNest {
    path: Vec<Name>,
    around: IndexSet<Name>,
}

impl Model for InstanceNest {
    ghost use Rattle.std.specs.Prelude.{reverse};
    ghost use Rattle.sv_elab.specs.Nests.{InstanceNesting};

    ghost Value = { InstanceNesting };

    ghost view = { λ n. record { path = n.path.items; around = reverse n.around.keys } };
}

impl InstanceNest {
    /// The top, an instance of the module of this name.
    pub fn top(alloc: Global, master: &Name) -> Result<InstanceNest, OutOfMemory>
        ensures { IfOk result (λ nest. nest ≡ record { path = []; around = master.now ∷ [] }) }
    {
        let mut around = IndexSet::new(alloc);
        around.insert(master.copy(alloc)?)?;
        Ok(InstanceNest {
            path: Vec::new(alloc),
            around,
        })
    }

    /// The names of the instances below the top.
    pub fn path(&self) -> &[Name]
        ensures { result.now ≡ self.now.path }
    {
        self.path.as_slice()
    }

    /// Whether an instance of the module of this name is among them.
    pub fn is_around(&self, master: &Name) -> bool
        ensures { result ≡ list_any (bytes_eq master.now) self.now.around }
    {
        self.around.contains(master)
    }

    /// Goes into an instance of a module that is none of theirs.
    pub fn enter(&mut self, alloc: Global, name: &Name, master: &Name) -> Result<(), OutOfMemory>
        requires { list_any (bytes_eq master.now) self.old.around ≡ false }
        ensures { OnOk result (self.new ≡ entered self.old name.now master.now) }
    {
        self.path.push(name.copy(alloc)?)?;
        self.around.insert(master.copy(alloc)?)?;
        Ok(())
    }

    /// Goes out of the last instance.
    pub fn leave(&mut self)
        ensures { (outer : InstanceNesting) (name master : List ℕ)
            → self.old ≡ entered outer name master
            → self.new ≡ outer }
    {
        self.path.pop();
        self.around.truncate(self.around.len().saturating_sub(1));
    }
}
