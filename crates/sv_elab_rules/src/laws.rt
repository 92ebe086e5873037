// What follows from the definitions of the walk, as contracts of functions that do nothing.
ghost use Rattle.std.specs.Prelude.{ℕ, List, All};
ghost use Rattle.sv_lattice.specs.Flows.{IsKnown};
ghost use Rattle.sv_lattice.specs.Tables.{IsTableOf};
ghost use Rattle.sv_elab_rules.specs.Lattices.{table_of};

/// The table that the walk makes of a lattice's pairs says of any two points exactly whether
/// declared pairs lead from the one to the other.
pub fn tables_of_lattices_are_exact()
    ensures { (count : ℕ) (pairs : List (ℕ × ℕ)) → All (IsKnown count) pairs →
        IsTableOf count pairs (table_of count pairs) }
{}
