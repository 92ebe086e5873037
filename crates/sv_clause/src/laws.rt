// What resolution and unit resolution show, as contracts of functions that do nothing.
ghost use Rattle.std.specs.Prelude.{◌≡◌, ℕ, ℤ, Bool, List, Contains, IsTrue};
ghost use Rattle.sv_clause.specs.Literals.{stands, clause_true, HaveNoSolution, IsClause};
ghost use Rattle.sv_clause.specs.Literals.{SameLiterals};
ghost use Rattle.sv_clause.specs.Resolution.{IsResolvent};
ghost use Rattle.sv_clause.specs.Logs.{Step, Refutes};
ghost use Rattle.sv_clause.specs.Units.{IsNew, IsUnitConflict};

/// Values that make two clauses true make their resolvent true.
pub fn resolvent_holds_where_both_do()
    ensures { (values : ℕ → Bool) (first second : List ℤ) (literal : ℤ) (resolvent : List ℤ) →
        IsResolvent first second literal resolvent → IsTrue (clause_true values first) →
        IsTrue (clause_true values second) → IsTrue (clause_true values resolvent) }
{}

/// Where a log refutes clauses, no values make them all true.
pub fn refuted_has_no_solution()
    ensures { (clauses : List (List ℤ)) (steps : List Step) → Refutes clauses steps →
        HaveNoSolution clauses }
{}

/// A clause that is new to others contains all literals of none of them.
pub fn new_contains_no_earlier()
    ensures { (clauses : List (List ℤ)) (clause earlier : List ℤ) → IsNew clauses clause →
        Contains clauses earlier →
        ((literal : ℤ) → IsTrue (stands literal earlier) → IsTrue (stands literal clause)) → ⊥ }
{}

/// Where clauses have a unit conflict, no values make them all true.
pub fn unit_conflict_has_no_solution()
    ensures { (clauses : List (List ℤ)) (literals : List ℤ) → IsUnitConflict clauses literals →
        HaveNoSolution clauses }
{}

/// A clause is known by its literals: each set of literals has one normal form.
pub fn same_literals_same_clause()
    ensures { (first second : List ℤ) → IsClause first → IsClause second →
        SameLiterals first second → first ≡ second }
{}
