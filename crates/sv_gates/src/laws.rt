// What gates and their clauses say, as contracts of functions that do nothing.
ghost use Rattle.std.specs.Prelude.{◌≡◌, ◌↔◌, ℕ, ◌<◌, ◌^◌, Bool, not, ◌||◌, ◌&&◌, IsTrue, ℤ};
ghost use Rattle.std.specs.Prelude.{List, All, if◌then◌else◌};
ghost use Rattle.std.specs.Bool.{beq, IsFalse};
ghost use Rattle.sv_clause.specs.Literals.{literal_true, clause_true, IsClause, SameLiterals};
ghost use Rattle.sv_clause.specs.Literals.{Satisfies};
ghost use Rattle.sv_gates.specs.Formulas.{Formula, meets, IsLiteral, IsClosed};
ghost use Rattle.sv_gates.specs.NormalForms.{ascending, clashes, with_clause};
ghost use Rattle.sv_gates.specs.Gates.{fresh_variable, and_gate, or_gate, xor_gate, mux_gate};
ghost use Rattle.sv_gates.specs.Gates.{with_unit, GateHas};
ghost use Rattle.sv_gates.specs.Extending.{Extends, ExtendsFreely};

/// The clauses of a gate hold exactly where its variable has the gate's value.
pub fn gates_have_their_values()
    ensures and { (a b : ℤ) (old : Formula) → IsLiteral old.variables a →
        IsLiteral old.variables b → GateHas old (and_gate a b old)
        (λ values. literal_true values a && literal_true values b) }
    ensures or { (a b : ℤ) (old : Formula) → IsLiteral old.variables a →
        IsLiteral old.variables b → GateHas old (or_gate a b old)
        (λ values. literal_true values a || literal_true values b) }
    ensures xor { (a b : ℤ) (old : Formula) → IsLiteral old.variables a →
        IsLiteral old.variables b → GateHas old (xor_gate a b old)
        (λ values. not (beq (literal_true values a) (literal_true values b))) }
    ensures mux { (c a b : ℤ) (old : Formula) → IsLiteral old.variables c →
        IsLiteral old.variables a → IsLiteral old.variables b → GateHas old (mux_gate c a b old)
        (λ values.
        if literal_true values c then literal_true values a else literal_true values b) }
{}

/// A gate fixes the variable that it adds and no other: values that meet the formula before it can
/// be carried on to it in exactly one way.
pub fn gates_extend()
    ensures and { (a b : ℤ) (old : Formula) → IsClosed old → IsLiteral old.variables a →
        IsLiteral old.variables b → Extends old (and_gate a b old).0 }
    ensures or { (a b : ℤ) (old : Formula) → IsClosed old → IsLiteral old.variables a →
        IsLiteral old.variables b → Extends old (or_gate a b old).0 }
    ensures xor { (a b : ℤ) (old : Formula) → IsClosed old → IsLiteral old.variables a →
        IsLiteral old.variables b → Extends old (xor_gate a b old).0 }
    ensures mux { (c a b : ℤ) (old : Formula) → IsClosed old → IsLiteral old.variables c →
        IsLiteral old.variables a → IsLiteral old.variables b →
        Extends old (mux_gate c a b old).0 }
{}

/// Gates put one after another fix all variables that they add.
pub fn extending_goes_on()
    ensures none { (old : Formula) → IsClosed old → Extends old old }
    ensures more { (first second third : Formula) → Extends first second →
        Extends second third → Extends first third }
{}

/// A fresh variable may have either value, whatever values the others have.
pub fn fresh_variables_are_free()
    ensures { (old : Formula) → IsClosed old → ExtendsFreely old (fresh_variable old).0 }
{}

/// Values meet a formula with a unit exactly where they meet the formula and make the literal
/// true.
pub fn units_are_true()
    ensures { (a : ℤ) (old : Formula) (values : ℕ → Bool) → IsLiteral old.variables a →
        IsTrue (meets values (with_unit a old).clauses)
        ↔ (IsTrue (meets values old.clauses) × IsTrue (literal_true values a)) }
{}

/// A clause says in normal form what it says as written; so does one with a variable in both
/// signs, which is left out.
pub fn normal_form_says_the_same()
    ensures means { (variables : ℕ) (raw : List ℤ) (clauses : List (List ℤ))
        (values : ℕ → Bool) → All (IsLiteral variables) raw →
        meets values (with_clause raw clauses) ≡ (meets values clauses && clause_true values raw) }
    ensures normal { (variables : ℕ) (raw : List ℤ) → variables < 2 ^ 31 →
        All (IsLiteral variables) raw → IsFalse (clashes raw) → IsClause (ascending raw) }
    ensures same { (raw : List ℤ) → SameLiterals (ascending raw) raw }
    ensures meets { (clauses : List (List ℤ)) (values : ℕ → Bool) →
        IsTrue (meets values clauses) ↔ Satisfies values clauses }
{}
