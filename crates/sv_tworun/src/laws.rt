// What follows of comparisons, as contracts of functions that do nothing.
ghost use Rattle.std.specs.Prelude.{◌≡◌, ℕ, List};
ghost use Rattle.sv_lattice.specs.declared.points.Point.{Point};
ghost use Rattle.sv_system.specs.System.{System, Environment, IsTrace, Noninterferent};
ghost use Rattle.sv_tworun.specs.declared.compared.Compared.{Compared};
ghost use Rattle.sv_tworun.specs.Comparisons.{IsFound, FindsNoLeak};
ghost use Rattle.sv_tworun.specs.Forms.{Finding, finding};

/// The comparison of two traces finds one thing: what it finds is told by the traces alone.
pub fn comparisons_find_one_thing()
    ensures { (system : System ℕ Point) → (level : Point)
        → (first second : List (Environment ℕ)) → (one other : Compared)
        → IsFound system level first second (finding one)
        → IsFound system level first second (finding other)
        → one ≡ other }
{}

/// The same of any system, whatever its signals are named by.
pub fn findings_are_one<Signal, Level>()
    ensures { (system : System Signal Level) → (level : Level)
        → (first second : List (Environment Signal)) → (one other : Finding Signal)
        → IsFound system level first second one → IsFound system level first second other
        → one ≡ other }
{}

/// Of a noninterferent system, whatever made it so, no comparison of two traces finds that what is
/// given looks alike and the views do not.
pub fn noninterferent_systems_show_no_leak<Signal, Level>()
    ensures { (system : System Signal Level) → Noninterferent system → (level : Level)
        → (start1 start2 : Environment Signal)
        → (inputs1 inputs2 first second : List (Environment Signal))
        → IsTrace system start1 inputs1 first → IsTrace system start2 inputs2 second
        → (found : Finding Signal) → IsFound system level first second found
        → FindsNoLeak found }
{}
