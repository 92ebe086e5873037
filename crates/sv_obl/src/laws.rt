// What paths and valid obligations mean, as contracts of functions that do nothing.
ghost use Rattle.std.specs.Prelude.{◌≡◌, ℕ, if◌then◌else◌, IsTrue, IsFalse, List, [], ◌∷◌};
ghost use Rattle.std.specs.Prelude.{Contains};
ghost use Rattle.sv_flat.specs.Assigned.{assigns};
ghost use Rattle.sv_flat.specs.Clocks.{processes_of};
ghost use Rattle.sv_flat.specs.Design.{TypedTree, ProcessForm, FlatDesign};
ghost use Rattle.sv_flat.specs.FlatSystem.{flat_system};
ghost use Rattle.sv_flat.specs.Admission.{IsAdmitted};
ghost use Rattle.sv_flat.specs.Processes.{is_clocked, is_register, drivers};
ghost use Rattle.sv_flat.specs.Reads.{is_combinational, is_earlier, is_read_for, process_readings};
ghost use Rattle.sv_flat.specs.Soundness.{sound};
ghost use Rattle.sv_flat.specs.Readings.{Reading};
ghost use Rattle.sv_flat.specs.Values.{value};
ghost use Rattle.sv_obl.specs.MadeValues.{made, made_in};
ghost use Rattle.sv_obl.specs.Noninterference.{IsChecked, NoninterferentUnder};
ghost use Rattle.sv_obl.specs.Paths.{Path};
ghost use Rattle.sv_obl.specs.PathValues.{IsTaken};
ghost use Rattle.sv_obl.specs.Validity.{AllValid};
ghost use Rattle.sv_system.specs.System.{Environment, Fits, IsStill, Noninterferent};

/// In a settled environment exactly one path of a target is taken.
pub fn exactly_one_path_is_taken()
    ensures { (design : FlatDesign) → IsChecked design → (p : ProcessForm)
        → Contains (processes_of design) p
        → (target : ℕ) → IsTrue (assigns p.body target)
        → (environment : Environment ℕ) → Fits (flat_system design) environment
        → IsStill (flat_system design) environment
        → (path : Path) × IsTaken design.signals environment target p.kind p.body path }
{}

/// There a combinational signal has the value of the result of the path that is taken.
pub fn taken_path_gives_value()
    ensures { (design : FlatDesign) → IsChecked design → (p : ProcessForm)
        → Contains (processes_of design) p
        → IsFalse (is_clocked p.kind) → (target : ℕ) → IsTrue (assigns p.body target)
        → (environment : Environment ℕ) → Fits (flat_system design) environment
        → IsStill (flat_system design) environment
        → (path : Path) → IsTaken design.signals environment target p.kind p.body path
        → environment target ≡ value design.signals environment path.result }
{}

/// So a combinational signal's settled value is a function of the signals read for it: where two
/// settled environments agree on these, they agree on the signal.
pub fn settled_values_come_from_reads()
    ensures { (design : FlatDesign) → IsTrue (sound design) → IsAdmitted design
        → (e f : Environment ℕ) → (s : ℕ) → IsTrue (is_combinational design s)
        → Fits (flat_system design) e → Fits (flat_system design) f
        → IsStill (flat_system design) e → IsStill (flat_system design) f
        → ((t : ℕ) → IsTrue (is_read_for design s t) → e t ≡ f t) → e s ≡ f s }
{}

/// And a register's next value is that of the result of the path that is taken.
pub fn taken_path_gives_next_value()
    ensures { (design : FlatDesign) → IsChecked design → (p : ProcessForm)
        → Contains (processes_of design) p
        → IsTrue (is_clocked p.kind) → (target : ℕ) → IsTrue (assigns p.body target)
        → (environment : Environment ℕ) → Fits (flat_system design) environment
        → (path : Path) → IsTaken design.signals environment target p.kind p.body path
        → (flat_system design).next environment target ≡
        value design.signals environment path.result }
{}

/// Where all obligations of a design are valid with some facts in them, any two traces that look
/// alike to a level, and whose every environment meets the facts, have equal views for it at every
/// cycle.
pub fn valid_obligations_mean_noninterference()
    ensures { (facts : List TypedTree) → (design : FlatDesign) → IsChecked design
        → AllValid facts design
        → NoninterferentUnder facts design }
{}

/// Where all obligations of a design are valid, any two traces that look alike to a level have
/// equal views for it at every cycle.
pub fn valid_designs_are_noninterferent()
    ensures { (design : FlatDesign) → IsChecked design → AllValid [] design →
        Noninterferent (flat_system design) }
{}

/// In a settled environment a combinational signal has the value that its process makes of it,
/// settled names having their values of that environment, and wanted ones those that the statements
/// before them make.
pub fn settled_value_is_made()
    ensures { (design : FlatDesign) → IsTrue (sound design) → IsAdmitted design
        → (p : ProcessForm) → Contains (processes_of design) p → IsFalse (is_clocked p.kind)
        → (s : ℕ) → IsTrue (assigns p.body s)
        → (e : Environment ℕ) → Fits (flat_system design) e → IsStill (flat_system design) e
        → made_in design p s e ≡ e s }
{}

/// A register's value after the clock edge is what its process makes of the value before it.
pub fn next_value_is_made()
    ensures { (design : FlatDesign) → IsTrue (sound design) → IsAdmitted design
        → (p : ProcessForm) → Contains (processes_of design) p → IsTrue (is_clocked p.kind)
        → (s : ℕ) → IsTrue (assigns p.body s) → (e : Environment ℕ)
        → made design.signals e s p.body (e s) ≡ (flat_system design).next e s }
{}

/// What a process makes of a signal depends on the signals read for it alone, whether or not the
/// environments are settled.
pub fn made_values_come_from_reads()
    ensures { (design : FlatDesign) → IsTrue (sound design) → IsAdmitted design
        → (p : ProcessForm) → Contains (processes_of design) p
        → (s : ℕ) → IsTrue (assigns p.body s) → (e f : Environment ℕ)
        → ((t : ℕ) → IsTrue (is_read_for design s t) → e t ≡ f t)
        → made_in design p s e ≡ made_in design p s f }
{}

/// Where a process has no earlier read, it is what the process makes of the signal by itself, every
/// name having its settled value.
pub fn wanted_names_make_the_same()
    ensures { (design : FlatDesign) → IsTrue (sound design) → IsAdmitted design
        → (p : ProcessForm) → Contains (processes_of design) p
        → (s : ℕ) → IsTrue (assigns p.body s)
        → ((r : Reading) → Contains (process_readings design p) r
        → IsFalse (is_earlier design p r))
        → (e : Environment ℕ)
        → made_in design p s e
        ≡ made design.signals e s p.body (if is_clocked p.kind then e s else 0) }
{}

/// A combinational signal is driven by one process alone, which waits for no clock.
pub fn combinational_signals_have_one_driver()
    ensures { (design : FlatDesign) → IsTrue (sound design) → IsAdmitted design
        → (s : ℕ) → IsTrue (is_combinational design s)
        → (p : ProcessForm) × Contains (processes_of design) p × IsFalse (is_clocked p.kind)
        × IsTrue (assigns p.body s) × (drivers (processes_of design) s ≡ p ∷ []) }
{}

/// A register is driven by one process alone, which is clocked.
pub fn registers_have_one_driver()
    ensures { (design : FlatDesign) → IsTrue (sound design) → IsAdmitted design
        → (s : ℕ) → IsTrue (is_register design s)
        → (p : ProcessForm) × Contains (processes_of design) p × IsTrue (is_clocked p.kind)
        × IsTrue (assigns p.body s) × (drivers (processes_of design) s ≡ p ∷ []) }
{}
