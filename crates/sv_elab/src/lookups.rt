// What the names of an instance stand for.
ghost use Rattle.std.specs.Prelude.{◌≡◌, ◌≤◌, None, MatchOption};
ghost use Rattle.sv_ast.specs.Instances.{whole_signal};
ghost use Rattle.sv_ast.specs.Scopes.{width_of};
ghost use Rattle.sv_ast.specs.Views.{expression_tree};
ghost use Rattle.sv_width.specs.Scopes.{bindings_of, number_in};
ghost use Rattle.sv_elab.specs.Instances.{IsWholeSignal};

use sv_ast::Expr;
use sv_flat::SigId;
use sv_num::Name;
use sv_width::{KnownSignal, Meaning, Scope};

/// The length of what a name stands for, 0 where it stands for nothing.
pub fn width_of(scope: &Scope, name: &Name) -> u8
    ensures width { result ≡ width_of (bindings_of scope.now name.now) }
    ensures few { result ≤ 64 }
{
    match scope.find(name) {
        Some(Meaning::Param(bits)) => bits.width(),
        Some(Meaning::Signal(known)) => known.width,
        None => 0,
    }
}

/// The number of the signal that a name stands for, 0 where it stands for none.
pub fn number_of(scope: &Scope, name: &Name) -> SigId
    ensures { result.0 ≡ number_in scope.now name.now }
{
    match scope.find(name) {
        Some(Meaning::Signal(known)) => known.signal,
        _ => SigId(0),
    }
}

/// The signal that an expression names as a whole.
pub fn whole_signal(scope: &Scope, expr: &Expr) -> Option<KnownSignal>
    ensures { MatchOption result
        (whole_signal (bindings_of scope.now) (expression_tree expr.now) ≡ None)
        (IsWholeSignal scope.now (expression_tree expr.now)) }
{
    let Expr::Name(name, _) = expr else {
        return None;
    };
    match scope.find(name) {
        Some(Meaning::Signal(known)) => Some(known),
        _ => None,
    }
}
