// The names of signals.
ghost use Rattle.std.specs.Prelude.{◌≡◌, ◌<◌, length};
ghost use Rattle.sv_flat.specs.ByNumber.{signal_forms};
ghost use Rattle.sv_obl.specs.SignalNames.{name_of};

use sv_flat::{SigId, Signal};

/// The name of a signal.
pub fn name_at(signals: &[Signal], signal: SigId) -> &[u8]
    requires { signal.0 < length signals.now }
    ensures { result.now ≡ name_of (signal_forms signals.now) signal.0 }
{
    signals[signal.0 as usize].name.bytes()
}
