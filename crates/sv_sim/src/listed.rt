// Values of listed signals.
ghost use Rattle.std.specs.Prelude.{◌≡◌, ◌↔◌, ℕ, ◌<◌, ◌^◌, IsTrue, length, slice_index};
ghost use Rattle.sv_flat.specs.ByNumber.{signal_forms, by_number, FitSignals};
ghost use Rattle.sv_flat.specs.Values.{signal_width};
ghost use Rattle.sv_design.specs.Numbers.{numbers};
ghost use Rattle.sv_flat.specs.Given.{FitListed, with_given};

use sv_flat::{SigId, Signal};

/// Whether there is one value for each listed signal, and each has no more bits than its signal.
pub fn fits(values: &[u64], listed: &[SigId], signals: &[Signal]) -> bool
    requires { (k : ℕ) → k < length listed.now →
        slice_index (numbers listed.now) k < length signals.now }
    ensures { IsTrue result ↔
        FitListed (signal_forms signals.now) (numbers listed.now) values.now }
{
    values.len() == listed.len()
        && values
            .iter()
            .zip(listed)
            .all(|(value, signal)| fits_signal(*value, *signal, signals))
}

// Whether a value has no more bits than the signal.
fn fits_signal(value: u64, signal: SigId, signals: &[Signal]) -> bool
    requires { signal.0 < length signals.now }
    ensures { IsTrue result ↔ (value < 2 ^ signal_width (signal_forms signals.now) signal.0) }
{
    has_room(value, signals[signal.0 as usize].width)
}

/// Whether a value has no more bits than the width.
pub fn has_room(value: u64, width: u8) -> bool
    ensures { IsTrue result ↔ (value < 2 ^ width) }
{
    width >= 64 || value >> width == 0
}

/// Gives each listed signal its value.
pub fn put_listed(given: &[u64], listed: &[SigId], signals: &[Signal], values: &mut [u64])
    requires given { FitListed (signal_forms signals.now) (numbers listed.now) given.now }
    requires known { (k : ℕ) → k < length listed.now →
        slice_index (numbers listed.now) k < length signals.now }
    requires fit { FitSignals (signal_forms signals.now) values.old }
    ensures given { by_number values.new ≡
        with_given (numbers listed.now) given.now (by_number values.old) }
    ensures fit { FitSignals (signal_forms signals.now) values.new }
{
    for k in 0..listed.len() {
        let signal = listed[k].0 as usize;
        values[signal] = given[k];
    }
}
