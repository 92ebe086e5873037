// The lines of a trace.
ghost use Rattle.std.specs.Prelude.{◌≡◌, ℕ, ◌<◌, ◌++◌, map, flat_map, length, codes};
ghost use Rattle.std.specs.Prelude.{IfOk, OnOk};
ghost use Rattle.std.specs.Option.{ForSome};
ghost use Rattle.sv_system.specs.System.{Environment};
ghost use Rattle.sv_flat.specs.ByNumber.{by_number as values_by_number, FitSignals};
ghost use Rattle.sv_flat.specs.SignalLists.{system_signals};
ghost use Rattle.sv_flat.specs.Views.{design_of};
ghost use Rattle.sv_design.specs.Designs.{IsDesign};
ghost use Rattle.sv_flat.specs.Given.{FitListed, given};
ghost use Rattle.sv_trace.specs.Traces.{hexadecimal, pair_text, shown, text_of_signal};
ghost use Rattle.sv_trace.specs.Traces.{trace_line as line_of, is_shown as is_shown_in};

use std::alloc::{AllocError, Global};
use sv_design::Design;
use sv_flat::SigId;
use sv_lattice::{Point, label_at};
use sv_sim::put_listed;
use sv_texts::push_number;

/// The line of a cycle in the trace: its number, and each signal that is no clock with its value in
/// hexadecimal; with a level only the signals whose label flows to it in this cycle. The values are
/// those of all these signals, in order. It fails where memory runs out.
pub fn trace_line(
    alloc: Global,
    design: &Design,
    cycle: u64,
    values: &[u64],
    level: Option<Point>,
) -> Result<Vec<u8>, AllocError>
    requires fit { let flat = design_of design.now in
        FitListed flat.signals (system_signals flat) values.now }
    requires level { ForSome level (λ point. point.0 < length design.now.lattice) }
    ensures { IfOk result (λ line. (environment : Environment ℕ) →
        map environment (system_signals (design_of design.now)) ≡ values.now →
        line.items ≡ line_of (design_of design.now) cycle level environment) }
{
    let table = by_number(alloc, design, values)?;
    let mut line = Vec::new(alloc);
    push_number(&mut line, cycle)?;
    push_shown(&mut line, alloc, design, table.as_slice(), level)?;
    line.push(b'\n')?;
    Ok(line)
}

// One value for each signal, by the signals' numbers; 0 for a clock.
fn by_number(alloc: Global, design: &Design, values: &[u64]) -> Result<Vec<u64>, AllocError>
    requires { let flat = design_of design.now in
        FitListed flat.signals (system_signals flat) values.now }
    ensures fit { IfOk result (λ table. FitSignals (design_of design.now).signals table.items) }
    ensures given { IfOk result (λ table. (s : ℕ) → values_by_number table.items s ≡
        given (system_signals (design_of design.now)) values.now s) }
    ensures design { IfOk result (λ table. IsDesign (design_of design.now)) }
{
    let signals = design.signals();
    let mut table = vec![in alloc; 0; signals.len()]?;
    put_listed(values, design.seen(), signals, &mut table);
    Ok(table)
}

fn push_shown(
    line: &mut Vec<u8>,
    alloc: Global,
    design: &Design,
    table: &[u64],
    level: Option<Point>,
) -> Result<(), AllocError>
    requires fit { FitSignals (design_of design.now).signals table.now }
    requires level { ForSome level (λ point. point.0 < length design.now.lattice) }
    ensures { OnOk result (line.new.items ≡ line.old.items
        ++ flat_map (pair_text (design_of design.now))
        (shown (design_of design.now) level (values_by_number table.now))) }
{
    let seen = design.seen();
    'signals: for s in seen {
        push_signal(line, alloc, design, *s, table, level)?;
    }
    Ok(())
}

// A signal that is shown.
fn push_signal(
    line: &mut Vec<u8>,
    alloc: Global,
    design: &Design,
    s: SigId,
    table: &[u64],
    level: Option<Point>,
) -> Result<(), AllocError>
    requires known { s.0 < length design.now.signals.items }
    requires fit { FitSignals (design_of design.now).signals table.now }
    requires level { ForSome level (λ point. point.0 < length design.now.lattice) }
    ensures { OnOk result (line.new.items ≡ line.old.items
        ++ text_of_signal (design_of design.now) level (values_by_number table.now) s.0) }
{
    if !is_shown(design, s, table, level) {
        return Ok(());
    }
    let signals = design.signals();
    let name = signals[s.0 as usize].name.bytes();
    push_pair(line, alloc, name, table[s.0 as usize])
}

// Whether a signal is shown to the level, if there is one.
fn is_shown(design: &Design, s: SigId, table: &[u64], level: Option<Point>) -> bool
    requires known { s.0 < length design.now.signals.items }
    requires fit { FitSignals (design_of design.now).signals table.now }
    requires level { ForSome level (λ point. point.0 < length design.now.lattice) }
    ensures { result ≡ is_shown_in (design_of design.now) level (values_by_number table.now) s.0 }
{
    match level {
        None => true,
        Some(level) => {
            let signals = design.signals();
            let label = label_at(design.maps(), &signals[s.0 as usize].label, table);
            design.lattice().flows(label, level)
        }
    }
}

fn push_pair(line: &mut Vec<u8>, alloc: Global, name: &[u8], value: u64) -> Result<(), AllocError>
    ensures { OnOk result (line.new.items ≡ line.old.items
        ++ (codes " " ++ name.now ++ codes "=" ++ hexadecimal value)) }
{
    line.push(b' ')?;
    line.extend_from_slice(name)?;
    line.push(b'=')?;
    let digits = format!(in alloc; "{value:x}")?;
    line.extend_from_slice(digits.as_bytes())?;
    Ok(())
}
