// The inputs of the top module that clocks lead up to.
ghost use Rattle.std.specs.Prelude.{◌≡◌, ◌<◌, ◌^◌, ◌==◌, ◌&&◌, ◌||◌, not, ℕ, Bool, length};
ghost use Rattle.std.specs.Prelude.{IsTrue, IfOk, MatchOption};
ghost use Rattle.sv_flat.specs.Clocks.{agrees_with_earlier};
ghost use Rattle.sv_flat.specs.Design.{FlatDesign};
ghost use Rattle.sv_flat.specs.Processes.{is_top_input};
ghost use Rattle.sv_flat.specs.Soundness.{sound};
ghost use Rattle.sv_flat.specs.Views.{design_of};
ghost use Rattle.sv_rules.specs.DriverTables.{AreClocks};
ghost use Rattle.sv_graph.specs.Graphs.{size, IsWhole};
ghost use Rattle.sv_graph.specs.Marks.{is_marked, IsTable};
ghost use Rattle.sv_graph.specs.Numbers.{number_if_any};
ghost use Rattle.sv_rules.specs.Tops.{AreOrigins, AreSinks, leads_to, is_led, is_one};
ghost use Rattle.sv_rules.specs.Tops.{IsLeadingTop, FindsFirstOfBoth, agrees_by};

use crate::clocks::is_top;
use crate::links::origins_of;
use std::alloc::{AllocError, Global};
use sv_flat::{Flat, SigId};
use sv_graph::{Graph, listed, reached};

// For each signal, whether it is an input of the top module.
fn top_table(alloc: Global, flat: &Flat) -> Result<Vec<bool>, AllocError>
    ensures { IfOk result (λ tops.
        IsTable (length flat.now.signals.items) tops.items (is_top_input (design_of flat.now))) }
{
    let mut tops = Vec::with_capacity(alloc, flat.signals.len())?;
    for signal in &flat.signals {
        tops.push(is_top(signal.kind))?;
    }
    Ok(tops)
}

// For each signal, whether it leads up to one that a table has.
fn led_table(alloc: Global, sinks: &Graph, tops: &[bool]) -> Result<Vec<bool>, AllocError>
    requires whole { IsWhole sinks.now }
    requires few { size sinks.now < 2 ^ 32 }
    requires over { length tops.now ≡ size sinks.now }
    ensures { IfOk result (λ led. (design : FlatDesign) (test : ℕ → Bool)
        → AreSinks design sinks.now
        → IsTable (length design.signals) tops.now test
        → IsTable (length design.signals) led.items (leads_to design test)) }
{
    let starts = listed(alloc, tops)?;
    reached(alloc, sinks, &starts)
}

// The first signal that two tables have.
fn first_of_both(first: &[bool], second: &[bool]) -> Option<SigId>
    requires over { length second.now ≡ length first.now }
    requires few { length first.now < 2 ^ 32 }
    ensures { FindsFirstOfBoth first.now second.now (number_if_any result) }
{
    let found = first
        .iter()
        .zip(second)
        .position(|(first, second)| *first & *second);
    match found {
        Some(place) => Some(SigId(place as u32)),
        None => None,
    }
}

// An input of the top module that a clock leads up to, the first clock that leads up to one.
fn leading_top(
    alloc: Global,
    origins: &Graph,
    clocks: &[bool],
    led: &[bool],
    tops: &[bool],
) -> Result<Option<SigId>, AllocError>
    requires whole { IsWhole origins.now }
    requires few { size origins.now < 2 ^ 32 }
    requires clocks { length clocks.now ≡ size origins.now }
    requires led { length led.now ≡ size origins.now }
    requires tops { length tops.now ≡ size origins.now }
    ensures { IfOk result (λ top. (design : FlatDesign) → AreOrigins design origins.now
        → AreClocks design clocks.now → IsTable (length design.signals) led.now (is_led design)
        → IsTable (length design.signals) tops.now (is_top_input design)
        → IsLeadingTop design (number_if_any top)) }
{
    match first_of_both(clocks, led) {
        Some(clock) => {
            let above = reached(alloc, origins, &[clock])?;
            let top = first_of_both(&above, tops);
            Ok(top)
        }
        None => Ok(None),
    }
}

// Takes a signal out of a table.
fn take_out(table: &mut [bool], signal: SigId)
    requires { signal.0 < length table.old }
    ensures { (s : ℕ) → is_marked table.new s ≡ (is_marked table.old s && not (signal.0 == s)) }
{
    table[signal.0 as usize] = false;
}

// Takes a signal out of a table, where there is one.
fn leave_out(table: &mut [bool], signal: Option<SigId>)
    requires { MatchOption signal Unit (λ s. s.0 < length table.old) }
    ensures { (s : ℕ) → is_marked table.new s ≡
        (is_marked table.old s && not (is_one (number_if_any signal) s)) }
{
    if let Some(signal) = signal {
        take_out(table, signal);
    }
}

// Whether a signal agrees with the clocks before it: of itself and of some clock before it, whether
// it leads up to an input of the top module, and whether to another one than the first clock.
fn agrees(is_led: bool, some_led: bool, is_astray: bool, some_astray: bool) -> bool
    ensures { result ≡ not (is_led && some_led && (is_astray || some_astray)) }
{
    !(is_led & some_led & (is_astray | some_astray))
}

// Whether some signal before was one of two tables, or this one is.
fn or_both(some: bool, first: bool, second: bool) -> bool
    ensures { result ≡ (some || (first && second)) }
{
    some | (first & second)
}

// For each signal, whether it agrees with the clocks before it.
fn agreement(
    alloc: Global,
    clocks: &[bool],
    led: &[bool],
    astray: &[bool],
) -> Result<Vec<bool>, AllocError>
    requires led { length led.now ≡ length clocks.now }
    requires astray { length astray.now ≡ length clocks.now }
    ensures { IfOk result (λ agree.
        IsTable (length clocks.now) agree.items (agrees_by clocks.now led.now astray.now)) }
{
    let mut agree = Vec::with_capacity(alloc, clocks.len())?;
    let mut some_led = false;
    let mut some_astray = false;
    for s in 0..clocks.len() {
        agree.push(agrees(led[s], some_led, astray[s], some_astray))?;
        some_led = or_both(some_led, clocks[s], led[s]);
        some_astray = or_both(some_astray, clocks[s], astray[s]);
    }
    Ok(agree)
}

/// For each signal, whether no clock before it leads up to another input of the top module than it
/// does. It fails where memory runs out.
pub fn agreeing(alloc: Global, flat: &Flat, clocks: &[bool]) -> Result<Vec<bool>, AllocError>
    requires sound { IsTrue (sound (design_of flat.now)) }
    requires clocks { AreClocks (design_of flat.now) clocks.now }
    ensures { IfOk result (λ agree.
        IsTable (length flat.now.signals.items) agree.items
        (agrees_with_earlier (design_of flat.now))) }
{
    let origins = origins_of(alloc, flat)?;
    let sinks = origins.turned(alloc)?;
    let mut tops = top_table(alloc, flat)?;
    let led = led_table(alloc, &sinks, &tops)?;
    let top = leading_top(alloc, &origins, clocks, &led, &tops)?;
    leave_out(&mut tops, top);
    let astray = led_table(alloc, &sinks, &tops)?;
    let agree = agreement(alloc, clocks, &led, &astray)?;
    Ok(agree)
}
