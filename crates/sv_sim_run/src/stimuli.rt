// Stimuli from a source.
ghost use Rattle.std.specs.Prelude.{◌≡◌, ℕ, ◌+◌, ◌-◌, ◌<◌, ◌≤◌, ◌==◌, ◌↔◌, ◌⊎◌, List, []};
ghost use Rattle.std.specs.Prelude.{◌++◌, length, Ok, Err, Some, None, IsTrue, IsFalse, IfOk, OnOk};
ghost use Rattle.std.specs.Prelude.{OnErr, IsErrOf, if◌then◌else◌, IsErr, IfErr, IfSome, take};
ghost use Rattle.std.specs.Option.{ForSome, option_copied};
ghost use Rattle.sv_flat.specs.Views.{design_of};
ghost use Rattle.sv_design.specs.Designs.{IsDesign};
ghost use Rattle.sv_io.specs.Count.{Rose};
ghost use Rattle.sv_io.specs.Sink.{WritesFront};
ghost use Rattle.sv_io.specs.Source.{WhateverFollows};
ghost use Rattle.sv_sim_run.specs.Fronts.{WritesAllAt, Takes, IsUnderWay};
ghost use Rattle.sv_sim_run.specs.Fronts.{PieceReads, EndsWith, StopsAt, StopsWith, RunsTo};
ghost use Rattle.sv_sim_run.specs.Fronts.{WritesWhole};
ghost use Rattle.sv_sim_run.specs.Progress.{flat_of, IsSimulating, IsSameAs, HasCome, HasReached};
ghost use Rattle.sv_sim_run.specs.Runners.{order_in};
ghost use Rattle.sv_sim_run.specs.Simulated.{largest_stimulus, IsSimulated, level_asked};
ghost use Rattle.sv_sim_run.specs.Simulated.{WritesFrontAt, WritesFrontFor, WritesAllCycles};
ghost use Rattle.sv_sim_run.specs.Simulated.{last_line as line_of};

use crate::endings::{Ending, SimFault};
use crate::lines::last_line;
use crate::simulations::Simulation;
use std::alloc::Global;
use sv_design::Design;
use sv_io::{Sink, Source, put_all};
use sv_lattice::Point;

// The bytes of the largest stimulus.
const LARGEST_STIMULUS: usize = 1_073_741_824;

// So many bytes are taken at once at most.
const PIECE: usize = 4_096;

/// Simulates an admitted design. It takes the stimulus from the input in pieces and writes the line
/// of each cycle, with its number from 0, the names and the values in hexadecimal, before it takes
/// more. With a level, which is the name of a point, a line has the signals alone whose label flows
/// to it in that cycle. With an order number the processes run in drawn orders, and a last line
/// says how many rounds they took; the other lines are the same. A level without a point, a wrong
/// line and a stimulus of more than 1,073,741,824 bytes are told in a last line, behind the lines
/// of all cycles before it (this project's profile).
///
/// A fault comes where the input or the output failed, or where memory runs out; then a front of
/// the text was accepted.
pub fn simulate<S: Source, K: Sink>(
    alloc: Global,
    design: &Design,
    input: &mut S,
    out: &mut K,
    level: Option<&str>,
    order: Option<u64>,
) -> Result<Ending, SimFault>
    // The ending is that of the bytes that were taken, and the whole of what is defined for them
    // was accepted by the output.
    ensures answer { IfOk result (λ ending. (taken printed : List ℕ)
        × (S.given input.new ≡ S.given input.old ++ taken)
        × IsSimulated (design_of design.now) (option_copied level.entry) order taken ending printed
        × (K.accepted out.new ≡ K.accepted out.old ++ printed)) }
    // Where the input tells its bytes, it is that of all of them.
    ensures told { IsTrue S.tells → IfOk result (λ ending. (printed : List ℕ)
        × IsSimulated (design_of design.now) (option_copied level.entry) order
        (S.left input.old) ending printed
        × (K.accepted out.new ≡ K.accepted out.old ++ printed)) }
    // Unless the input has ended, it is that of whatever begins with the bytes that were taken.
    ensures to_the_end { WhateverFollows (S.ended input.new) (S.given input.old) (S.given input.new)
        (λ bytes. IfOk result (λ ending. (printed : List ℕ)
        × IsSimulated (design_of design.now) (option_copied level.entry) order bytes ending printed
        × (K.accepted out.new ≡ K.accepted out.old ++ printed))) }
    // No other ending is.
    ensures only { (taken printed : List ℕ) (other : Ending) →
        S.given input.new ≡ S.given input.old ++ taken →
        IsSimulated (design_of design.now) (option_copied level.entry) order taken other printed →
        IfOk result (λ ending. ending ≡ other) }

    // With a fault the output accepted a front of what is defined for the bytes that were taken;
    // with one of the input, which comes where they show no ending yet, all lines of their cycles.
    ensures front { OnErr result ((taken : List ℕ)
        × (S.given input.new ≡ S.given input.old ++ taken)
        × WritesFrontFor (design_of design.now) (option_copied level.entry) order taken
        (K.accepted out.old) (K.accepted out.new)) }
    ensures told_front { IsTrue S.tells → OnErr result
        (WritesFrontFor (design_of design.now) (option_copied level.entry) order
        (S.left input.old) (K.accepted out.old) (K.accepted out.new)) }
    // Unless the input has ended, it is a front of that of whatever begins with these bytes.
    ensures front_to_the_end { WhateverFollows (S.ended input.new) (S.given input.old)
        (S.given input.new) (λ bytes. OnErr result
        (WritesFrontFor (design_of design.now) (option_copied level.entry) order bytes
        (K.accepted out.old) (K.accepted out.new))) }
    ensures prompt { result ≡ Err SimFault.Read → (taken : List ℕ)
        × (S.given input.new ≡ S.given input.old ++ taken)
        × WritesAllCycles (design_of design.now) (option_copied level.entry) taken
        (K.accepted out.old) (K.accepted out.new) }

    ensures most { (taken : List ℕ) → S.given input.new ≡ S.given input.old ++ taken →
        length taken ≤ largest_stimulus + 1 }
    ensures untouched { level_asked (design_of design.now) (option_copied level.entry) ≡ None →
        input.new ≡ input.old }
    ensures read_fault { result ≡ Err SimFault.Read →
        Rose (S.faults input.old) (S.faults input.new) }
    ensures write_fault { result ≡ Err SimFault.Write →
        Rose (K.faults out.old) (K.faults out.new) }
    // An ending comes only where nothing failed.
    ensures unfailed { OnOk result ((S.faults input.new ≡ S.faults input.old)
        × (K.faults out.new ≡ K.faults out.old)) }
    // Behind the end that a take has shown nothing is taken: no fault of the input comes.
    ensures unended { result ≡ Err SimFault.Read →
        (IsTrue (S.ended input.new) ↔ IsTrue (S.ended input.old)) }
    ensures no_write_fault { result ≡ Err SimFault.Read →
        K.faults out.new ≡ K.faults out.old }
{
    match shown_at(design, level) {
        Some(shown) => simulate_at(alloc, design, input, out, shown, order),
        None => refuse_level(alloc, out),
    }
}

// What a level shows: all, or what the point of this name sees, if there is one.
fn shown_at(design: &Design, level: Option<&str>) -> Option<Option<Point>>
    ensures asked { result ≡ level_asked (design_of design.now) (option_copied level.entry) }
    ensures within { IfSome result (λ shown.
        ForSome shown (λ point. point.0 < length design.now.lattice)) }
{
    match level {
        None => Some(None),
        Some(name) => Some(Some(design.point_named(name)?)),
    }
}

// Says that no point has the name of the level.
fn refuse_level<K: Sink>(alloc: Global, out: &mut K) -> Result<Ending, SimFault>
    ensures whole { IfOk result (λ ending. (ending ≡ Ending.NoLevel)
        × (K.accepted out.new ≡ K.accepted out.old ++ line_of Ending.NoLevel None)) }
    ensures front { OnErr result (WritesFront (K.accepted out.old) (line_of Ending.NoLevel None)
        (K.accepted out.new)) }
    ensures failed { IsErrOf result SimFault.Write → Rose (K.faults out.old) (K.faults out.new) }
    ensures kept { OnOk result (K.faults out.new ≡ K.faults out.old) }
    ensures read { IsErrOf result SimFault.Read → ⊥ }
{
    put_last_line(alloc, out, Ending::NoLevel, None)?;
    Ok(Ending::NoLevel)
}

// Simulates the design for what is shown.
fn simulate_at<S: Source, K: Sink>(
    alloc: Global,
    design: &Design,
    input: &mut S,
    out: &mut K,
    shown: Option<Point>,
    order: Option<u64>,
) -> Result<Ending, SimFault>
    requires { ForSome shown (λ point. point.0 < length design.now.lattice) }
    ensures admitted { IsDesign (design_of design.now) }
    ensures runs { RunsTo (design_of design.now) shown order S.tells (S.given input.old)
        (S.given input.new) (S.left input.old) (K.accepted out.old) (K.accepted out.new) result }
    ensures to_the_end { WhateverFollows (S.ended input.new) (S.given input.old) (S.given input.new)
        (λ bytes. IfOk result (WritesWhole (design_of design.now) shown order bytes
        (K.accepted out.old) (K.accepted out.new))) }
    ensures front_to_the_end { WhateverFollows (S.ended input.new) (S.given input.old)
        (S.given input.new) (λ bytes. OnErr result (WritesFrontAt (design_of design.now)
        (Some shown) order bytes (K.accepted out.old) (K.accepted out.new))) }
    ensures read_fault { IsErrOf result SimFault.Read →
        Rose (S.faults input.old) (S.faults input.new) }
    ensures write_fault { IsErrOf result SimFault.Write →
        Rose (K.faults out.old) (K.faults out.new) }
    ensures unfailed { OnOk result ((S.faults input.new ≡ S.faults input.old)
        × (K.faults out.new ≡ K.faults out.old)) }
    ensures unended { IsErrOf result SimFault.Read →
        (IsTrue (S.ended input.new) ↔ IsTrue (S.ended input.old)) }
    ensures no_write_fault { IsErrOf result SimFault.Read →
        K.faults out.new ≡ K.faults out.old }
{
    let mut simulation = Simulation::new(alloc, design, shown, order)?;
    run_to_end(alloc, &mut simulation, input, out)
}

// Takes the stimulus and writes all lines, the last one too.
fn run_to_end<S: Source, K: Sink>(
    alloc: Global,
    simulation: &mut Simulation<'_>,
    input: &mut S,
    out: &mut K,
) -> Result<Ending, SimFault>
    requires made { IsSimulating simulation.old }
    requires open { IsFalse simulation.old.reader.finished }
    requires come { HasCome [] (K.accepted out.old) (K.accepted out.old) simulation.old }
    ensures runs { RunsTo (flat_of simulation.old) simulation.old.level
        (order_in simulation.old.runner) S.tells (S.given input.old) (S.given input.new)
        (S.left input.old) (K.accepted out.old) (K.accepted out.new) result }
    ensures to_the_end { WhateverFollows (S.ended input.new) (S.given input.old) (S.given input.new)
        (λ bytes. IfOk result (WritesWhole (flat_of simulation.old) simulation.old.level
        (order_in simulation.old.runner) bytes (K.accepted out.old) (K.accepted out.new))) }
    ensures front_to_the_end { WhateverFollows (S.ended input.new) (S.given input.old)
        (S.given input.new) (λ bytes. OnErr result
        (StopsAt bytes (K.accepted out.old) (K.accepted out.new) simulation.old)) }
    ensures read_fault { IsErrOf result SimFault.Read →
        Rose (S.faults input.old) (S.faults input.new) }
    ensures write_fault { IsErrOf result SimFault.Write →
        Rose (K.faults out.old) (K.faults out.new) }
    ensures unfailed { OnOk result ((S.faults input.new ≡ S.faults input.old)
        × (K.faults out.new ≡ K.faults out.old)) }
    ensures unended { IsErrOf result SimFault.Read →
        (IsTrue (S.ended input.new) ↔ IsTrue (S.ended input.old)) }
    ensures no_write_fault { IsErrOf result SimFault.Read →
        K.faults out.new ≡ K.faults out.old }
{
    let ending = read_all(alloc, simulation, input, out)?;
    put_last_line(alloc, out, ending, simulation.rounds())?;
    Ok(ending)
}

// Takes the stimulus in pieces, and writes the lines of each before it takes more.
fn read_all<S: Source, K: Sink>(
    alloc: Global,
    simulation: &mut Simulation<'_>,
    input: &mut S,
    out: &mut K,
) -> Result<Ending, SimFault>
    requires made { IsSimulating simulation.old }
    requires open { IsFalse simulation.old.reader.finished }
    requires come { HasCome [] (K.accepted out.old) (K.accepted out.old) simulation.old }
    ensures same { IsSameAs simulation.old simulation.new }
    ensures ends { IfOk result (λ ending. EndsWith S.tells (S.given input.old) (S.given input.new)
        (S.left input.old) (S.left input.new) ending (K.accepted out.old) (K.accepted out.new)
        simulation.new) }
    ensures to_the_end { WhateverFollows (S.ended input.new) (S.given input.old) (S.given input.new)
        (λ bytes. IfOk result (λ ending. HasReached bytes ending (K.accepted out.old)
        (K.accepted out.new) simulation.new)) }
    ensures stops { OnErr result (StopsWith S.tells (S.given input.old) (S.given input.new)
        (S.left input.old) (S.left input.new) (K.accepted out.old) (K.accepted out.new)
        simulation.old) }
    ensures prompt { IsErrOf result SimFault.Read → (taken : List ℕ)
        × (S.given input.new ≡ S.given input.old ++ taken)
        × WritesAllAt (flat_of simulation.old) simulation.old.level taken (K.accepted out.old)
        (K.accepted out.new) }
    ensures front_to_the_end { WhateverFollows (S.ended input.new) (S.given input.old)
        (S.given input.new) (λ bytes. OnErr result
        (StopsAt bytes (K.accepted out.old) (K.accepted out.new) simulation.old)) }
    ensures counts { K.faults out.old ≤ K.faults out.new }
    ensures read_fault { IsErrOf result SimFault.Read →
        Rose (S.faults input.old) (S.faults input.new) }
    ensures write_fault { IsErrOf result SimFault.Write →
        Rose (K.faults out.old) (K.faults out.new) }
    ensures unfailed { OnOk result ((S.faults input.new ≡ S.faults input.old)
        × (K.faults out.new ≡ K.faults out.old)) }
    ensures unended { IsErrOf result SimFault.Read →
        (IsTrue (S.ended input.new) ↔ IsTrue (S.ended input.old)) }
    ensures no_write_fault { IsErrOf result SimFault.Read →
        K.faults out.new ≡ K.faults out.old }
{
    let mut buffer = vec![in alloc; 0; PIECE]?;
    // So many bytes may still be taken. The last one shows that there are too many.
    let mut left = LARGEST_STIMULUS + 1;
    'pieces: while left > 0 {
        let count = take_piece(input, &mut buffer, left)?;
        left -= count;
        if let Some(ending) = read_piece(alloc, simulation, out, &buffer[..count], left)? {
            return Ok(ending);
        }
    }
    Ok(Ending::TooLarge)
}

// Takes the next bytes, at most so many, and says how many. 0 is the end.
fn take_piece<S: Source>(input: &mut S, buffer: &mut [u8], most: usize) -> Result<usize, SimFault>
    requires some { 0 < most }
    requires room { 0 < length buffer.old }
    ensures within { IfOk result (λ count. (count ≤ most) × (count ≤ length buffer.new)) }
    ensures taken { IfOk result (λ count. Takes S.tells (S.given input.old) (S.given input.new)
        (S.left input.old) (S.left input.new) (take count buffer.new)) }
    ensures end { IsTrue S.tells → IfOk result (λ count. count ≡ 0 → S.left input.new ≡ []) }
    ensures ended { IfOk result (λ count. count ≡ 0 → IsTrue (S.ended input.new)) }
    ensures none { OnErr result (Takes S.tells (S.given input.old) (S.given input.new)
        (S.left input.old) (S.left input.new) []) }
    ensures failed { IfErr result (λ fault. fault ≡ SimFault.Read) }
    ensures shows { IsTrue (S.ended input.new) ↔ (IsTrue (S.ended input.old) ⊎ (result ≡ Ok 0)) }
    ensures rose { IsErr result → Rose (S.faults input.old) (S.faults input.new) }
    ensures counts { S.faults input.old ≤ S.faults input.new }
    ensures kept { OnOk result (S.faults input.new ≡ S.faults input.old) }
{
    let room = most.min(buffer.len());
    let count = input.take(&mut buffer[..room])?;
    Ok(count)
}

// Reads a piece, or the end if it is empty, and writes the lines of its cycles. It gives the
// ending, if that is reached. So many bytes may still be taken behind it.
fn read_piece<K: Sink>(
    alloc: Global,
    simulation: &mut Simulation<'_>,
    out: &mut K,
    piece: &[u8],
    left: usize,
) -> Result<Option<Ending>, SimFault>
    requires few { length piece.now ≤ 65536 }
    requires some { 0 < left + length piece.now }
    requires way { (bytes before : List ℕ)
        × IsUnderWay bytes (left + length piece.now) before (K.accepted out.old) simulation.old }
    ensures same { IsSameAs simulation.old simulation.new }
    ensures reads { (bytes before : List ℕ) →
        IsUnderWay bytes (left + length piece.now) before (K.accepted out.old) simulation.old →
        PieceReads bytes piece.now left before (K.accepted out.new) result simulation.old
        simulation.new }
    ensures failed { IsErrOf result SimFault.Write →
        Rose (K.faults out.old) (K.faults out.new) }
    ensures counts { K.faults out.old ≤ K.faults out.new }
    ensures kept { OnOk result (K.faults out.new ≡ K.faults out.old) }
    ensures read { IsErrOf result SimFault.Read → ⊥ }
{
    if piece.is_empty() {
        let ending = simulation.end(alloc, out)?;
        return Ok(Some(ending));
    }
    let within = within_limit(piece.len(), left);
    simulation.read(alloc, out, &piece[..within])
}

// How many of the bytes that were just taken are read: all but the one over the limit.
fn within_limit(count: usize, left: usize) -> usize
    requires { 0 < count }
    ensures { result ≡ (if left == 0 then count - 1 else count) }
{
    if left == 0 { count - 1 } else { count }
}

fn put_last_line<K: Sink>(
    alloc: Global,
    out: &mut K,
    ending: Ending,
    rounds: Option<u64>,
) -> Result<(), SimFault>
    ensures whole { OnOk result (K.accepted out.new ≡ K.accepted out.old ++ line_of ending rounds) }
    ensures refused { OnErr result
        (WritesFront (K.accepted out.old) (line_of ending rounds) (K.accepted out.new)) }
    ensures failed { IsErrOf result SimFault.Write → Rose (K.faults out.old) (K.faults out.new) }
    ensures kept { OnOk result (K.faults out.new ≡ K.faults out.old) }
    ensures read { IsErrOf result SimFault.Read → ⊥ }
{
    let line = last_line(alloc, ending, rounds)?;
    put_all(out, &line)?;
    Ok(())
}
