// What is written, and when.
ghost use Rattle.std.specs.Prelude.{◌≡◌, ◌≤◌, ◌++◌, [], Some, IfOk, OnOk, OnErr, IsErrOf};
ghost use Rattle.sv_io.specs.Count.{Rose};
ghost use Rattle.sv_io.specs.Sink.{WritesFront};
ghost use Rattle.sv_sim_run.specs.Runs.{PutsFront};
ghost use Rattle.sv_sim_run.specs.Simulated.{last_line as line_of};

use crate::endings::{Ending, SimFault};
use std::alloc::{AllocError, Global};
use sv_io::{Sink, put_all};
use sv_num::Rule;
use sv_texts::{StimSource, limit_text, stimulus_text};

// So many bytes of lines wait at most before they are put.
const MOST_WAITING: usize = 65_536;

/// Puts the lines that wait.
pub fn put_waiting<K: Sink>(out: &mut K, waiting: &mut Vec<u8>) -> Result<(), SimFault>
    ensures whole { OnOk result (K.accepted out.new ≡ K.accepted out.old ++ waiting.old.items) }
    ensures none { OnOk result (waiting.new.items ≡ []) }
    ensures refused { OnErr result
        (WritesFront (K.accepted out.old) waiting.old.items (K.accepted out.new)) }
    ensures failed { IsErrOf result SimFault.Write → Rose (K.faults out.old) (K.faults out.new) }
    ensures counts { K.faults out.old ≤ K.faults out.new }
    ensures kept { OnOk result (K.faults out.new ≡ K.faults out.old) }
    ensures read { IsErrOf result SimFault.Read → ⊥ }
{
    put_all(out, waiting.as_slice())?;
    waiting.clear();
    Ok(())
}

/// Puts a line behind the lines that wait, and puts them if they are many.
pub fn put_line<K: Sink>(out: &mut K, waiting: &mut Vec<u8>, line: &[u8]) -> Result<(), SimFault>
    ensures whole { OnOk result (PutsFront (K.accepted out.old) (waiting.old.items ++ line.now)
        (K.accepted out.new) waiting.new.items) }
    ensures refused { OnErr result
        (WritesFront (K.accepted out.old) (waiting.old.items ++ line.now) (K.accepted out.new)) }
    ensures failed { IsErrOf result SimFault.Write → Rose (K.faults out.old) (K.faults out.new) }
    ensures counts { K.faults out.old ≤ K.faults out.new }
    ensures kept { OnOk result (K.faults out.new ≡ K.faults out.old) }
    ensures read { IsErrOf result SimFault.Read → ⊥ }
{
    waiting.extend_from_slice(line)?;
    if waiting.len() >= MOST_WAITING {
        put_waiting(out, waiting)?;
    }
    Ok(())
}

/// What stands behind the trace.
pub fn last_line(alloc: Global, ending: Ending, rounds: Option<u64>) -> Result<Vec<u8>, AllocError>
    ensures { IfOk result (λ line. line.items ≡ line_of ending rounds) }
{
    match (ending, rounds) {
        (Ending::Done, None) => Ok(Vec::new(alloc)),
        (Ending::Done, Some(rounds)) => rounds_line(alloc, rounds),
        (Ending::NoLevel, _) => limit_text(alloc, Rule::Level.number(), &[]),
        (Ending::TooLarge, _) => limit_text(alloc, Rule::StimulusSize.number(), &[]),
        (Ending::WrongLine(line, kind), _) => stimulus_text(alloc, StimSource::Input, line, kind),
    }
}

fn rounds_line(alloc: Global, rounds: u64) -> Result<Vec<u8>, AllocError>
    ensures { IfOk result (λ line. line.items ≡ line_of Ending.Done (Some rounds)) }
{
    Vec::from_slice(alloc, format!(in alloc; "rounds {rounds}\n")?.as_bytes())
}
