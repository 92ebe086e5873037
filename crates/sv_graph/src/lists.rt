// Lists of signals.
ghost use Rattle.std.specs.Prelude.{◌≡◌, ◌≤◌, ◌^◌, [], ◌∷◌, ◌++◌, if◌then◌else◌, OnOk, filter};
ghost use Rattle.std.specs.Prelude.{false, length, slice_index_or, IfOk};
ghost use Rattle.std.specs.List.{range_with_len};
ghost use Rattle.sv_graph.specs.Numbers.{numbers};

use std::alloc::{AllocError, Global};
use sv_flat::SigId;

/// Adds a signal where a table has it. It fails where memory runs out.
pub fn push_if(has: bool, signal: SigId, signals: &mut Vec<SigId>) -> Result<(), AllocError>
    ensures { OnOk result (numbers signals.new.items ≡ numbers signals.old.items ++ (if has
        then signal.0 ∷ [] else [])) }
{
    if has {
        signals.push(signal)?;
    }
    Ok(())
}

/// The signals that a table has, in order.
pub fn listed(alloc: Global, table: &[bool]) -> Result<Vec<SigId>, AllocError>
    requires { length table.now ≤ 2 ^ 32 }
    ensures { IfOk result (λ signals.
        numbers signals.items ≡ filter (λ s.
        slice_index_or table.now s false) (range_with_len 0 (length table.now))) }
{
    let mut signals = Vec::new(alloc);
    for (s, has) in table.iter().enumerate() {
        push_if(*has, SigId(s as u32), &mut signals)?;
    }
    Ok(signals)
}
