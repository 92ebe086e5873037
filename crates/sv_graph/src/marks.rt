// Tables that say of each signal whether it is marked.
ghost use Rattle.std.specs.Prelude.{◌≡◌, ◌<◌, ◌==◌, length};
ghost use Rattle.sv_graph.specs.Marks.{Marks, is_marked};

use sv_flat::SigId;

/// Whether a table has the signal.
pub fn has_mark(table: &[bool], signal: SigId) -> bool
    ensures { result ≡ is_marked table.now signal.0 }
{
    table.get(signal.0 as usize).copied().unwrap_or(false)
}

/// Marks a signal.
pub fn mark(table: &mut [bool], signal: SigId)
    requires { signal.0 < length table.old }
    ensures { Marks table.old table.new (λ s. signal.0 == s) }
{
    table[signal.0 as usize] = true;
}
