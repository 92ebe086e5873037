// What the walk of the instances builds.
ghost use Rattle.std.specs.Prelude.{ℕ, ◌≤◌, length};

use sv_flat::{Process, Signal};

/// The signals and processes of the instances so far, in the order of the walk through them, and
/// how many instances there are: at most 4,096 signals and 1,024 instances.
#[derive(Drop)]
pub struct Built {
    pub signals: Vec<Signal>,
    pub processes: Vec<Process>,
    pub instances: u32,
    ghost few_signals: { length signals.items ≤ 4096 },
    ghost few_instances: { instances ≤ 1024 },
}
