// The lines of faults in logs.
ghost use Rattle.std.specs.Prelude.{◌≡◌, ◌<◌, ◌≤◌, ◌^◌, length};
ghost use Rattle.sv_proof.specs.Certificate.{plain_logs, proof_lines};
ghost use Rattle.sv_proof.specs.FaultLines.{line_of_log, fault_line};

use crate::check::LogFault;
use sv_clause::Log;

/// The line of a certificate, counted from 1, on which the fault of one of its logs stands: the one
/// behind `before` others. Want of memory has no line: 0.
pub fn line_of_fault(logs: &[Log], before: u32, fault: LogFault) -> u64
    requires inside { before < length logs.now }
    requires lines { length (proof_lines (plain_logs logs.now)) < 2 ^ 63 }
    ensures { result ≡ fault_line (plain_logs logs.now) before fault }
{
    match fault {
        LogFault::Step(i) => line_behind(logs, before as usize) + 1 + i as u64,
        LogFault::NotEmpty => line_behind(logs, before as usize + 1) - 1,
        LogFault::OutOfMemory => 0,
    }
}

// The line behind those of so many logs.
fn line_behind(logs: &[Log], count: usize) -> u64
    requires inside { count ≤ length logs.now }
    requires lines { length (proof_lines (plain_logs logs.now)) < 2 ^ 63 }
    ensures line { result ≡ line_of_log (plain_logs logs.now) count }
    ensures small { result ≤ 2 ^ 63 }
{
    let first = &logs[..count];
    let mut line: u64 = 3;
    'logs: for log in first {
        line += 1 + log.steps.len() as u64;
    }
    line
}
