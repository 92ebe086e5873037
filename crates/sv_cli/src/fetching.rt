// The fetch of a file.
ghost use Rattle.std.specs.Prelude.{◌≡◌, ◌≤◌, ◌<◌, ◌+◌, ◌∷◌, ℕ, List, [], IfOk, IsErrOf};
ghost use Rattle.std.specs.Prelude.{length, vec_len};
ghost use Rattle.sv_io.specs.Cabinet.{IfAnswered, IfLong};
ghost use Rattle.sv_io.specs.Count.{Rose};
ghost use Rattle.sv_io.specs.Exchange.{fetched, fetched_of};
ghost use Rattle.sv_io.specs.Traffic.{Passed, files_by};
ghost use Rattle.sv_cli.specs.Runs.{KeepsCounts};

use std::alloc::Global;
use sv_io::{Cabinet, FetchFault};

/// What one fetch of a file hands out: its bytes, where there are at most so many.
pub fn fetch_once<C: Cabinet>(
    alloc: Global,
    file: &str,
    most: u64,
    cabinet: &mut C,
) -> Result<Vec<u8>, FetchFault>
    requires { most < 18446744073709551615 }
    ensures passed { Passed C.tells
        (files_by C.exchanges C.held C.fetch_faults C.store_faults cabinet.old)
        (files_by C.exchanges C.held C.fetch_faults C.store_faults cabinet.new)
        (fetched file.now (fetched_of result) ∷ []) }
    ensures within { IfOk result (λ bytes. vec_len bytes ≤ most) }
    ensures long { IfLong result (λ bytes. length bytes ≡ most + 1) }
    ensures kept { IfAnswered result (KeepsCounts
        (files_by C.exchanges C.held C.fetch_faults C.store_faults cabinet.old)
        (files_by C.exchanges C.held C.fetch_faults C.store_faults cabinet.new)) }
    ensures failed { IsErrOf result FetchFault.Failed →
        Rose (C.fetch_faults cabinet.old file.now) (C.fetch_faults cabinet.new file.now) }
    ensures fetch_counts { (name : List ℕ) →
        C.fetch_faults cabinet.old name ≤ C.fetch_faults cabinet.new name }
    ensures store_counts { (name : List ℕ) →
        C.store_faults cabinet.old name ≤ C.store_faults cabinet.new name }
{
    cabinet.fetch(alloc, file, most)
}
