// Files in memory: bytes and counts under names.
ghost use Rattle.std.specs.Prelude.{◌≡◌, ◌≢◌, ℕ, ◌+◌, ◌<◌, ◌≤◌, List, take, length, min, Some};
ghost use Rattle.std.specs.Prelude.{IfOk, OnOk, OnErr, IsErrOf, vec_len};
ghost use Rattle.std.specs.Option.{option_copied};
ghost use Rattle.sv_io.specs.Cabinet.{bytes_under, IfLong};
ghost use Rattle.sv_io.specs.Count.{one_more};
ghost use Rattle.sv_io.specs.Files.{files_held, count_of};

use super::faults::FetchFault;
use std::alloc::{AllocError, Global};
use std::collections::BTreeMap;

/// Bytes under names.
pub type Files = BTreeMap<String, Vec<u8>>;

/// The bytes under the name, None exactly where it is not held.
pub fn file_named<'a>(files: &'a Files, name: &str) -> Option<&'a [u8]>
    ensures { option_copied result ≡ files_held files.now name.now }
{
    match files.get(name) {
        Some(bytes) => Some(bytes.as_slice()),
        None => None,
    }
}

/// Puts a copy of the bytes under the name. Refused, it changes nothing.
pub fn put_file(
    files: &mut Files,
    alloc: Global,
    name: &str,
    bytes: &[u8],
) -> Result<(), AllocError>
    ensures held { OnOk result (files_held files.new name.now ≡ Some bytes.now) }
    ensures others { (other : List ℕ) → other ≢ name.now →
        files_held files.new other ≡ files_held files.old other }
    ensures refused { OnErr result
        ((other : List ℕ) → files_held files.new other ≡ files_held files.old other) }
{
    let name = String::from_str(alloc, name)?;
    let bytes = Vec::from_slice(alloc, bytes)?;
    files.insert(name, bytes)?;
    Ok(())
}

/// A copy of the bytes where there are at most `limit`, else of the first `limit + 1`.
pub fn copy_within(alloc: Global, bytes: &[u8], limit: u64) -> Result<Vec<u8>, FetchFault>
    requires { limit < 18446744073709551615 }
    ensures whole { IfOk result (λ copy. copy.items ≡ bytes.now) }
    ensures within { IfOk result (λ copy. vec_len copy ≤ limit) }
    ensures long { IfLong result (λ copy. copy ≡ take (limit + 1) bytes.now) }
    ensures long_cause { IfLong result (λ _. limit < length bytes.now) }
    ensures never_failed { IsErrOf result FetchFault.Failed → ⊥ }
{
    if bytes.len() as u64 <= limit {
        return Vec::from_slice(alloc, bytes).map_err(|_| FetchFault::OutOfMemory);
    }
    match Vec::from_slice(alloc, &bytes[..limit as usize + 1]) {
        Ok(front) => Err(FetchFault::Long(front)),
        Err(AllocError) => Err(FetchFault::OutOfMemory),
    }
}

/// How often something happened to each name.
pub type Counts = BTreeMap<String, u64>;

/// Counts one more for the name, up to the greatest u64. Refused, it changes nothing.
pub fn count_one(counts: &mut Counts, alloc: Global, name: &str) -> Result<(), AllocError>
    ensures counted { OnOk result
        (count_of counts.new name.now ≡ one_more (count_of counts.old name.now)) }
    ensures others { (other : List ℕ) → other ≢ name.now →
        count_of counts.new other ≡ count_of counts.old other }
    ensures refused { OnErr result
        ((other : List ℕ) → count_of counts.new other ≡ count_of counts.old other) }
    ensures no_fewer { (other : List ℕ) → count_of counts.old other ≤ count_of counts.new other }
{
    let count = counts.get(name).copied().unwrap_or(0).saturating_add(1);
    counts.insert(String::from_str(alloc, name)?, count)?;
    Ok(())
}
