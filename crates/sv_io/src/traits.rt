// The outside as traits: files, an input and an output.
ghost use Rattle.std.specs.Prelude.{◌≡◌, ◌≢◌, ℕ, ◌+◌, ◌<◌, ◌≤◌, ◌↔◌, ◌⊎◌, Bool, IsTrue, List};
ghost use Rattle.std.specs.Prelude.{[], ◌∷◌, ◌++◌, take, length, Option, Some, Ok, Err, IfOk, OnOk};
ghost use Rattle.std.specs.Prelude.{OnErr, IsErr, IsErrOf, vec_len};
ghost use Rattle.sv_io.specs.Cabinet.{bytes_under, IfAnswered, IfLong, KeepsOrBegins};
ghost use Rattle.sv_io.specs.Count.{Rose};
ghost use Rattle.sv_io.specs.Exchange.{Exchange, fetched, stored, fetched_of, is_done};
ghost use Rattle.sv_io.specs.Sink.{WritesFront};

use super::faults::{Failed, FetchFault, PutFault, StoreFault};
use std::alloc::Global;

/// Bytes under names, as files are.
pub trait Cabinet {
    // All calls of the object so far, in order, and what each handed out or took.
    ghost exchanges: { Self → List Exchange };

    // Whether objects of this type tell what they hold.
    ghost tells: { Bool };

    // The bytes under each name, where the type tells them; None where the name is not held.
    ghost held: { Self → List ℕ → Option (List ℕ) };

    // How often fetches of each name have failed.
    ghost fetch_faults: { Self → List ℕ → ℕ };

    // How often stores under each name have failed.
    ghost store_faults: { Self → List ℕ → ℕ };

    /// All the bytes under the name, where there are at most `limit`. A name that is not held has
    /// none. It changes nothing that is held.
    fn fetch(&mut self, alloc: Global, name: &str, limit: u64) -> Result<Vec<u8>, FetchFault>
        requires { limit < 18446744073709551615 }

        ensures exchange { exchanges self.new ≡
            exchanges self.old ++ fetched name.now (fetched_of result) ∷ [] }

        ensures whole { IsTrue tells →
            IfOk result (λ bytes. bytes.items ≡ bytes_under (held self.old) name.now) }
        ensures within { IfOk result (λ bytes. vec_len bytes ≤ limit) }

        // `Long` comes only of more bytes than the limit, and carries the first limit + 1 of them.
        ensures long_length { IfLong result (λ bytes. length bytes ≡ limit + 1) }
        ensures long_front { IsTrue tells →
            IfLong result
            (λ bytes. bytes ≡ take (limit + 1) (bytes_under (held self.old) name.now)) }
        ensures long_cause { IsTrue tells →
            IfLong result (λ _. limit < length (bytes_under (held self.old) name.now)) }

        ensures failed { IsErrOf result FetchFault.Failed →
            Rose (fetch_faults self.old name.now) (fetch_faults self.new name.now) }
        ensures unchanged { (other : List ℕ) → held self.new other ≡ held self.old other }
        ensures fetch_counts { (other : List ℕ) →
            fetch_faults self.old other ≤ fetch_faults self.new other }
        ensures kept { IfAnswered result ((other : List ℕ) →
            fetch_faults self.new other ≡ fetch_faults self.old other) }
        ensures store_counts { (other : List ℕ) →
            store_faults self.new other ≡ store_faults self.old other };

    /// Puts the bytes under the name, in place of what was there.
    fn store(&mut self, name: &str, bytes: &[u8]) -> Result<(), StoreFault>
        ensures exchange { exchanges self.new ≡
            exchanges self.old ++ stored name.now bytes.now (is_done result) ∷ [] }

        ensures stored { IsTrue tells → OnOk result (held self.new name.now ≡ Some bytes.now) }
        ensures refused { IsTrue tells →
            OnErr result
            (KeepsOrBegins (held self.old name.now) bytes.now (held self.new name.now)) }
        ensures others { (other : List ℕ) → other ≢ name.now →
            held self.new other ≡ held self.old other }

        ensures failed { IsErrOf result StoreFault.Failed →
            Rose (store_faults self.old name.now) (store_faults self.new name.now) }
        ensures store_counts { (other : List ℕ) →
            store_faults self.old other ≤ store_faults self.new other }
        ensures kept { OnOk result ((other : List ℕ) →
            store_faults self.new other ≡ store_faults self.old other) }
        ensures fetch_counts { (other : List ℕ) →
            fetch_faults self.new other ≡ fetch_faults self.old other };
}

/// Bytes that are taken piece by piece, as from standard input.
pub trait Source {
    // All bytes that the object gave so far.
    ghost given: { Self → List ℕ };

    // Whether objects of this type tell the bytes that are left.
    ghost tells: { Bool };

    // The bytes that are left, where the type tells them.
    ghost left: { Self → List ℕ };

    // Whether a take has shown the end of the input.
    ghost ended: { Self → Bool };

    // How often a take has failed.
    ghost faults: { Self → ℕ };

    /// Puts the next bytes at the front of `buf`, and says how many. For a `buf` that is not empty,
    /// 0 is the end of the input. A take that fails takes nothing, and `buf`
    /// may hold any bytes then.
    fn take(&mut self, buf: &mut [u8]) -> Result<usize, Failed>
        ensures room { length buf.new ≡ length buf.old }
        ensures within { IfOk result (λ count. count ≤ length buf.new) }
        ensures given { IfOk result
            (λ count. given self.new ≡ given self.old ++ take count buf.new) }
        ensures none_given { OnErr result (given self.new ≡ given self.old) }
        ensures taken { IsTrue tells →
            IfOk result (λ count. left self.old ≡ take count buf.new ++ left self.new) }
        ensures end { IsTrue tells →
            0 < length buf.old → IfOk result (λ count. (count ≡ 0) ↔ (left self.old ≡ [])) }
        ensures ended { IsTrue (ended self.new) ↔
            (IsTrue (ended self.old) ⊎ ((result ≡ Ok 0) × (0 < length buf.old))) }
        ensures refused { IsTrue tells → OnErr result (left self.new ≡ left self.old) }
        ensures failed { IsErr result → Rose (faults self.old) (faults self.new) }
        ensures counts { faults self.old ≤ faults self.new }
        ensures kept { OnOk result (faults self.new ≡ faults self.old) };
}

/// Where bytes are put piece by piece, as to standard output.
pub trait Sink {
    // All bytes that the object accepted so far.
    ghost accepted: { Self → List ℕ };

    // How often a put has failed.
    ghost faults: { Self → ℕ };

    /// Accepts the front of the piece, at least one byte, and says how many. Refused, it accepts
    /// nothing.
    fn put(&mut self, piece: &[u8]) -> Result<usize, PutFault>
        requires { 0 < length piece.now }
        ensures some { IfOk result (λ count. 0 < count) }
        ensures within { IfOk result (λ count. count ≤ length piece.now) }
        ensures accepted { IfOk result
            (λ count. accepted self.new ≡ accepted self.old ++ take count piece.now) }
        ensures refused { OnErr result (accepted self.new ≡ accepted self.old) }
        ensures failed { IsErrOf result PutFault.Failed → Rose (faults self.old) (faults self.new) }
        ensures counts { faults self.old ≤ faults self.new }
        ensures kept { OnOk result (faults self.new ≡ faults self.old) };
}

/// Puts the whole piece. Refused, the front of the piece was accepted.
pub fn put_all<K: Sink>(out: &mut K, piece: &[u8]) -> Result<(), PutFault>
    ensures whole { OnOk result (K.accepted out.new ≡ K.accepted out.old ++ piece.now) }
    ensures refused { OnErr result
        (WritesFront (K.accepted out.old) piece.now (K.accepted out.new)) }
    ensures failed { IsErrOf result PutFault.Failed → Rose (K.faults out.old) (K.faults out.new) }
    ensures counts { K.faults out.old ≤ K.faults out.new }
    ensures kept { OnOk result (K.faults out.new ≡ K.faults out.old) }
{
    let mut rest = piece;
    while !rest.is_empty() {
        let count = out.put(rest)?;
        rest = &rest[count..];
    }
    Ok(())
}
