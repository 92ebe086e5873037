// Sets of bits of signals, by what is in them.
ghost use Rattle.std.specs.Prelude.{◌≡◌, ℕ, ◌<◌, ◌≤◌, ◌==◌, ◌&&◌, ◌||◌, nat_le, ◌↔◌, IsTrue, IfOk};
ghost use Rattle.std.specs.Prelude.{OnOk};
ghost use Rattle.sv_graph.specs.BitSets.{mask_in, is_set, in_bits, SharesBit, LacksBit, has_some};

use std::alloc::{AllocError, Global};
use std::collections::BTreeMap;
use sv_flat::SigId;

/// A set of bits of signals: for each signal with a bit in it, those bits as a number.
#[derive(Drop)]
pub struct BitSet {
    pub masks: BTreeMap<u32, u64>,
}

/// The bits from high down to low, as a number.
pub fn mask(high: u8, low: u8) -> u64
    requires ordered { low ≤ high }
    requires few { high < 64 }
    ensures { (b : ℕ) → is_set result b ≡ (nat_le low b && nat_le b high) }
{
    let top: u64 = 1 << high;
    let bottom: u64 = 1 << low;
    top - bottom + top
}

/// Whether two numbers have a bit in common.
pub fn share(first: u64, second: u64) -> bool
    ensures { IsTrue result ↔ SharesBit first second }
{
    first & second != 0
}

/// Whether the first number has a bit that the second lacks.
pub fn lacks(first: u64, second: u64) -> bool
    ensures { IsTrue result ↔ LacksBit first second }
{
    first & second != first
}

impl BitSet {
    /// No bits.
    pub fn new(alloc: Global) -> BitSet
        ensures { (s : ℕ) → mask_in result s ≡ 0 }
    {
        BitSet {
            masks: BTreeMap::new(alloc),
        }
    }

    /// The bits of a signal that are in the set.
    pub fn of(&self, signal: SigId) -> u64
        ensures { result ≡ mask_in self.now signal.0 }
    {
        match self.masks.get(&signal.0) {
            Some(mask) => *mask,
            None => 0,
        }
    }

    /// Puts bits of a signal into the set.
    pub fn add(&mut self, signal: SigId, mask: u64) -> Result<(), AllocError>
        ensures { OnOk result ((s b : ℕ) →
            in_bits self.new s b ≡ (in_bits self.old s b || ((signal.0 == s) && is_set mask b))) }
    {
        let bits = self.of(signal) | mask;
        self.masks.insert(signal.0, bits)?;
        Ok(())
    }

    /// Whether the set has a bit of the signal.
    pub fn has(&self, signal: SigId) -> bool
        ensures { result ≡ has_some self.now signal.0 }
    {
        self.of(signal) != 0
    }

    /// Puts the bits of another set into this one.
    pub fn add_all(&mut self, other: &BitSet) -> Result<(), AllocError>
        ensures { OnOk result ((s b : ℕ) →
            in_bits self.new s b ≡ (in_bits self.old s b || in_bits other.now s b)) }
    {
        for (signal, mask) in &other.masks {
            self.add(SigId(*signal), *mask)?;
        }
        Ok(())
    }

    /// The bits that are in both sets.
    pub fn common(&self, other: &BitSet, alloc: Global) -> Result<BitSet, AllocError>
        ensures { IfOk result (λ both.
            (s b : ℕ) → in_bits both s b ≡ (in_bits self.now s b && in_bits other.now s b)) }
    {
        let mut both = BitSet::new(alloc);
        for (signal, mask) in &self.masks {
            let signal = SigId(*signal);
            both.add(signal, *mask & other.of(signal))?;
        }
        Ok(both)
    }
}
