// Graphs over signals, by bits: an edge that is added again takes no more room, and what leads on
// from a signal is added to a row a word at a time.
ghost use Rattle.std.specs.Prelude.{◌≡◌, ◌<◌, ◌≤◌, ◌+◌, ◌*◌, ◌/◌, ◌^◌, ◌==◌, ◌&&◌, not, ℕ, Bool};
ghost use Rattle.std.specs.Prelude.{false, length, slice_index_or, replicate, Contains};
ghost use Rattle.std.specs.Prelude.{IsTrue, IsFalse, OnOk, IfOk};
ghost use Rattle.std.specs.List.{list_any};
ghost use Rattle.sv_flat.specs.Sets.{those};
ghost use Rattle.sv_graph.specs.BitGraphs.{in_row, words, IsRow, HasRoom, GainsBits, size, row};
ghost use Rattle.sv_graph.specs.BitGraphs.{has_edge, IsOver, GainsEdges, IsTurned, ClosesUpTo};
ghost use Rattle.sv_graph.specs.BitSets.{has_some, HasTargetsBelow};
ghost use Rattle.sv_graph.specs.BitGraphs.{leads_through};
ghost use Rattle.sv_graph.specs.Graphs.{size as graph_size};
ghost use Rattle.sv_graph.specs.Numbers.{numbers};

use crate::bit_sets::BitSet;
use crate::components::{Rows, leaving_order};
use crate::graphs::Graph;
use crate::lists::push_if;
use std::alloc::{AllocError, Global};
use sv_flat::SigId;

// A row without bits, with room for so many signals.
fn empty_row(alloc: Global, count: usize) -> Result<Vec<u64>, AllocError>
    ensures { IfOk result (λ row. row.items ≡ replicate (words count) 0) }
{
    vec![in alloc; 0; count / 64 + 1]
}

// A copy of a row.
fn copied(alloc: Global, row: &[u64]) -> Result<Vec<u64>, AllocError>
    ensures { IfOk result (λ copy. copy.items ≡ row.now) }
{
    row.to_vec(alloc)
}

// Whether a row has the signal.
fn has_bit(row: &[u64], signal: SigId) -> bool
    ensures { result ≡ in_row row.now signal.0 }
{
    match row.get(signal.0 as usize / 64) {
        Some(word) => *word >> (signal.0 % 64) & 1 == 1,
        None => false,
    }
}

// Whether a row has a signal.
fn has_bits(row: &[u64]) -> bool
    ensures { result ≡ list_any (λ word. not (word == 0)) row.now }
{
    row.iter().any(|word| *word != 0)
}

// Puts a signal into a row.
fn put_bit(row: &mut [u64], signal: SigId)
    requires { signal.0 / 64 < length row.old }
    ensures size { length row.new ≡ length row.old }
    ensures bits { GainsBits row.old row.new (λ s. signal.0 == s) }
{
    row[signal.0 as usize / 64] |= 1 << (signal.0 % 64);
}

// Puts the signals of another row into a row.
fn put_row(row: &mut [u64], more: &[u64])
    requires { length more.now ≡ length row.old }
    ensures size { length row.new ≡ length row.old }
    ensures bits { GainsBits row.old row.new (in_row more.now) }
{
    for (place, word) in more.iter().enumerate() {
        row[place] |= *word;
    }
}

// Whether a row has the signals of another row.
fn has_row(row: &[u64], more: &[u64]) -> bool
    requires { length more.now ≡ length row.now }
    ensures { IsTrue result → GainsBits row.now row.now (in_row more.now) }
{
    for (place, word) in more.iter().enumerate() {
        if row[place] | *word != row[place] {
            return false;
        }
    }
    true
}

// Puts a signal into a row, where it is in a set.
fn put_target(row: &mut [u64], target: SigId, set: &BitSet)
    requires { HasRoom row.old set.now }
    ensures size { length row.new ≡ length row.old }
    ensures bits { GainsBits row.old row.new (λ s. has_some set.now target.0 && (target.0 == s)) }
{
    if set.has(target) {
        put_bit(row, target);
    }
}

/// The row of the signals in a set, with room for so many. It fails where memory runs out.
pub fn row_of(alloc: Global, count: usize, set: &BitSet) -> Result<Vec<u64>, AllocError>
    requires { HasTargetsBelow count set.now }
    ensures row { IfOk result (λ row. IsRow count row.items) }
    ensures bits { IfOk result (λ row. (s : ℕ) → in_row row.items s ≡ has_some set.now s) }
{
    let mut row = empty_row(alloc, count)?;
    for signal in set.masks.keys() {
        put_target(&mut row, SigId(*signal), set);
    }
    Ok(row)
}

// Adds the signals that a row has from one on and below another to those before them.
fn list_from(
    row: &[u64],
    start: usize,
    end: usize,
    signals: &mut Vec<SigId>,
) -> Result<(), AllocError>
    requires order { start ≤ end }
    requires few { end ≤ 2 ^ 32 }
    requires so_far { numbers signals.old.items ≡ those start (in_row row.now) }
    ensures { OnOk result (numbers signals.new.items ≡ those end (in_row row.now)) }
{
    for s in start..end {
        let signal = SigId(s as u32);
        push_if(has_bit(row, signal), signal, &mut *signals)?;
    }
    Ok(())
}

// Whether a row has no signal in a word of it.
fn is_clear(row: &[u64], place: usize) -> bool
    ensures { result ≡ (slice_index_or row.now place 0 == 0) }
{
    match row.get(place) {
        Some(word) => *word == 0,
        None => true,
    }
}

// Adds the signals in a word of a row that are below some signal to those before them. A word
// without signals takes one look.
fn list_word(
    row: &[u64],
    place: usize,
    end: usize,
    signals: &mut Vec<SigId>,
) -> Result<(), AllocError>
    requires order { place * 64 ≤ end }
    requires here { end ≤ place * 64 + 64 }
    requires few { end ≤ 2 ^ 32 }
    requires so_far { numbers signals.old.items ≡ those (place * 64) (in_row row.now) }
    ensures { OnOk result (numbers signals.new.items ≡ those end (in_row row.now)) }
{
    if is_clear(row, place) {
        return Ok(());
    }
    list_from(row, place * 64, end, signals)?;
    Ok(())
}

// The first so many signals that a row has, in order.
fn listed(alloc: Global, count: usize, row: &[u64]) -> Result<Vec<SigId>, AllocError>
    requires { count ≤ 2 ^ 32 }
    ensures { IfOk result (λ signals. numbers signals.items ≡ those count (in_row row.now)) }
{
    let mut signals = Vec::new(alloc);
    for place in 0..count / 64 {
        list_word(row, place, place * 64 + 64, &mut signals)?;
    }
    list_word(row, count / 64, count, &mut signals)?;
    Ok(signals)
}

// Puts what some signals lead to in a graph into a row.
fn put_rows(row: &mut [u64], signals: &[SigId], graph: &BitGraph)
    requires size { length row.old ≡ words (size graph.now) }
    requires over { IsOver (size graph.now) graph.now }
    requires signals { (m : ℕ) → Contains (numbers signals.now) m → m < size graph.now }
    ensures size { length row.new ≡ length row.old }
    ensures bits { GainsBits row.old row.new (λ s.
        list_any (λ m. has_edge graph.now m s) (numbers signals.now)) }
{
    for signal in signals {
        put_row(row, &graph.rows[signal.0 as usize]);
    }
}

// Adds edges from one number to those of some signals.
fn add_targets(rows: &mut Rows, from: usize, targets: &[SigId]) -> Result<(), AllocError> {
    for target in targets {
        rows.add(from, target.0 as usize)?;
    }
    Ok(())
}

/// A graph over signals: for each signal, by its number, a bit for each that its edges lead to.
#[derive(Drop)]
pub struct BitGraph {
    pub rows: Vec<Vec<u64>>,
}

impl BitGraph {
    /// So many signals without edges. It fails where memory runs out.
    pub fn new(alloc: Global, count: usize) -> Result<BitGraph, AllocError>
        ensures over { IfOk result (IsOver count) }
        ensures edges { IfOk result (λ graph. (a b : ℕ) → has_edge graph a b ≡ false) }
    {
        let mut rows = Vec::new(alloc);
        'rows: for _ in 0..count {
            let row = empty_row(alloc, count)?;
            rows.push(row)?;
        }
        Ok(BitGraph { rows })
    }

    /// False only where it has no edge.
    pub fn has_edges(&self) -> bool
        ensures { IsFalse result → (a b : ℕ) → IsFalse (has_edge self.now a b) }
    {
        self.rows.iter().any(|row| has_bits(row))
    }

    /// Adds an edge from a signal to each signal of a row.
    pub fn add_row(&mut self, from: SigId, targets: &[u64])
        requires from { from.0 < size self.old }
        requires over { IsOver (size self.old) self.old }
        requires targets { IsRow (size self.old) targets.now }
        ensures over { IsOver (size self.old) self.new }
        ensures gains { GainsEdges self.old self.new (λ a b.
            (from.0 == a) && in_row targets.now b) }
    {
        put_row(&mut self.rows[from.0 as usize], targets);
    }

    /// Adds an edge.
    pub fn add(&mut self, from: SigId, to: SigId)
        requires from { from.0 < size self.old }
        requires to { to.0 < size self.old }
        requires over { IsOver (size self.old) self.old }
        ensures over { IsOver (size self.old) self.new }
        ensures gains { GainsEdges self.old self.new (λ a b. (from.0 == a) && (to.0 == b)) }
    {
        put_bit(&mut self.rows[from.0 as usize], to);
    }

    // Adds an edge from a signal to each signal of a row, where one leads to `middle`.
    fn lead_on(&mut self, from: SigId, middle: SigId, targets: &[u64])
        requires from { from.0 < size self.old }
        requires over { IsOver (size self.old) self.old }
        requires targets { IsRow (size self.old) targets.now }
        ensures over { IsOver (size self.old) self.new }
        ensures gains { GainsEdges self.old self.new (λ a b.
            (from.0 == a) && (has_edge self.old a middle.0 && in_row targets.now b)) }
    {
        if has_bit(&self.rows[from.0 as usize], middle) {
            self.add_row(from, targets);
        }
    }

    // Adds an edge from each signal that leads to `middle` to each signal of a row.
    fn lead_all_on(&mut self, middle: SigId, targets: &[u64])
        requires few { size self.old < 2 ^ 32 }
        requires over { IsOver (size self.old) self.old }
        requires targets { IsRow (size self.old) targets.now }
        ensures over { IsOver (size self.old) self.new }
        ensures gains { GainsEdges self.old self.new (λ a b.
            has_edge self.old a middle.0 && in_row targets.now b) }
    {
        for from in 0..self.rows.len() {
            self.lead_on(SigId(from as u32), middle, targets);
        }
    }

    // Adds an edge for each way over edges, which may stand in place of ways over first ones. Each
    // signal is looked at for each other, also where no edge leads to it.
    fn join_all(&mut self, alloc: Global) -> Result<(), AllocError>
        requires few { size self.old < 2 ^ 32 }
        requires over { IsOver (size self.old) self.old }
        ensures over { IsOver (size self.old) self.new }
        ensures ways { OnOk result ((first : ℕ → ℕ → Bool)
            → ClosesUpTo (size self.old) first (has_edge self.old) 0
            → ClosesUpTo (size self.old) first (has_edge self.new) (size self.old)) }
    {
        for middle in 0..self.rows.len() {
            let targets = copied(alloc, &self.rows[middle])?;
            self.lead_all_on(SigId(middle as u32), &targets);
        }
        Ok(())
    }

    // The row of what the signals of a row lead to.
    fn led_from(&self, alloc: Global, row: &[u64]) -> Result<Vec<u64>, AllocError>
        requires few { size self.now < 2 ^ 32 }
        requires over { IsOver (size self.now) self.now }
        ensures row { IfOk result (λ led. IsRow (size self.now) led.items) }
        ensures bits { IfOk result (λ led. (s : ℕ) → in_row led.items s ≡
            list_any (λ m. has_edge self.now m s) (those (size self.now) (in_row row.now))) }
    {
        let signals = listed(alloc, self.rows.len(), row)?;
        let mut led = empty_row(alloc, self.rows.len())?;
        put_rows(&mut led, &signals, self);
        Ok(led)
    }

    // A copy.
    fn copy(&self, alloc: Global) -> Result<BitGraph, AllocError>
        ensures size { IfOk result (λ copy. size copy ≡ size self.now) }
        ensures rows { IfOk result (λ copy. (a : ℕ) → row copy a ≡ row self.now a) }
    {
        let mut rows = Vec::new(alloc);
        for row in &self.rows {
            let copy = copied(alloc, row)?;
            rows.push(copy)?;
        }
        Ok(BitGraph { rows })
    }

    // The signals in an order in which those that a signal leads to stand before it, where none of
    // them leads back to it.
    fn leaving_order(&self, alloc: Global) -> Result<Vec<usize>, AllocError>
        requires few { size self.now < 2 ^ 32 }
    {
        let mut rows = Rows::new(alloc, self.rows.len())?;
        for (from, row) in self.rows.iter().enumerate() {
            let targets = listed(alloc, self.rows.len(), row)?;
            add_targets(&mut rows, from, &targets)?;
        }
        leaving_order(alloc, &rows)
    }

    // Leads a signal on over its edges in another graph: adds one to whatever these lead to here.
    fn lead_by(&mut self, alloc: Global, from: usize, first: &BitGraph) -> Result<(), AllocError>
        requires few { size self.old < 2 ^ 32 }
        requires over { IsOver (size self.old) self.old }
        requires first { IsOver (size self.old) first.now }
        ensures over { IsOver (size self.old) self.new }
        ensures ways { OnOk result
            (ClosesUpTo (size self.old) (has_edge first.now) (has_edge self.old) 0
            → ClosesUpTo (size self.old) (has_edge first.now) (has_edge self.new) 0) }
    {
        if from >= self.rows.len() {
            return Ok(());
        }
        let led = self.led_from(alloc, &first.rows[from])?;
        self.add_row(SigId(from as u32), &led);
        Ok(())
    }

    // Leads some signals on so, one after the other.
    fn lead_in_order(
        &mut self,
        alloc: Global,
        order: &[usize],
        first: &BitGraph,
    ) -> Result<(), AllocError>
        requires few { size self.old < 2 ^ 32 }
        requires over { IsOver (size self.old) self.old }
        requires first { IsOver (size self.old) first.now }
        ensures over { IsOver (size self.old) self.new }
        ensures ways { OnOk result
            (ClosesUpTo (size self.old) (has_edge first.now) (has_edge self.old) 0
            → ClosesUpTo (size self.old) (has_edge first.now) (has_edge self.new) 0) }
    {
        for from in order {
            self.lead_by(alloc, *from, first)?;
        }
        Ok(())
    }

    // Whether leading a signal on so would add nothing.
    fn is_led(&self, alloc: Global, from: usize, first: &BitGraph) -> Result<bool, AllocError>
        requires from { from < size self.now }
        requires few { size self.now < 2 ^ 32 }
        requires over { IsOver (size self.now) self.now }
        requires first { IsOver (size self.now) first.now }
        ensures { IfOk result (λ is_led. IsTrue is_led → (m b : ℕ)
            → IsTrue (has_edge first.now from m) → IsTrue (has_edge self.now m b)
            → IsTrue (has_edge self.now from b)) }
    {
        let led = self.led_from(alloc, &first.rows[from])?;
        Ok(has_row(&self.rows[from], &led))
    }

    // Whether that holds of each signal.
    fn are_led(&self, alloc: Global, first: &BitGraph) -> Result<bool, AllocError>
        requires few { size self.now < 2 ^ 32 }
        requires over { IsOver (size self.now) self.now }
        requires first { IsOver (size self.now) first.now }
        ensures { IfOk result (λ are_led. IsTrue are_led → (a m b : ℕ)
            → IsTrue (has_edge first.now a m) → IsTrue (has_edge self.now m b)
            → IsTrue (has_edge self.now a b)) }
    {
        for from in 0..self.rows.len() {
            if !self.is_led(alloc, from, first)? {
                return Ok(false);
            }
        }
        Ok(true)
    }

    /// Adds an edge for each path over edges: the transitive closure. It fails where memory runs
    /// out.
    pub fn close(&mut self, alloc: Global) -> Result<(), AllocError>
        requires few { size self.old < 2 ^ 32 }
        requires over { IsOver (size self.old) self.old }
        ensures over { IsOver (size self.old) self.new }
        ensures ways { OnOk result (ClosesUpTo (size self.old) (has_edge self.old)
            (has_edge self.new) (size self.old)) }
    {
        // Where no way leads back, one pass in this order adds all, at the cost of the edges alone.
        let first = self.copy(alloc)?;
        let order = first.leaving_order(alloc)?;
        self.lead_in_order(alloc, &order, &first)?;
        if self.are_led(alloc, &first)? {
            return Ok(());
        }
        self.join_all(alloc)?;
        Ok(())
    }

    /// Adds an edge from each signal to what those that it leads to lead to in another graph, which
    /// has an edge for each of its ways. It fails where memory runs out.
    pub fn follow(&mut self, alloc: Global, ways: &BitGraph) -> Result<(), AllocError>
        requires few { size self.old < 2 ^ 32 }
        requires over { IsOver (size self.old) self.old }
        requires ways { IsOver (size self.old) ways.now }
        ensures over { IsOver (size self.old) self.new }
        ensures edges { OnOk result ((edges : ℕ → ℕ → Bool)
            → ClosesUpTo (size self.old) edges (has_edge ways.now) (size self.old)
            → (a b : ℕ) → b < size self.old
            → has_edge self.new a b ≡ leads_through (size self.old) (has_edge self.old) edges a b) }
    {
        for from in 0..self.rows.len() {
            let led = ways.led_from(alloc, &self.rows[from])?;
            self.add_row(SigId(from as u32), &led);
        }
        Ok(())
    }

    /// The graph with each edge turned round, those of a signal in signal order. It fails where
    /// memory runs out.
    pub fn turned(&self, alloc: Global) -> Result<Graph, AllocError>
        requires over { IsOver (size self.now) self.now }
        requires few { size self.now < 2 ^ 32 }
        ensures size { IfOk result (λ turned. graph_size turned ≡ size self.now) }
        ensures turned { IfOk result (IsTurned self.now) }
    {
        let mut turned = Graph::new(alloc, self.rows.len())?;
        for (from, row) in self.rows.iter().enumerate() {
            let targets = listed(alloc, self.rows.len(), row)?;
            turned.add_sources(&targets, SigId(from as u32))?;
        }
        Ok(turned)
    }
}
