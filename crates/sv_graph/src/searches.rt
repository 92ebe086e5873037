// Searches through graphs.
ghost use Rattle.std.specs.Prelude.{◌≡◌, ◌<◌, ◌+◌, ◌^◌, ◌≤◌, ◌&&◌, nat_le, ℕ, Bool, List, length};
ghost use Rattle.std.specs.Prelude.{map, slice_index, is_some, Contains, OnOk, IfOk};
ghost use Rattle.sv_flat.specs.Sets.{holds, least_set};
ghost use Rattle.sv_graph.specs.Graphs.{size, has_edge, IsWhole};
ghost use Rattle.sv_graph.specs.Marks.{IsTable};
ghost use Rattle.sv_graph.specs.Searches.{found_by, is_found, Visits, SearchesBy, Brings, LeadsOn};
ghost use Rattle.sv_graph.specs.Searches.{IsSearch, LeadsDown, AddsWayBack};
ghost use Rattle.sv_graph.specs.Numbers.{numbers};

use crate::graphs::Graph;
use std::alloc::{AllocError, Global};
use sv_flat::SigId;

/// A signal that a search found, and the place, among what was found, of the signal that led to it.
#[derive(Clone, Copy)]
pub struct Visit {
    pub signal: SigId,
    pub from: usize,
}

/// What a search found, in the order in which it was found; and for each signal its place there.
#[derive(Drop)]
pub struct Search {
    pub visits: Vec<Visit>,
    pub places: Vec<Option<usize>>,
}

impl Search {
    // A search over so many signals that found nothing yet.
    fn new(alloc: Global, count: usize) -> Result<Search, AllocError>
        ensures { IfOk result (λ search. (brings : ℕ → ℕ → Bool) (starts : List ℕ) →
            SearchesBy count brings starts 0 search) }
    {
        Ok(Search {
            visits: Vec::new(alloc),
            places: vec![in alloc; None; count]?,
        })
    }

    // Notes a signal that the one at a place leads to, where it is not below the least and was not
    // found before.
    fn visit(&mut self, least: usize, signal: SigId, from: usize) -> Result<(), AllocError>
        requires { signal.0 < length self.old.places.items }
        ensures { OnOk result (Visits self.old self.new least signal.0 from) }
    {
        let s = signal.0 as usize;
        let passed = (s < least) | self.has(signal);
        if passed {
            return Ok(());
        }
        self.places[s] = Some(self.visits.len());
        self.visits.push(Visit { signal, from })?;
        Ok(())
    }

    // Notes the signals that the one at a place leads to, those below the least left out.
    fn expand(&mut self, graph: &Graph, least: usize, place: usize) -> Result<(), AllocError>
        requires place { place < length (found_by self.old) }
        requires size { size graph.now ≡ length self.old.places.items }
        requires whole { IsWhole graph.now }
        requires within { (k : ℕ) → k < length (found_by self.old) →
            slice_index (found_by self.old) k < size graph.now }
        ensures { OnOk result (LeadsOn graph.now least place self.old self.new) }
    {
        let signal = self.visits[place].signal;
        let row = graph.rows[signal.0 as usize].as_slice();
        for next in row {
            self.visit(least, *next, place)?;
        }
        Ok(())
    }

    /// Whether the signal was found.
    pub fn has(&self, signal: SigId) -> bool
        requires { signal.0 < length self.now.places.items }
        ensures { result ≡ is_found self.now signal.0 }
    {
        self.places[signal.0 as usize].is_some()
    }

    /// For each signal, whether it was found. It fails where memory runs out.
    pub fn table(&self, alloc: Global) -> Result<Vec<bool>, AllocError>
        ensures { IfOk result (λ table. table.items ≡ map is_some self.now.places.items) }
    {
        self.places
            .iter()
            .map(|place| place.is_some())
            .collect(alloc)
    }

    /// Adds the signals from the one at a place back to the one where the search began, that one
    /// left out. It fails where memory runs out.
    pub fn add_way_back(&self, way: &mut Vec<SigId>, place: usize) -> Result<(), AllocError>
        requires place { place < length (found_by self.now) }
        requires falls { LeadsDown self.now }
        ensures { OnOk result (AddsWayBack self.now place (numbers way.old.items)
            (numbers way.new.items)) }
    {
        let mut at = place;
        while at > 0 {
            let visit = self.visits[at];
            way.push(visit.signal)?;
            at = visit.from;
        }
        Ok(())
    }
}

/// The signals that edges lead to from some signals on, over no signals below the least. It fails
/// where memory runs out.
pub fn search_from(
    alloc: Global,
    graph: &Graph,
    least: usize,
    starts: &[SigId],
) -> Result<Search, AllocError>
    requires whole { IsWhole graph.now }
    requires starts { (k : ℕ) → Contains (numbers starts.now) k → k < size graph.now }
    ensures { IfOk result (λ search. (brings : ℕ → ℕ → Bool) → Brings graph.now least brings →
        IsSearch (size graph.now) brings (numbers starts.now) search) }
{
    let mut search = Search::new(alloc, graph.rows.len())?;
    for start in starts {
        search.visit(0, *start, 0)?;
    }
    let mut place = 0;
    while place < search.visits.len() {
        search.expand(graph, least, place)?;
        place += 1;
    }
    Ok(search)
}

/// For each signal, whether edges lead to it from some signals on. It fails where memory runs out.
pub fn reached(alloc: Global, graph: &Graph, starts: &[SigId]) -> Result<Vec<bool>, AllocError>
    requires whole { IsWhole graph.now }
    requires starts { (k : ℕ) → Contains (numbers starts.now) k → k < size graph.now }
    ensures { IfOk result (λ table. (brings : ℕ → ℕ → Bool) → Brings graph.now 0 brings
        → IsTable (size graph.now) table.items
        (holds (least_set (size graph.now) brings (numbers starts.now)))) }
{
    let found = search_from(alloc, graph, 0, starts)?;
    found.table(alloc)
}
