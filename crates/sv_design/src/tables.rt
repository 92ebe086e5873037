// What is worked out of a design once, when it is admitted.
use sv_flat::{Process, SigId};
use sv_graph::Graph;

/// The tables of an admitted design.
#[derive(Debug, Drop)]
pub struct Tables {
    // the processes of the design in order, links to clocks left out
    pub processes: Vec<Process>,
    // the clock that is a top input
    pub clock: Option<SigId>,
    // for each signal, whether it is a clock
    pub clocks: Vec<bool>,
    // the signals that are no clocks, the inputs among them and the registers among them
    pub seen: Vec<SigId>,
    pub inputs: Vec<SigId>,
    pub registers: Vec<SigId>,
    // the combinational signals by depth, then number
    pub order: Vec<SigId>,
    // how many processes are combinational, and how many clocked
    pub combs: usize,
    pub clocked: usize,
    // for each signal, the place of its process in `processes`
    pub drivers: Vec<Option<usize>>,
    // for each signal, the signals read for it
    pub reads: Vec<Vec<SigId>>,
    // for each signal, those of which an earlier value is read for it
    pub wants: Graph,
}
