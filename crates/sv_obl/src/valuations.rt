// Values that may falsify an obligation.

/// Values of the registers and of the inputs of a cycle, and of the inputs of the next cycle: one
/// for each register and for each input, in signal order.
#[derive(Debug, Drop)]
pub struct Valuation {
    pub regs: Vec<u64>,
    pub inputs: Vec<u64>,
    pub next_inputs: Vec<u64>,
}
