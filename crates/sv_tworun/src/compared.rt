// What the comparison of two runs finds.
use sv_flat::SigId;

/// What the comparison of two runs finds at a level. Cycles are counted from 0.
#[derive(Clone, Copy, Debug, PartialEq, Eq)]
pub enum Compared {
    /// Both have so many cycles, and the level's views are equal at all of them.
    Equal(u64),
    /// At this cycle the level first sees two things of what was given: the inputs, and in cycle 0
    /// the registers too. The signal is the first that it sees in one run only or with two values.
    InputsDiffer(u64, SigId),
    /// At this cycle what was given looks alike, and the whole views differ for the first time. The
    /// signal is the first that stands in one view only or has two values.
    ViewsDiffer(u64, SigId),
    /// One run has more cycles than the other, which has so many, and the level's views are equal
    /// at all of these.
    LengthsDiffer(u64),
}
