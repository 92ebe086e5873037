// The cycle in which a label is taken.

/// The cycle in which the label of an obligation's target is taken.
#[derive(Clone, Copy, Debug, PartialEq, Eq)]
pub enum Frame {
    /// The cycle in which the obligation's path is taken.
    Now,
    /// The cycle after it.
    Next,
}
