// Obligations as values.
use crate::frames::Frame;
use sv_flat::{FExpr, SigId};
use sv_num::Place;

/// A condition on a path, with the place of its `if`, arm or `?`, and whether it holds there.
#[derive(Debug, Drop)]
pub struct PathStep {
    pub place: Place,
    pub cond: FExpr,
    pub truth: bool,
}

/// What an obligation asks.
#[derive(Debug, Drop)]
pub enum Goal {
    /// The labels of the reads flow to the target's label in the frame.
    Flow { target: SigId, frame: Frame },
    /// The expression is not 0 in the frame.
    Holds { expr: FExpr, frame: Frame },
    /// The label of the read, a selector of the signal's label, flows to that label.
    Selector { signal: SigId },
}

/// An obligation: where the facts are not 0 and the conditions of the path have their truth, the
/// goal is met.
#[derive(Debug, Drop)]
pub struct Query {
    pub facts: Vec<FExpr>,
    /// In textual order.
    pub path: Vec<PathStep>,
    /// The place of the assignment that the path ends in, and none where the target is held.
    pub right: Option<Place>,
    /// In signal order.
    pub reads: Vec<SigId>,
    pub goal: Goal,
}
