//! Tests of what no command of the program asks: copies of trees and flat designs, and of admitted
//! designs the list of their obligations, what is decided of one, the encoding of obligations with
//! facts, and logs for all of them; runs of their processes one by one, what a level sees of a run,
//! and stimuli read piece by piece; and texts of verdicts. The designs are read from texts. The
//! tests stand in a crate of their own, since a crate with tests is proved twice.
#![tactic(auto)]

#[cfg(test)]
mod certificates;
#[cfg(test)]
mod encodings;
#[cfg(test)]
mod obligations;
#[cfg(test)]
mod runs;
#[cfg(test)]
mod texts;
#[cfg(test)]
mod verdicts;
#[cfg(test)]
mod views;
