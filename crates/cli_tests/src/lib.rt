//! Tests of `run` where a file, a source or a sink fails, and over a million cycles. Whole outputs
//! are compared through the built program (`tests/`). They stand in a crate of their own, since a
//! crate with tests is proved twice.
#![tactic(auto)]

#[cfg(test)]
mod calls;
#[cfg(test)]
mod cycles;
#[cfg(test)]
mod outside;
#[cfg(test)]
mod texts;
