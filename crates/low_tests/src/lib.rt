//! Tests of values, of files and streams, and of clauses and gates with answers worked by hand.
//! What the program calls of these layers on its way is tried through it (`tests/`). The tests
//! stand in a crate of their own, since a crate with tests is proved twice.
#![tactic(auto)]

#[cfg(test)]
mod clauses;
#[cfg(test)]
mod files;
#[cfg(test)]
mod gates;
#[cfg(test)]
mod values;
