//! Certificates: their text, and the check that a log of resolution refutes clauses, whoever made
//! it.
//!
//! [`write_proof`] gives the text of logs. [`read_proof`] takes the bytes of a text and gives the
//! logs of which they are the text, or the first line that breaks the form of a certificate.
//! [`check_log`] takes clauses and a log, and answers `Ok` only where no values make all the
//! clauses true; else it names the first step that is not derived, or says that no empty clause
//! ends the log. [`line_of_fault`] tells on which line of the certificate that stands.
//!
//! The text of logs is said in `specs/Certificate.antt`, which line breaks it in `Lines.antt`, why
//! a log refutes nothing in `Checking.antt`, and on which line in `FaultLines.antt`; when a log
//! refutes clauses stands in `sv_clause` (`specs/Logs.antt`). `Reading.antt` is private: it says
//! how the code goes; the meaning stands in `Certificate.antt` and `Lines.antt`.
#![tactic(auto)]

mod check;
mod fields;
mod laws;
mod lines;
mod read;
mod steps;
mod write;

pub use check::{LogFault, check_log};
pub use laws::{derived_logs_are_writable, one_certificate_each};
pub use lines::line_of_fault;
pub use read::{ProofFault, read_proof};
pub use std::alloc::AllocError as OutOfMemory;
pub use write::write_proof;
