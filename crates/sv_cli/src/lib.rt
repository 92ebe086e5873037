//! The top call: what `secv` does with its words, a cabinet of files, an input and an output.
//!
//! `run` is what `specs/Runs.antt` says: it answers by the dialogues of `Dialogues.antt`, a command
//! each, whose own parts stand in `Checks.antt`, `Verifies.antt`, `Lists.antt` and
//! `Simulates.antt`. Where it answers `Done` to `check` or `verify`, no secret reaches a public
//! signal: any two traces of the text's own cycle meaning that look alike to a level have equal
//! views for it at every cycle (`KeepsSecrets` of `Texts.antt`), and every obligation of the text
//! is valid (`HasValidObligations` there).
//!
//! Which words are a command is said in `sv_words`, `specs/Command.antt` says what they ask for,
//! `Answer.antt` which answers and statuses there are, `Texts.antt` which rule a text breaks first,
//! and `Limits.antt` what is told of limits. The texts of verdicts stand in `sv_report`, what
//! `check` and `verify` come to in `sv_judge`, what `cnf` writes in `CnfText.antt` of `sv_encoding`,
//! and what `sim` writes in `SimulatedTexts.antt` of `sv_run_laws`. `Report.antt`, `Clauses.antt`
//! and `Prepared.antt` are private: they say what the code holds on the way; the meaning stands in
//! the files before.
#![tactic(auto)]

mod checking;
mod clauses;
mod comparing;
mod designs;
mod fetching;
mod laws;
mod listing;
mod outcome;
mod prepared;
mod report;
mod sample;
mod simulation;
mod text;
mod top;
mod verifying;

pub use laws::{
    accepted_texts_keep_secrets, check_decides_what_it_can, each_dialogue_has_one_answer,
    no_text_is_accepted_and_falsified, printed_values_falsify_their_texts, refusals_are_sure,
    secret_keepers_show_no_leak, stored_certificates_are_accepted,
};
pub use outcome::Outcome;
pub use prepared::{file_in, top_in};
pub use sv_judge::Spent;
pub use sv_obl::Valuation;
pub use sv_report::{Broken, StimSource};
pub use sv_words::UsageKind;
pub use top::run;
