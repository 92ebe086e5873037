//! The texts of verdicts and refusals.
//!
//! Takes what a text is found to be, [`Verdict`], with why it is refused, [`Broken`]. Gives the
//! lines that tell it, for an obligation that fails with the values that show it; of a verdict on
//! a text also the one line of JSON for machines. [`Style`] says which of the two.
//!
//! Promises that each text is its definition: `specs/Text.antt` has the texts that name no values,
//! over those of sv_texts, and `FlowText.antt` says of an obligation that fails which read is told,
//! and how the values are written. `Verdicts.antt` puts them together.
//! `JsonTexts.antt` and `JsonVerdicts.antt` say the same of JSON, and `Styles.antt` of either.
#![tactic(auto)]

mod flow_texts;
mod frames;
mod json_flows;
mod json_texts;
mod json_values;
mod json_verdicts;
mod laws;
mod names;
mod reads;
mod styles;
mod texts;
mod verdict_texts;
mod verdicts;

pub use flow_texts::flow_text;
pub use frames::{Frames, frames_of};
pub use json_flows::flow_json;
pub use json_texts::{accepted_json, limit_json, refusal_json, unknown_json};
pub use json_verdicts::verdict_json;
pub use laws::{ascii_names_are_told_unchanged, each_failure_has_one_text};
pub use reads::label_in;
pub use std::alloc::AllocError as OutOfMemory;
pub use styles::{Style, accepted_in, flow_text_in, limit_in, refusal_in, unknown_in};
pub use sv_texts::{StimSource, limit_text, refusal_text, stimulus_text};
pub use texts::{
    accepted_text, equal_text, fault_text, input_text, lengths_text, unknown_text, view_text,
};
pub use verdict_texts::verdict_text;
pub use verdicts::{Broken, Verdict};
