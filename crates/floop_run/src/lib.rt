//! The program: its requests, and the top call [`floop_words`].
//!
//! The clauses of [`floop_words`] are what floop is for: where files and sink tell their bytes and no fault is
//! counted, the status and the bytes written are those of the answer, which specs/Answers defines: by the words, the
//! first refusal of the files, and the plain loop of loop_meaning.
#![tactic(auto)]

mod accepted;
mod answer;
mod found;
mod laws;
mod names;
mod output;
mod results;
mod status;
mod top;

pub use laws::{one_answer, some_answer};
pub use status::{Status, exit_code};
pub use top::floop_words;
