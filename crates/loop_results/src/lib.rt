//! What the inputs of a tower come to, and its text: definitions over the whole list of inputs, and their laws.
//!
//! The definitions stand in specs/: the first and last of a list (Ends), extremes under an order (Extremes), inputs by their keys
//! (Groups), `result_of` (Results) and `result_text` (ResultTexts). No code holds a list of inputs to compute them.
#![tactic(auto)]

pub mod laws;
