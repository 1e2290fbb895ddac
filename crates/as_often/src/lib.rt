//! What it means that two lists hold the same parts, each as often: the one definition for all that count parts.
//!
//! A deque says so of what was pushed and what came out. The definition stands in specs/AsOften.antt; no code runs here.
#![tactic(auto)]

pub mod laws;
