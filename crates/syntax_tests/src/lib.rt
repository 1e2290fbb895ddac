//! Tests of the crates that read and write loop files, in a crate above them: tokens and canonical texts, which no call of the
//! program shows. What is refused and what is accepted are cases of floop_cases.
#![tactic(auto)]

#[cfg(test)]
mod texts;
#[cfg(test)]
mod tokens;
