//! What a legal loop emits fits its towers: each input that its lines emit, over the items of its head (at most 4,294,967,296),
//! over a stretch of them or over one item, has the form and the kinds that the reducer's tower takes.
//!
//! The definitions stand in specs/: `Fitting` says when names, lines and body runs fit, `Evaluated` which expressions a loop may
//! evaluate, `Laws` has the statements of the laws.
//! What holds of legal loops stands in [`laws`].
#![tactic(auto)]

pub mod laws;
