//! Lists of inputs with the states or the texts that they come to, whole and cut at each place.

mod build;
mod fits;
mod fold;
mod groups;
mod reducers;
mod rows;
mod towers;
